//! Geometries.

ghost use Rattle.std.specs.Prelude.{◌≡◌, length, sum_by};
ghost use Rattle.cv_model.specs.Geometries.{points_of, vertices_of, counted};

use crate::position::{Point, Polygon};
use crate::sequence::Sequence;
use std::marker::Model;

/// A line: its points in order.
pub type Line = Sequence<Point>;

/// A geometry, seen as its points, its lines and its polygons. It holds these and nothing more.
#[derive(Drop)]
pub struct Geometry {
    points: Sequence<Point>,
    lines: Sequence<Line>,
    polygons: Sequence<Polygon>,
}

impl Model for Geometry {
    ghost use Rattle.cv_model.specs.Geometries.{GeometryLists};

    ghost Value = { GeometryLists };

    ghost view = { λ g. record { points = g.points; lines = g.lines; polygons = g.polygons } };
}

impl Geometry {
    /// The geometry of these parts.
    pub fn of(
        points: Sequence<Point>,
        lines: Sequence<Line>,
        polygons: Sequence<Polygon>,
    ) -> Geometry
        ensures { result ≡ record { points = points; lines = lines; polygons = polygons } }
    {
        Geometry {
            points,
            lines,
            polygons,
        }
    }

    /// The points.
    pub fn points(&self) -> &[Point]
        ensures { result.now ≡ self.now.points }
    {
        self.points.as_slice()
    }

    /// The lines.
    pub fn lines(&self) -> &[Line]
        ensures { result.now ≡ self.now.lines }
    {
        self.lines.as_slice()
    }

    /// The polygons.
    pub fn polygons(&self) -> &[Polygon]
        ensures { result.now ≡ self.now.polygons }
    {
        self.polygons.as_slice()
    }

    /// How many vertices all parts have together. The count stops at 2^64-1.
    pub fn vertices(&self) -> u64
        ensures { result ≡ counted (vertices_of self.now) }
    {
        let in_lines = points_in(self.lines());
        let in_polygons = points_in_rings(self.polygons());
        self.points
            .len()
            .saturating_add(in_lines)
            .saturating_add(in_polygons)
    }
}

/// How many points these lines or rings have together, up to 2^64-1.
fn points_in(lines: &[Line]) -> u64
    ensures { result ≡ counted (sum_by length lines.now) }
{
    let mut points: u64 = 0;
    for line in lines {
        points = points.saturating_add(line.len());
    }
    points
}

/// How many points these polygons have together, up to 2^64-1.
fn points_in_rings(polygons: &[Polygon]) -> u64
    ensures { result ≡ counted (sum_by points_of polygons.now) }
{
    let mut points: u64 = 0;
    for polygon in polygons {
        points = points.saturating_add(points_in(polygon.as_slice()));
    }
    points
}
