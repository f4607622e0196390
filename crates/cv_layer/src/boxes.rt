//! The boxes of geometries.

ghost use Rattle.std.specs.Prelude.{◌≡◌};
ghost use Rattle.std.specs.Int.{int_min, int_max};
ghost use Rattle.cv_model.specs.Positions.{IsCoordinate};
ghost use Rattle.cv_layer.specs.Boxes.{box_at, widened, stretched, round_points, round_lines};
ghost use Rattle.cv_layer.specs.Boxes.{round_polygons, box_of};

use cv_model::{Extent, Geometry, Line, Point, Polygon};

/// The lesser of two coordinates.
fn lesser(a: i64, b: i64) -> i64
    requires { IsCoordinate a × IsCoordinate b }
    ensures value { result ≡ int_min a b }
    ensures range { IsCoordinate result }
{
    if b < a { b } else { a }
}

/// The greater of two coordinates.
fn greater(a: i64, b: i64) -> i64
    requires { IsCoordinate a × IsCoordinate b }
    ensures value { result ≡ int_max a b }
    ensures range { IsCoordinate result }
{
    if b < a { a } else { b }
}

/// The box of one point.
fn box_at(point: Point) -> Extent
    ensures { result ≡ box_at point }
{
    Extent {
        xmin: point.x,
        ymin: point.y,
        xmax: point.x,
        ymax: point.y,
    }
}

/// The least box that holds a point and what a box holds.
fn widened(held: Extent, point: Point) -> Extent
    ensures { result ≡ widened held point }
{
    Extent {
        xmin: lesser(held.xmin, point.x),
        ymin: lesser(held.ymin, point.y),
        xmax: greater(held.xmax, point.x),
        ymax: greater(held.ymax, point.y),
    }
}

/// The least box that holds a point and what a box holds, if there is one.
fn stretched(held: Option<Extent>, point: Point) -> Option<Extent>
    ensures { result ≡ stretched held point }
{
    match held {
        None => Some(box_at(point)),
        Some(held) => Some(widened(held, point)),
    }
}

/// The least box that holds these points and what a box holds.
fn round_points(mut held: Option<Extent>, points: &[Point]) -> Option<Extent>
    ensures { result ≡ round_points held points.now }
{
    for point in points {
        held = stretched(held, *point);
    }
    held
}

/// The least box that holds these lines or rings and what a box holds.
fn round_lines(mut held: Option<Extent>, lines: &[Line]) -> Option<Extent>
    ensures { result ≡ round_lines held lines.now }
{
    for line in lines {
        held = round_points(held, line.as_slice());
    }
    held
}

/// The least box that holds these polygons and what a box holds.
fn round_polygons(mut held: Option<Extent>, polygons: &[Polygon]) -> Option<Extent>
    ensures { result ≡ round_polygons held polygons.now }
{
    for polygon in polygons {
        held = round_lines(held, polygon.as_slice());
    }
    held
}

/// The least box that holds all vertices of a geometry, in millionths of a map unit. There is none where it
/// has no vertex.
#[tactic(auto, unfolding(crate::specs::Boxes::box_of))]
pub fn box_of(geometry: &Geometry) -> Option<Extent>
    ensures { result ≡ box_of geometry.now }
{
    let points = round_points(None, geometry.points());
    let lines = round_lines(points, geometry.lines());
    round_polygons(lines, geometry.polygons())
}
