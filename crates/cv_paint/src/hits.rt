//! What the parts of a geometry cover and hit.

ghost use Rattle.std.specs.Prelude.{◌≡◌};
ghost use Rattle.std.specs.List.{list_any};
ghost use Rattle.cv_model.specs.Polygons.{edges_from};
ghost use Rattle.cv_model.specs.Pens.{IsRadius, is_near};
ghost use Rattle.cv_model.specs.Markers.{is_marked};
ghost use Rattle.cv_model.specs.Pictures.{is_covered, hits_ring, hits_line, hits_rings, hits_lines};

use cv_geom::{inside, marked, near};
use cv_model::{Geometry, Point, Point2, Polygon, Shape};

/// Whether a position, in doubled millionths, is inside some polygon.
pub fn is_covered(geometry: &Geometry, p: Point2) -> bool
    ensures { result ≡ is_covered p geometry.now }
{
    geometry.polygons().iter().any(|polygon| inside(polygon, p))
}

/// Whether the marker of radius `r`, in doubled millionths, on some point covers a position.
pub fn is_marked(geometry: &Geometry, shape: Shape, r: i64, p: Point2) -> bool
    requires { IsRadius r }
    ensures { result ≡ list_any (is_marked shape r p) geometry.now.points }
{
    geometry
        .points()
        .iter()
        .any(|point| marked(shape, *point, p, r))
}

/// Whether the pen of half-width `r`, in doubled millionths, at a position hits an edge of some ring.
pub fn hits_rings(geometry: &Geometry, r: i64, p: Point2) -> bool
    requires { IsRadius r }
    ensures { result ≡ hits_rings r p geometry.now }
{
    geometry
        .polygons()
        .iter()
        .any(|polygon| hits_polygon(polygon, r, p))
}

/// Whether the pen hits an edge of some ring of a polygon.
fn hits_polygon(polygon: &Polygon, r: i64, p: Point2) -> bool
    requires { IsRadius r }
    ensures { result ≡ list_any (hits_ring r p) polygon.now }
{
    polygon
        .as_slice()
        .iter()
        .any(|ring| hits_ring(ring.as_slice(), r, p))
}

/// Whether the pen of half-width `r`, in doubled millionths, at a position hits a segment of some line.
pub fn hits_lines(geometry: &Geometry, r: i64, p: Point2) -> bool
    requires { IsRadius r }
    ensures { result ≡ hits_lines r p geometry.now }
{
    geometry
        .lines()
        .iter()
        .any(|line| hits_line(line.as_slice(), r, p))
}

/// Whether the pen hits an edge of a ring.
fn hits_ring(ring: &[Point], r: i64, p: Point2) -> bool
    requires { IsRadius r }
    ensures { result ≡ hits_ring r p ring.now }
{
    match ring.last() {
        Some(last) => hits_path(*last, ring, r, p),
        None => false,
    }
}

/// Whether the pen hits a segment of a line. A line of one point has the segment from it to itself.
fn hits_line(line: &[Point], r: i64, p: Point2) -> bool
    requires { IsRadius r }
    ensures { result ≡ hits_line r p line.now }
{
    match line.split_first() {
        Some((only, [])) => near(*only, *only, p, r),
        Some((first, rest)) => hits_path(*first, rest, r, p),
        None => false,
    }
}

/// Whether the pen hits a segment of the path from `start` through these points.
fn hits_path(start: Point, points: &[Point], r: i64, p: Point2) -> bool
    requires { IsRadius r }
    ensures { result ≡ list_any (is_near r p) (edges_from start points.now) }
{
    let mut before = start;
    for point in points {
        if near(before, *point, p, r) {
            return true;
        }
        before = *point;
    }
    false
}
