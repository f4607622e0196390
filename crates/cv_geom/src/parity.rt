//! The inside of a polygon, by the parity of the edges that cross right of a position.

ghost use Rattle.std.specs.Prelude.{◌≡◌, ◌==◌, ◌%◌};
ghost use Rattle.cv_model.specs.Positions.{doubled};
ghost use Rattle.cv_model.specs.Polygons.{is_low, passes_right, crossings, edges, is_inside};

use crate::measures::{distance, distance_to, product};
use cv_model::{Point, Point2, Polygon};

/// Whether a position lies inside a polygon: an odd number of the edges of all its rings crosses
/// right of it.
///
/// Left and bottom borders belong to the polygon, right and top borders don't. The position is in
/// doubled millionths.
pub fn inside(polygon: &Polygon, p: Point2) -> bool
    ensures { result ≡ is_inside p polygon.now }
{
    let mut odd = false;
    for ring in polygon.as_slice() {
        odd = odd != is_crossed_oddly(ring.as_slice(), p);
    }
    odd
}

/// Whether an odd number of the edges of a ring crosses right of a position.
fn is_crossed_oddly(points: &[Point], p: Point2) -> bool
    ensures { result ≡ (crossings p (edges points.now) % 2 == 1) }
{
    let Some(last) = points.last() else {
        return false;
    };
    let mut before = *last;
    let mut was_low = is_low(before, p);
    let mut odd = false;
    for point in points {
        let low = is_low(*point, p);

        // Few edges get further.
        if low != was_low {
            let (lower, upper) = if low {
                (*point, before)
            } else {
                (before, *point)
            };
            odd = odd != passes_right(lower, upper, p);
        }
        before = *point;
        was_low = low;
    }
    odd
}

/// Whether a point stands at a height of at most that of `p`.
pub fn is_low(a: Point, p: Point2) -> bool
    ensures { result ≡ is_low p (doubled a) }
{
    2 * a.y <= p.y
}

/// Whether the line from `a` up to `b` passes the height of `p` strictly right of it.
pub fn passes_right(a: Point, b: Point, p: Point2) -> bool
    ensures { result ≡ passes_right p (doubled a) (doubled b) }
{
    let left = product(distance_to(a.x, p.x), distance(a.y, b.y));
    let right = product(distance(a.x, b.x), distance_to(a.y, p.y));
    left < right
}
