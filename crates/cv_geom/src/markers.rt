//! What a marker covers.

ghost use Rattle.std.specs.Prelude.{◌≡◌, ◌^◌, pos, negsuc, ◌+ℤ◌, ◌*ℤ◌, ◌≤ℤ◌};
ghost use Rattle.cv_model.specs.Pens.{IsRadius};
ghost use Rattle.cv_model.specs.Markers.{covers, is_marked};

use crate::measures::{distance_to, product};
use cv_model::{Point, Point2, Shape};

/// Whether the marker of radius `r` on a point covers a position; `r` and the position are in doubled
/// millionths.
pub fn marked(shape: Shape, at: Point, p: Point2, r: i64) -> bool
    requires { IsRadius r }
    ensures { result ≡ is_marked shape r p at }
{
    covers(shape, distance_to(at.x, p.x), distance_to(at.y, p.y), r)
}

/// Whether the position that is `dx` and `dy` away from its middle lies within a shape of radius `r`.
fn covers(shape: Shape, dx: i64, dy: i64, r: i64) -> bool
    requires west { negsuc (2 ^ 60) ≤ℤ dx }
    requires east { dx ≤ℤ pos (2 ^ 60) }
    requires south { negsuc (2 ^ 60) ≤ℤ dy }
    requires north { dy ≤ℤ pos (2 ^ 60) }
    ensures { result ≡ covers shape r dx dy }
{
    match shape {
        Shape::Square => dx.abs().max(dy.abs()) <= r,
        Shape::Diamond => dx.abs() + dy.abs() <= r,
        Shape::Circle => squared(dx, dy) <= product(r, r),
    }
}

/// The square of the distance that lies `dx` and `dy` away.
fn squared(dx: i64, dy: i64) -> i128
    requires west { negsuc (2 ^ 60) ≤ℤ dx }
    requires east { dx ≤ℤ pos (2 ^ 60) }
    requires south { negsuc (2 ^ 60) ≤ℤ dy }
    requires north { dy ≤ℤ pos (2 ^ 60) }
    ensures { result ≡ dx *ℤ dx +ℤ dy *ℤ dy }
{
    product(dx, dx) + product(dy, dy)
}
