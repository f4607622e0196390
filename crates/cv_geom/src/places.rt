//! The rows and columns of coordinates, each by one multiplication.

ghost use Rattle.std.specs.Prelude.{◌≡◌, ℤ, pos, negsuc, ◌*◌, ◌+ℤ◌, ◌-ℤ◌, ◌*ℤ◌, ◌≤ℤ◌, ◌^◌, int_le, int_lt};
ghost use Rattle.cv_model.specs.Views.{centre_of};
ghost use Rattle.cv_geom.specs.Falls.{FallsAt};

use crate::multiples::Multiples;
use cv_model::View;

/// The multiples of the doubled side of a view's pixels, by which `row_under` and `column_from` count.
pub fn doubled_sides(view: &View) -> Multiples
    ensures { pos result ≡ pos 2 *ℤ view.now.u }
{
    Multiples::of(2 * view.u as u64)
}

/// The first row of a view whose centres lie below a height, in doubled millionths; the number of its rows
/// if none does.
pub fn row_under(y: i64, view: &View, sides: &Multiples) -> u32
    requires sides { pos sides.now ≡ pos 2 *ℤ view.now.u }
    requires low { negsuc (2 ^ 61) ≤ℤ y }
    requires high { y ≤ℤ pos (2 ^ 61) }
    ensures { FallsAt (λ j. int_le y (centre_of view.now 0 j).y) 0 view.now.h result }
{
    sides.count(way_down(y, view), view.h)
}

/// The first column of a view whose centres don't lie left of a place, in doubled millionths; the number of
/// its columns if all do.
pub fn column_from(x: i64, view: &View, sides: &Multiples) -> u32
    requires sides { pos sides.now ≡ pos 2 *ℤ view.now.u }
    requires west { negsuc (2 ^ 61) ≤ℤ x }
    requires east { x ≤ℤ pos (2 ^ 61) }
    ensures { FallsAt (λ i. int_lt (centre_of view.now i 0).x x) 0 view.now.w result }
{
    sides.count(way_before(x, view), view.w)
}

/// How far a height lies below the centres of the first row.
fn way_down(y: i64, view: &View) -> i64
    requires low { negsuc (2 ^ 61) ≤ℤ y }
    requires high { y ≤ℤ pos (2 ^ 61) }
    ensures { result ≡ view.now.ty2 -ℤ view.now.u -ℤ y }
{
    view.ty2 - view.u - y
}

/// How far the last place before another lies right of the centres of the first column.
fn way_before(x: i64, view: &View) -> i64
    requires west { negsuc (2 ^ 61) ≤ℤ x }
    requires east { x ≤ℤ pos (2 ^ 61) }
    ensures { result ≡ x -ℤ pos 1 -ℤ view.now.lx2 -ℤ view.now.u }
{
    x - 1 - view.lx2 - view.u
}
