//! Features that lie beyond a view, as their boxes tell.

ghost use Rattle.std.specs.Prelude.{◌≡◌, ◌<◌, ◌≤◌, ◌-◌, ◌||◌, ℕ, [], Option, true, false};
ghost use Rattle.std.specs.Prelude.{pos, ◌≤ℤ◌, ◌+ℤ◌, ◌-ℤ◌, ◌*ℤ◌, int_lt};
ghost use Rattle.std.specs.Option.{option_map_or};
ghost use Rattle.cv_model.specs.declared.symbol.Symbol.{Symbol};
ghost use Rattle.cv_model.specs.Pens.{IsRadius};
ghost use Rattle.cv_model.specs.Positions.{IsCoordinate, IsDoubled};
ghost use Rattle.cv_model.specs.Views.{centre_of};
ghost use Rattle.cv_model.specs.Pictures.{strokes, is_feature_at};
ghost use Rattle.cv_paint.specs.Far.{is_far};
ghost use Rattle.cv_paint.specs.Widths.{width_of};

use crate::sides::half_side;
use cv_geom::centre;
use cv_layer::FeatureRow;
use cv_model::{Extent, Point2, View};

/// A position, moved eastwards or northwards.
fn beyond(z: i64, r: i64) -> i64
    requires z { IsDoubled z }
    requires r { IsRadius r }
    ensures { result ≡ z +ℤ r }
{
    z + r
}

/// A position, moved westwards or southwards.
fn short(z: i64, r: i64) -> i64
    requires z { IsDoubled z }
    requires r { IsRadius r }
    ensures { result ≡ z -ℤ r }
{
    z - r
}

/// A coordinate in doubled millionths.
fn twice(z: i64) -> i64
    requires { IsCoordinate z }
    ensures { result ≡ pos 2 *ℤ z }
{
    2 * z
}

/// Whether a position and what lies within `r` of it lie before a coordinate in millionths.
fn lies_before(z: i64, r: i64, low: i64) -> bool
    requires z { IsDoubled z }
    requires r { IsRadius r }
    requires low { IsCoordinate low }
    ensures { result ≡ int_lt (z +ℤ r) (pos 2 *ℤ low) }
{
    beyond(z, r) < twice(low)
}

/// Whether a position and what lies within `r` of it lie behind a coordinate in millionths.
fn lies_behind(z: i64, r: i64, high: i64) -> bool
    requires z { IsDoubled z }
    requires r { IsRadius r }
    requires high { IsCoordinate high }
    ensures { result ≡ int_lt (pos 2 *ℤ high) (z -ℤ r) }
{
    twice(high) < short(z, r)
}

/// Whether all positions from `first` to `last` lie more than `r` beyond an interval in millionths.
fn is_beyond(first: i64, last: i64, r: i64, low: i64, high: i64) -> bool
    requires first { IsDoubled first }
    requires last { IsDoubled last }
    requires r { IsRadius r }
    requires low { IsCoordinate low }
    requires high { IsCoordinate high }
    ensures { result ≡ (int_lt (last +ℤ r) (pos 2 *ℤ low) || int_lt (pos 2 *ℤ high) (first -ℤ r)) }
{
    lies_before(last, r, low) || lies_behind(first, r, high)
}

/// Whether the centres from the first one, at the top left, to the last one lie more than `r` west or east of
/// a box.
fn are_across(first: Point2, last: Point2, r: i64, bounds: &Extent) -> bool
    requires { IsRadius r }
    ensures { result
        ≡ (int_lt (last.x +ℤ r) (pos 2 *ℤ bounds.now.xmin)
        || int_lt (pos 2 *ℤ bounds.now.xmax) (first.x -ℤ r)) }
{
    is_beyond(first.x, last.x, r, bounds.xmin, bounds.xmax)
}

/// Whether they lie more than `r` south or north of it.
fn are_along(first: Point2, last: Point2, r: i64, bounds: &Extent) -> bool
    requires { IsRadius r }
    ensures { result
        ≡ (int_lt (first.y +ℤ r) (pos 2 *ℤ bounds.now.ymin)
        || int_lt (pos 2 *ℤ bounds.now.ymax) (last.y -ℤ r)) }
{
    is_beyond(last.y, first.y, r, bounds.ymin, bounds.ymax)
}

/// Whether they lie more than `r` beyond it.
fn are_beyond(first: Point2, last: Point2, r: i64, bounds: &Extent) -> bool
    requires { IsRadius r }
    ensures { result ≡ (
        (int_lt (last.x +ℤ r) (pos 2 *ℤ bounds.now.xmin)
        || int_lt (pos 2 *ℤ bounds.now.xmax) (first.x -ℤ r))
        || (int_lt (first.y +ℤ r) (pos 2 *ℤ bounds.now.ymin)
        || int_lt (pos 2 *ℤ bounds.now.ymax) (last.y -ℤ r))) }
{
    are_across(first, last, r, bounds) || are_along(first, last, r, bounds)
}

/// The centre of the pixel at the top left.
fn first_centre(view: &View) -> Point2
    ensures unit { pos 1 ≤ℤ view.now.u }
    ensures centre { result ≡ centre_of view.now 0 0 }
{
    let _side = view.u;
    centre(view, 0, 0)
}

/// The centre of the pixel at the bottom right.
fn last_centre(view: &View) -> Point2
    ensures { result ≡ centre_of view.now (view.now.w - 1) (view.now.h - 1) }
{
    centre(view, view.w - 1, view.h - 1)
}

/// Whether all pixel centres of a view lie more than `r` from a box.
fn is_far(bounds: &Extent, r: i64, view: &View) -> bool
    requires { IsRadius r }
    ensures unit { pos 1 ≤ℤ view.now.u }
    ensures far { result ≡ true → (i j : ℕ) → i < view.now.w → j < view.now.h
        → is_far r bounds.now (centre_of view.now i j) ≡ true }
{
    are_beyond(first_centre(view), last_centre(view), r, bounds)
}

/// Whether a feature lays nothing on a view with any symbol of so many pixels at most, as its box tells.
pub fn is_missed(row: &FeatureRow, widest: u32, view: &View) -> bool
    requires least { 1 ≤ widest }
    requires most { widest ≤ 256 }
    ensures { result ≡ true → (drawn : Option Symbol) → option_map_or width_of drawn 0 ≤ widest
        → (i j : ℕ) → i < view.now.w → j < view.now.h
        → strokes drawn view.now (centre_of view.now i j) row.now.geometry ≡ [] }
{
    match row.bounds() {
        Some(bounds) => is_far(&bounds, half_side(view, widest), view),
        None => false,
    }
}

/// Whether no polygon of a feature has a centre of a view inside, as its box tells.
pub fn is_outside(row: &FeatureRow, view: &View) -> bool
    ensures { result ≡ true → (i j : ℕ) → i < view.now.w → j < view.now.h
        → is_feature_at (centre_of view.now i j) row.now ≡ false }
{
    match row.bounds() {
        Some(bounds) => is_far(&bounds, 0, view),
        None => false,
    }
}
