//! The rows and columns that a pen reaches along a segment.

ghost use Rattle.std.specs.Prelude.{◌≡◌, ℕ, ◌≤◌, ◌<◌, ◌⊎◌, false, pos, negsuc, ◌^◌, ◌+ℤ◌, ◌-ℤ◌, ◌*ℤ◌, ◌≤ℤ◌};
ghost use Rattle.std.specs.Int.{int_max, int_min};
ghost use Rattle.cv_model.specs.Positions.{IsCoordinate, doubled};
ghost use Rattle.cv_model.specs.Pens.{IsRadius, overlaps};
ghost use Rattle.cv_model.specs.Views.{centre_of};

use cv_geom::{Multiples, column_from, row_under};
use cv_model::{Point, Span, View};

/// Of some rows those outside of which a pen of half-side `r` reaches no part of the segment between two
/// points.
pub fn rows_by(a: Point, b: Point, r: i64, view: &View, sides: &Multiples, rows: Span) -> Span
    requires sides { pos sides.now ≡ pos 2 *ℤ view.now.u }
    requires radius { IsRadius r }
    requires order { rows.from ≤ rows.end }
    requires within { rows.end ≤ view.now.h }
    ensures from { rows.from ≤ result.from }
    ensures order { result.from ≤ result.end }
    ensures end { result.end ≤ rows.end }
    ensures outside { (j : ℕ) → rows.from ≤ j → j < rows.end → (j < result.from) ⊎ (result.end ≤ j)
        → overlaps r (centre_of view.now 0 j).y (doubled a).y (doubled b).y ≡ false }
{
    let first = row_under(place_behind(a.y, b.y, r), view, sides);
    let end = row_under(place_before(a.y, b.y, r), view, sides);
    kept(first, end, rows)
}

/// Of some columns those outside of which a pen of half-side `r` reaches no part of the segment between two
/// points.
pub fn columns_by(a: Point, b: Point, r: i64, view: &View, sides: &Multiples, columns: Span) -> Span
    requires sides { pos sides.now ≡ pos 2 *ℤ view.now.u }
    requires radius { IsRadius r }
    requires order { columns.from ≤ columns.end }
    requires within { columns.end ≤ view.now.w }
    ensures from { columns.from ≤ result.from }
    ensures order { result.from ≤ result.end }
    ensures end { result.end ≤ columns.end }
    ensures outside { (i : ℕ) → columns.from ≤ i → i < columns.end → (i < result.from) ⊎ (result.end ≤ i)
        → overlaps r (centre_of view.now i 0).x (doubled a).x (doubled b).x ≡ false }
{
    let first = column_from(place_before(a.x, b.x, r), view, sides);
    let end = column_from(place_behind(a.x, b.x, r), view, sides);
    kept(first, end, columns)
}

/// What lies within a span of the numbers from `first` up to and without `end`.
fn kept(first: u32, end: u32, within: Span) -> Span
    requires { within.from ≤ within.end }
    ensures from { within.from ≤ result.from }
    ensures order { result.from ≤ result.end }
    ensures end { result.end ≤ within.end }
    ensures before { (k : ℕ) → within.from ≤ k → k < result.from → k < first }
    ensures behind { (k : ℕ) → k < within.end → result.end ≤ k → end ≤ k }
{
    let from = first.max(within.from).min(within.end);
    Span {
        from,
        end: end.max(from).min(within.end),
    }
}

/// The last place of which the stretch of half-length `r` ends before two coordinates or at the first.
fn place_before(a: i64, b: i64, r: i64) -> i64
    requires a_in { IsCoordinate a }
    requires b_in { IsCoordinate b }
    requires r_in { IsRadius r }
    ensures value { result ≡ int_min (pos 2 *ℤ a) (pos 2 *ℤ b) -ℤ r }
    ensures low { negsuc (2 ^ 61) ≤ℤ result }
    ensures high { result ≤ℤ pos (2 ^ 61) }
{
    least(a, b) - r
}

/// The first place of which the stretch of half-length `r` begins behind two coordinates.
fn place_behind(a: i64, b: i64, r: i64) -> i64
    requires a_in { IsCoordinate a }
    requires b_in { IsCoordinate b }
    requires r_in { IsRadius r }
    ensures value { result ≡ int_max (pos 2 *ℤ a) (pos 2 *ℤ b) +ℤ r +ℤ pos 1 }
    ensures low { negsuc (2 ^ 61) ≤ℤ result }
    ensures high { result ≤ℤ pos (2 ^ 61) }
{
    most(a, b) + r + 1
}

/// The lesser of two coordinates, doubled.
fn least(a: i64, b: i64) -> i64
    requires a_in { IsCoordinate a }
    requires b_in { IsCoordinate b }
    ensures value { result ≡ int_min (pos 2 *ℤ a) (pos 2 *ℤ b) }
    ensures low { negsuc (2 ^ 52) ≤ℤ result }
    ensures high { result ≤ℤ pos (2 ^ 52) }
{
    (2 * a).min(2 * b)
}

/// The greater of two coordinates, doubled.
fn most(a: i64, b: i64) -> i64
    requires a_in { IsCoordinate a }
    requires b_in { IsCoordinate b }
    ensures value { result ≡ int_max (pos 2 *ℤ a) (pos 2 *ℤ b) }
    ensures low { negsuc (2 ^ 52) ≤ℤ result }
    ensures high { result ≤ℤ pos (2 ^ 52) }
{
    (2 * a).max(2 * b)
}
