//! What a pen hits.

ghost use Rattle.std.specs.Prelude.{◌≡◌, ◌^◌, ◌&&◌, not, pos, negsuc, ◌+ℤ◌, ◌-ℤ◌, ◌*ℤ◌, ◌≤ℤ◌, int_lt, int_le};
ghost use Rattle.std.specs.Int.{int_max, int_min};
ghost use Rattle.std.specs.List.{list_all};
ghost use Rattle.cv_model.specs.Positions.{IsCoordinate, IsDoubled, doubled};
ghost use Rattle.cv_model.specs.Pens.{IsRadius, overlaps, corners, straddles, is_near};

use crate::measures::{distance, product};
use cv_model::{Point, Point2};

/// Whether the segment from `a` to `b` meets the upright square of half-side `r` round a position.
///
/// Both are closed, so that touching counts. `r` and the position are in doubled millionths.
pub fn near(a: Point, b: Point, p: Point2, r: i64) -> bool
    requires { IsRadius r }
    ensures { result ≡ is_near r p (a, b) }
{
    overlaps_both_ways(a, b, p, r) && straddles(a, b, p, r)
}

/// Whether a square and the box of a segment overlap.
fn overlaps_both_ways(a: Point, b: Point, p: Point2, r: i64) -> bool
    requires { IsRadius r }
    ensures { result
        ≡ (overlaps r p.x (doubled a).x (doubled b).x && overlaps r p.y (doubled a).y (doubled b).y) }
{
    overlaps_across(a, b, p, r) && overlaps_upwards(a, b, p, r)
}

/// Whether a segment and a square overlap from left to right.
fn overlaps_across(a: Point, b: Point, p: Point2, r: i64) -> bool
    requires { IsRadius r }
    ensures { result ≡ overlaps r p.x (doubled a).x (doubled b).x }
{
    overlaps(a.x, b.x, p.x, r)
}

/// Whether a segment and a square overlap from bottom to top.
pub fn overlaps_upwards(a: Point, b: Point, p: Point2, r: i64) -> bool
    requires { IsRadius r }
    ensures { result ≡ overlaps r p.y (doubled a).y (doubled b).y }
{
    overlaps(a.y, b.y, p.y, r)
}

/// Whether the stretch between two coordinates overlaps the one of half-length `r` round a doubled one.
fn overlaps(a: i64, b: i64, p: i64, r: i64) -> bool
    requires a_in { IsCoordinate a }
    requires b_in { IsCoordinate b }
    requires p_in { IsDoubled p }
    requires r_in { IsRadius r }
    ensures { result ≡ overlaps r p (pos 2 *ℤ a) (pos 2 *ℤ b) }
{
    begins_before(a, b, p, r) && ends_behind(a, b, p, r)
}

/// Whether the stretch between two coordinates begins at `p + r` or before.
pub fn begins_before(a: i64, b: i64, p: i64, r: i64) -> bool
    requires a_in { IsCoordinate a }
    requires b_in { IsCoordinate b }
    requires p_in { IsDoubled p }
    requires r_in { IsRadius r }
    ensures { result ≡ int_le (int_min (pos 2 *ℤ a) (pos 2 *ℤ b)) (p +ℤ r) }
{
    (2 * a).min(2 * b) <= p + r
}

/// Whether the stretch between two coordinates ends at `p - r` or behind.
pub fn ends_behind(a: i64, b: i64, p: i64, r: i64) -> bool
    requires a_in { IsCoordinate a }
    requires b_in { IsCoordinate b }
    requires p_in { IsDoubled p }
    requires r_in { IsRadius r }
    ensures { result ≡ int_le (p -ℤ r) (int_max (pos 2 *ℤ a) (pos 2 *ℤ b)) }
{
    p - r <= (2 * a).max(2 * b)
}

/// Whether the corners of a square lie on both sides of the line through a segment, or on it.
fn straddles(a: Point, b: Point, p: Point2, r: i64) -> bool
    requires { IsRadius r }
    ensures { result ≡ straddles (doubled a) (doubled b) (corners r p) }
{
    let (dx, dy) = (distance(a.x, b.x), distance(a.y, b.y));
    let (west, east) = (nearer(a.x, p.x, r), farther(a.x, p.x, r));
    let (south, north) = (nearer(a.y, p.y, r), farther(a.y, p.y, r));
    are_apart(&[
        cross(dx, dy, west, south),
        cross(dx, dy, east, south),
        cross(dx, dy, west, north),
        cross(dx, dy, east, north),
    ])
}

/// Whether numbers are neither all above 0 nor all below 0.
fn are_apart(sides: &[i128]) -> bool
    ensures { result
        ≡ (not (list_all (λ z. int_lt (pos 0) z) sides.now)
        && not (list_all (λ z. int_lt z (pos 0)) sides.now)) }
{
    !are_above(sides) && !are_below(sides)
}

/// Whether all numbers are above 0.
fn are_above(sides: &[i128]) -> bool
    ensures { result ≡ list_all (λ z. int_lt (pos 0) z) sides.now }
{
    sides.iter().all(|side| 0 < *side)
}

/// Whether all numbers are below 0.
fn are_below(sides: &[i128]) -> bool
    ensures { result ≡ list_all (λ z. int_lt z (pos 0)) sides.now }
{
    sides.iter().all(|side| *side < 0)
}

/// The cross product of two ways.
fn cross(dx: i64, dy: i64, x: i64, y: i64) -> i128
    requires west { negsuc (2 ^ 61) ≤ℤ x }
    requires east { x ≤ℤ pos (2 ^ 61) }
    requires south { negsuc (2 ^ 61) ≤ℤ y }
    requires north { y ≤ℤ pos (2 ^ 61) }
    ensures { result ≡ dx *ℤ y -ℤ dy *ℤ x }
{
    product(dx, y) - product(dy, x)
}

/// The way from a coordinate, doubled, to `r` before a doubled one.
fn nearer(from: i64, to: i64, r: i64) -> i64
    requires from_in { IsCoordinate from }
    requires to_in { IsDoubled to }
    requires r_in { IsRadius r }
    ensures value { result ≡ to -ℤ r -ℤ pos 2 *ℤ from }
    ensures low { negsuc (2 ^ 61) ≤ℤ result }
    ensures high { result ≤ℤ pos (2 ^ 61) }
{
    to - r - 2 * from
}

/// The way from a coordinate, doubled, to `r` behind a doubled one.
fn farther(from: i64, to: i64, r: i64) -> i64
    requires from_in { IsCoordinate from }
    requires to_in { IsDoubled to }
    requires r_in { IsRadius r }
    ensures value { result ≡ to +ℤ r -ℤ pos 2 *ℤ from }
    ensures low { negsuc (2 ^ 61) ≤ℤ result }
    ensures high { result ≤ℤ pos (2 ^ 61) }
{
    to + r - 2 * from
}
