//! On which side of a segment a pen lies.

ghost use Rattle.std.specs.Prelude.{◌≡◌, ◌≤◌, ◌^◌, pos, ◌+ℤ◌, ◌-ℤ◌, ◌*ℤ◌, not, int_le, unsigned_abs};
ghost use Rattle.std.specs.Int.{int_max, int_min};
ghost use Rattle.cv_model.specs.Positions.{doubled};
ghost use Rattle.cv_model.specs.Pens.{IsRadius};
ghost use Rattle.cv_pen.specs.Strokes.{corner_way, is_before, is_reached};

use cv_geom::{begins_before, distance, distance_to, ends_behind, product};
use cv_model::{Point, Point2};

/// The product of a segment's way eastwards and the way up to the height of a position.
pub fn rise_at(low: Point, high: Point, p: Point2) -> i128
    ensures value { result
        ≡ (pos 2 *ℤ high.x -ℤ pos 2 *ℤ low.x) *ℤ (p.y -ℤ pos 2 *ℤ low.y) }
    ensures bound { unsigned_abs result ≤ 2 ^ 124 }
{
    product(distance(low.x, high.x), distance_to(low.y, p.y))
}

/// The product of a segment's way up and the way eastwards to a position.
fn run_at(low: Point, high: Point, p: Point2) -> i128
    ensures { result ≡ (pos 2 *ℤ high.y -ℤ pos 2 *ℤ low.y) *ℤ (p.x -ℤ pos 2 *ℤ low.x) }
{
    product(distance(low.y, high.y), distance_to(low.x, p.x))
}

/// How much the corners of a pen differ from its middle in their side of the line up a segment.
pub fn corner_way(low: Point, high: Point, r: i64) -> i128
    requires { IsRadius r }
    ensures value { result ≡ corner_way r (doubled low) (doubled high) }
    ensures bound { unsigned_abs result ≤ 2 ^ 124 }
{
    product(r, length(distance(low.x, high.x), distance(low.y, high.y)))
}

/// How far a segment leads, eastwards or westwards and upwards together.
fn length(dx: i64, dy: i64) -> i64
    requires across { unsigned_abs dx ≤ 2 ^ 52 }
    requires up { unsigned_abs dy ≤ 2 ^ 52 }
    ensures value { result ≡ pos (unsigned_abs dx) +ℤ dy }
    ensures bound { unsigned_abs result ≤ 2 ^ 53 }
{
    dx.abs() + dy
}

/// Whether a pen lies wholly left of the box of a segment.
fn is_west(low: Point, high: Point, p: Point2, r: i64) -> bool
    requires { IsRadius r }
    ensures { result ≡ not (int_le (int_min (doubled low).x (doubled high).x) (p.x +ℤ r)) }
{
    !begins_before(low.x, high.x, p.x, r)
}

/// Whether a pen doesn't lie wholly right of the box of a segment.
fn is_by(low: Point, high: Point, p: Point2, r: i64) -> bool
    requires { IsRadius r }
    ensures { result ≡ int_le (p.x -ℤ r) (int_max (doubled low).x (doubled high).x) }
{
    ends_behind(low.x, high.x, p.x, r)
}

/// Whether a pen lies before a segment, from its lower end up; `least` is the rise at its height less the
/// way of its corners.
pub fn is_before(low: Point, high: Point, p: Point2, r: i64, least: i128) -> bool
    requires radius { IsRadius r }
    requires least { least ≡ (pos 2 *ℤ high.x -ℤ pos 2 *ℤ low.x) *ℤ (p.y -ℤ pos 2 *ℤ low.y)
        -ℤ corner_way r (doubled low) (doubled high) }
    ensures { result ≡ is_before r p (doubled low) (doubled high) }
{
    is_west(low, high, p, r) || run_at(low, high, p) < least
}

/// Whether a pen is reached by a segment, from its lower end up; `most` is the rise at its height and the
/// way of its corners.
pub fn is_reached(low: Point, high: Point, p: Point2, r: i64, most: i128) -> bool
    requires radius { IsRadius r }
    requires most { most ≡ (pos 2 *ℤ high.x -ℤ pos 2 *ℤ low.x) *ℤ (p.y -ℤ pos 2 *ℤ low.y)
        +ℤ corner_way r (doubled low) (doubled high) }
    ensures { result ≡ is_reached r p (doubled low) (doubled high) }
{
    is_by(low, high, p, r) && run_at(low, high, p) <= most
}
