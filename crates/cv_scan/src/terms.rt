//! Where an edge of several rows crosses their heights: the first crossing from the column of its upper end,
//! each other one from the one above it, without a search.

ghost use Rattle.std.specs.Prelude.{◌≡◌, ℕ, ◌≤◌, ◌<◌, ◌+◌, ◌^◌, IfSome, true, false, pos, negsuc, neg_ℤ};
ghost use Rattle.std.specs.Prelude.{◌≤ℤ◌, ◌+ℤ◌, ◌-ℤ◌, ◌*ℤ◌, unsigned_abs};
ghost use Rattle.cv_model.specs.Positions.{Position, doubled};
ghost use Rattle.cv_model.specs.Polygons.{is_crossed, is_low};
ghost use Rattle.cv_model.specs.Views.{PixelGrid, centre_of};
ghost use Rattle.cv_geom.specs.Falls.{FallsAt};
ghost use Rattle.cv_scan.specs.Terms.{IsNearest, IsPlace, IsSlope};

use crate::crossings::column_of;
use cv_geom::{Multiples, centre, distance, distance_to, product};
use cv_model::{Point, Point2, Span, View};

/// Where a line crosses the height of a row: `column` is the first one whose centre doesn't lie left of it,
/// in the view or outside, and `over` how far east of the line that lies, times the line's way up.
#[derive(Clone, Copy, Debug, PartialEq, Eq)]
pub struct Place {
    pub column: i64,
    pub over: i128,
}

/// How far a line leads eastwards from the height of a row to that of the row below: so many columns, less a
/// part of one, which `whole` is.
#[derive(Clone, Copy, Debug, PartialEq, Eq)]
pub struct Slope {
    pub columns: i64,
    pub part: i128,
    pub whole: i128,
}

/// The slope of the line from a point up to another, if it crosses the heights of more than one row: for one
/// a search alone is faster.
pub fn long_slope(low: Point, high: Point, view: &View, rows: Span) -> Option<Slope>
    requires { rows.from ≤ rows.end }
    ensures { IfSome result (λ slope. IsSlope view.now (doubled low) (doubled high) slope) }
{
    if rows.end - rows.from <= 1 {
        None
    } else {
        slope_of(low, high, view)
    }
}

/// The slope of the line from a point up to another; none where it doesn't lead up, or is too flat to be
/// counted in columns.
fn slope_of(low: Point, high: Point, view: &View) -> Option<Slope>
    ensures { IfSome result (λ slope. IsSlope view.now (doubled low) (doubled high) slope) }
{
    let side = side(view);
    let (dx, dy) = (across(low, high), up(low, high));
    let columns = quotient(dx, dy)?;
    let shift = times(columns, side)?;
    let part = part_of(dx, side, shift, dy);
    let whole = product(side, dy);
    if 0 <= part && part < whole {
        Some(Slope {
            columns,
            part,
            whole,
        })
    } else {
        None
    }
}

/// How far a line leads eastwards.
fn across(low: Point, high: Point) -> i64
    ensures value { result ≡ (doubled high).x -ℤ (doubled low).x }
    ensures bound { unsigned_abs result ≤ 2 ^ 52 }
{
    distance(low.x, high.x)
}

/// How far a line leads upwards.
fn up(low: Point, high: Point) -> i64
    ensures value { result ≡ (doubled high).y -ℤ (doubled low).y }
    ensures bound { unsigned_abs result ≤ 2 ^ 52 }
{
    distance(low.y, high.y)
}

/// The side of a pixel, in doubled millionths.
fn side(view: &View) -> i64
    ensures value { result ≡ pos 2 *ℤ view.now.u }
    ensures bound { unsigned_abs result ≤ 2 ^ 53 }
{
    2 * view.u
}

/// The columns that a line leads westwards while it leads down by one; none where it doesn't lead up, or by
/// more columns than any view has. Whoever calls it sees by what is over that it is right.
fn quotient(dx: i64, dy: i64) -> Option<i64>
    requires { unsigned_abs dx ≤ 2 ^ 52 }
    ensures { IfSome result (λ n. unsigned_abs n ≤ 2 ^ 29) }
{
    if dy <= 0 {
        return None;
    }
    let columns = (-dx).div_euclid(dy);
    if columns.unsigned_abs() <= 1 << 29 {
        Some(columns)
    } else {
        None
    }
}

/// What a way eastwards and a shift are over, times the way up.
fn part_of(dx: i64, side: i64, shift: i64, dy: i64) -> i128
    requires across { unsigned_abs dx ≤ 2 ^ 52 }
    requires up { unsigned_abs dy ≤ 2 ^ 52 }
    requires side { unsigned_abs side ≤ 2 ^ 53 }
    ensures { result ≡ neg_ℤ (dx *ℤ side) -ℤ shift *ℤ dy }
{
    -product(dx, side) - product(shift, dy)
}

/// The first of some columns whose centre in a row doesn't lie left of the line from a point up to another,
/// by the place of its crossing.
pub fn column_of_place(
    place: Place,
    low: Point,
    high: Point,
    view: &View,
    row: u32,
    columns: Span,
) -> u32
    requires row { row < view.now.h }
    requires order { columns.from ≤ columns.end }
    requires low { is_low (centre_of view.now 0 row) (doubled low) ≡ true }
    requires high { is_low (centre_of view.now 0 row) (doubled high) ≡ false }
    requires place { IsPlace view.now (doubled low) (doubled high) row place }
    ensures { FallsAt (λ i. is_crossed (centre_of view.now i row) (low, high))
        columns.from columns.end result }
{
    let _unit = view.u;
    nearest(place.column, columns)
}

/// The column among some that is nearest to a number; it may be the end of them.
fn nearest(column: i64, columns: Span) -> u32
    requires { columns.from ≤ columns.end }
    ensures { IsNearest columns column result }
{
    if column < i64::from(columns.from) {
        columns.from
    } else if column < i64::from(columns.end) {
        column as u32
    } else {
        columns.end
    }
}

/// The slope of a line, and the place of its crossing with the height of a row, if they are known, from the
/// column of its upper end.
pub fn first_place(
    slope: &Option<Slope>,
    low: Point,
    high: Point,
    view: &View,
    sides: &Multiples,
    row: u32,
) -> Option<(Slope, Place)>
    requires sides { pos sides.now ≡ pos 2 *ℤ view.now.u }
    requires row { row < view.now.h }
    requires slope { IfSome slope.now (λ slope. IsSlope view.now (doubled low) (doubled high) slope) }
    ensures slope { IfSome result (λ first. IsSlope view.now (doubled low) (doubled high) first.0) }
    ensures place { IfSome result (λ first. IsPlace view.now (doubled low) (doubled high) row first.1) }
    ensures near { IfSome result (λ first. unsigned_abs first.1.column ≤ 2 ^ 34) }
{
    let Some(slope) = slope else {
        return None;
    };
    let columns = Span {
        from: 0,
        end: view.w - 1,
    };
    let column = column_of(high, view, sides, columns);
    let place = place_of(slope, low, high, view, row, column)?;
    Some((*slope, place))
}

/// The slope of a line, and the place of its crossing with the height of the row below, if they are known,
/// from the column that was found in a row.
pub fn following(
    slope: &Option<Slope>,
    low: Point,
    high: Point,
    view: &View,
    row: u32,
    column: u32,
) -> Option<(Slope, Place)>
    requires row { row < view.now.h }
    requires slope { IfSome slope.now (λ slope. IsSlope view.now (doubled low) (doubled high) slope) }
    ensures slope { IfSome result (λ next. IsSlope view.now (doubled low) (doubled high) next.0) }
    ensures place { IfSome result (λ next. IsPlace view.now (doubled low) (doubled high) (row + 1) next.1) }
    ensures near { IfSome result (λ next. unsigned_abs next.1.column ≤ 2 ^ 34) }
{
    let _unit = view.u;
    let Some(slope) = slope else {
        return None;
    };
    let here = place_of(slope, low, high, view, row, column)?;
    Some((*slope, below(here, slope)))
}

/// The place of the crossing with the height of a row, from a column near it. A guess of how far it lies from
/// that column is tried; where it is wrong, none is found.
fn place_of(
    slope: &Slope,
    low: Point,
    high: Point,
    view: &View,
    row: u32,
    column: u32,
) -> Option<Place>
    requires row { row < view.now.h }
    requires slope { IsSlope view.now (doubled low) (doubled high) slope.now }
    ensures place { IfSome result (λ place. IsPlace view.now (doubled low) (doubled high) row place) }
    ensures near { IfSome result (λ place. unsigned_abs place.column ≤ 2 ^ 33) }
{
    if view.w <= column {
        return None;
    }
    let way = way_east(low, high, centre(view, column, row));
    let (columns, over) = divided(way, slope.whole);
    if 0 <= over && over < slope.whole {
        Some(Place {
            column: i64::from(column) - columns,
            over,
        })
    } else {
        None
    }
}

/// A quotient and what is left of a number then. Nothing is known of the quotient but that it is short:
/// whoever calls it sees by what is left whether it is right.
fn divided(number: i128, by: i128) -> (i64, i128)
    requires { unsigned_abs number ≤ 2 ^ 125 }
    ensures left { result.1 ≡ number -ℤ result.0 *ℤ by }
    ensures short { unsigned_abs result.0 ≤ 2 ^ 32 }
{
    match (i64::try_from(number), i64::try_from(by)) {
        (Ok(short), Ok(by)) => {
            let quotient = quotient_near(short, by);
            (quotient, number - product(quotient, by))
        }
        _ => (0, number),
    }
}

/// About how often the second of two numbers goes into the first, by a division of their first 32 bits.
fn quotient_near(number: i64, by: i64) -> i64
    ensures { unsigned_abs result ≤ 2 ^ 32 }
{
    let (size, by) = (number.unsigned_abs(), by.unsigned_abs());
    let shift = 32u32.saturating_sub((size | by).leading_zeros());
    let Some(quotient) = first_bits(size, shift).checked_div(first_bits(by, shift)) else {
        return 0;
    };
    if number < 0 {
        -1 - i64::from(quotient)
    } else {
        i64::from(quotient)
    }
}

/// A number without its last bits, in 32 bits.
fn first_bits(number: u64, shift: u32) -> u32
    requires { shift ≤ 32 }
{
    ((number >> shift) & 0xffff_ffff) as u32
}

/// How far a position lies east of the line from a point up to another, times the line's way up.
fn way_east(low: Point, high: Point, p: Point2) -> i128
    ensures value { result
        ≡ (p.x -ℤ (doubled low).x) *ℤ ((doubled high).y -ℤ (doubled low).y)
        -ℤ ((doubled high).x -ℤ (doubled low).x) *ℤ (p.y -ℤ (doubled low).y) }
    ensures bound { unsigned_abs result ≤ 2 ^ 125 }
{
    run_at(low, high, p) - rise_at(low, high, p)
}

/// How far a position lies east of a point, times the way up to another.
fn run_at(low: Point, high: Point, p: Point2) -> i128
    ensures value { result ≡ (p.x -ℤ (doubled low).x) *ℤ ((doubled high).y -ℤ (doubled low).y) }
    ensures bound { unsigned_abs result ≤ 2 ^ 124 }
{
    product(distance_to(low.x, p.x), distance(low.y, high.y))
}

/// How far a position lies above a point, times the way eastwards to another.
fn rise_at(low: Point, high: Point, p: Point2) -> i128
    ensures value { result ≡ ((doubled high).x -ℤ (doubled low).x) *ℤ (p.y -ℤ (doubled low).y) }
    ensures bound { unsigned_abs result ≤ 2 ^ 124 }
{
    product(distance(low.x, high.x), distance_to(low.y, p.y))
}

/// The place in the row below.
pub fn below(place: Place, slope: &Slope) -> Place
    requires over { pos 0 ≤ℤ place.over }
    requires part { pos 0 ≤ℤ slope.now.part }
    requires whole { pos 0 ≤ℤ slope.now.whole }
    requires near { unsigned_abs place.column ≤ 2 ^ 62 + 2 ^ 34 }
    requires few { unsigned_abs slope.now.columns ≤ 2 ^ 29 }
    ensures near { unsigned_abs result.column ≤ unsigned_abs place.column + 2 ^ 30 }
    ensures place { (v : PixelGrid) (a b : Position) (row : ℕ) → pos 1 ≤ℤ v.u → IsSlope v a b slope.now
        → IsPlace v a b row place → IsPlace v a b (row + 1) result }
{
    let column = place.column + slope.columns;
    let over = place.over - slope.part;
    if over < 0 {
        Place {
            column: column + 1,
            over: over + slope.whole,
        }
    } else {
        Place { column, over }
    }
}

/// The product of two numbers, if it is one of 64 bits.
fn times(a: i64, b: i64) -> Option<i64>
    ensures { IfSome result (λ n. n ≡ a *ℤ b) }
{
    a.checked_mul(b)
}
