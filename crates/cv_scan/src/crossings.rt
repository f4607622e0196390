//! Where an edge crosses the height of a row.

ghost use Rattle.std.specs.Prelude.{◌≡◌, ℕ, ◌≤◌, ◌<◌, true, false, pos, negsuc, ◌^◌, ◌≤ℤ◌, ◌-ℤ◌, ◌*ℤ◌};
ghost use Rattle.std.specs.Prelude.{int_lt};
ghost use Rattle.cv_model.specs.declared.span.Span.{Span};
ghost use Rattle.cv_model.specs.Positions.{IsCoordinate, doubled};
ghost use Rattle.cv_model.specs.Polygons.{is_crossed, is_low};
ghost use Rattle.cv_model.specs.Views.{centre_of};
ghost use Rattle.cv_geom.specs.Falls.{FallsAt};
ghost use Rattle.cv_scan.specs.Marks.{IsBetween};

use cv_geom::{Multiples, centre, column_from, distance, distance_to, product, row_under, search};
use cv_model::{Point, Point2, Span, View};

/// The first of some rows whose centres lie below a point; the end of the rows if none does.
pub fn row_of(point: Point, view: &View, sides: &Multiples, rows: Span) -> u32
    requires sides { pos sides.now ≡ pos 2 *ℤ view.now.u }
    requires order { rows.from ≤ rows.end }
    requires within { rows.end ≤ view.now.h }
    ensures { FallsAt (λ j. is_low (centre_of view.now 0 j) (doubled point)) rows.from rows.end result }
{
    row_under(twice(point.y), view, sides)
        .max(rows.from)
        .min(rows.end)
}

/// The first of some columns whose centres don't lie left of a point; the end of the columns if all do.
pub fn column_of(point: Point, view: &View, sides: &Multiples, columns: Span) -> u32
    requires sides { pos sides.now ≡ pos 2 *ℤ view.now.u }
    requires order { columns.from ≤ columns.end }
    requires within { columns.end ≤ view.now.w }
    ensures { FallsAt (λ i. int_lt (centre_of view.now i 0).x (doubled point).x) columns.from columns.end
        result }
{
    column_from(twice(point.x), view, sides)
        .max(columns.from)
        .min(columns.end)
}

/// A coordinate in doubled millionths.
fn twice(z: i64) -> i64
    requires { IsCoordinate z }
    ensures value { result ≡ pos 2 *ℤ z }
    ensures low { negsuc (2 ^ 61) ≤ℤ result }
    ensures high { result ≤ℤ pos (2 ^ 61) }
{
    2 * z
}

/// The columns between those of two points, among some.
pub fn columns_between(a: Point, b: Point, view: &View, sides: &Multiples, columns: Span) -> Span
    requires sides { pos sides.now ≡ pos 2 *ℤ view.now.u }
    requires order { columns.from ≤ columns.end }
    requires within { columns.end ≤ view.now.w }
    ensures { IsBetween view.now a b columns result }
{
    let of_a = column_of(a, view, sides, columns);
    let of_b = column_of(b, view, sides, columns);
    Span {
        from: of_a.min(of_b),
        end: of_a.max(of_b),
    }
}

/// The first column whose centre in a row doesn't lie left of the crossing of the line from a point up to
/// another; the end of the columns if each does. The search is made between the columns of the two points.
pub fn column_of_crossing(low: Point, high: Point, view: &View, row: u32, between: Span) -> u32
    requires row { row < view.now.h }
    requires order { between.from ≤ between.end }
    requires within { between.end ≤ view.now.w }
    ensures { (columns : Span) → columns.end ≤ view.now.w → IsBetween view.now low high columns between
        → is_low (centre_of view.now 0 row) (doubled low) ≡ true
        → is_low (centre_of view.now 0 row) (doubled high) ≡ false
        → FallsAt (λ i. is_crossed (centre_of view.now i row) (low, high)) columns.from columns.end result }
{
    let _width = view.w;
    let height = height(low, high);
    let limit = limit(low, high, centre(view, 0, row));
    search(
        between.from,
        between.end,
        |i| lies_left(low, centre(view, i, row), height, limit),
    )
}

/// How far the line up from a point leads upwards.
fn height(low: Point, high: Point) -> i64
    ensures { result ≡ (doubled high).y -ℤ (doubled low).y }
{
    distance(low.y, high.y)
}

/// How far the line up from a point leads eastwards at the height of a position, times its height.
fn limit(low: Point, high: Point, p: Point2) -> i128
    ensures { result
        ≡ ((doubled high).x -ℤ (doubled low).x) *ℤ (p.y -ℤ (doubled low).y) }
{
    product(distance(low.x, high.x), distance_to(low.y, p.y))
}

/// Whether a position lies less far east of a point, times a height, than a limit.
fn lies_left(low: Point, p: Point2, height: i64, limit: i128) -> bool
    ensures { result ≡ int_lt ((p.x -ℤ (doubled low).x) *ℤ height) limit }
{
    product(distance_to(low.x, p.x), height) < limit
}
