//! Upright rectangles, each filled as one block of rows.

ghost use Rattle.std.specs.Prelude.{◌≡◌, ◌≤◌, ◌<◌, ◌==◌, ◌%◌, OnOk, IfSome, true, pos, ◌*ℤ◌, int_lt};
ghost use Rattle.std.specs.Prelude.{option_to_list};
ghost use Rattle.cv_model.specs.Positions.{Position, doubled};
ghost use Rattle.cv_model.specs.Polygons.{crossings, edges, is_inside};
ghost use Rattle.cv_model.specs.Views.{centre_of};
ghost use Rattle.cv_geom.specs.Runs.{Adds, IsArea};
ghost use Rattle.cv_geom.specs.Spans.{AreRuns};
ghost use Rattle.cv_scan.specs.Blocks.{differs, is_in_block, GoRound, IsLevelFirst, IsUprightFirst};
ghost use Rattle.cv_scan.specs.Marks.{CrossesRows};

use crate::crossings::{column_of, row_of};
use cv_geom::{Area, Multiples, Runs};
use cv_model::{NoMemory, Point, Polygon, Span, View};

/// Two opposite corners of a polygon that is an upright rectangle: one ring of four points and the first
/// again.
pub fn block_of(polygon: &Polygon) -> Option<(Point, Point)>
    ensures { IfSome result
        (λ corners. (p : Position) → is_inside p polygon.now ≡ is_in_block p corners.0 corners.1) }
{
    match polygon.as_slice() {
        [ring] => corners(ring.as_slice()),
        _ => None,
    }
}

/// Two opposite corners of a ring that is an upright rectangle.
fn corners(points: &[Point]) -> Option<(Point, Point)>
    ensures { IfSome result (λ corners. (p : Position)
        → (crossings p (edges points.now) % 2 == 1) ≡ is_in_block p corners.0 corners.1) }
{
    let [a, b, c, d, e] = points else {
        return None;
    };
    if go_round(*a, *b, *c, *d, *e) {
        Some((*a, *c))
    } else {
        None
    }
}

/// Whether five points go round an upright rectangle, the last at the first.
fn go_round(a: Point, b: Point, c: Point, d: Point, e: Point) -> bool
    ensures { result ≡ true → GoRound a b c d e }
{
    is_upright(e, a)
        && is_level(e, a)
        && (is_level_first(a, b, c, d, e) || is_upright_first(a, b, c, d, e))
}

/// Whether the sides between five points lead across and up in turn.
fn is_level_first(a: Point, b: Point, c: Point, d: Point, e: Point) -> bool
    ensures { result ≡ true → IsLevelFirst a b c d e }
{
    is_level(a, b) && is_upright(b, c) && is_level(c, d) && is_upright(d, e)
}

/// Whether the sides between five points lead up and across in turn.
fn is_upright_first(a: Point, b: Point, c: Point, d: Point, e: Point) -> bool
    ensures { result ≡ true → IsUprightFirst a b c d e }
{
    is_upright(a, b) && is_level(b, c) && is_upright(c, d) && is_level(d, e)
}

/// Whether two points stand at one height.
fn is_level(a: Point, b: Point) -> bool
    ensures { result ≡ true → a.y ≡ b.y }
{
    a.y == b.y
}

/// Whether one of two points stands above the other, or they are one.
fn is_upright(a: Point, b: Point) -> bool
    ensures { result ≡ true → a.x ≡ b.x }
{
    a.x == b.x
}

/// Puts the runs of an area inside the upright rectangle with two opposite corners behind the others.
pub fn put_block(
    a: Point,
    c: Point,
    view: &View,
    sides: &Multiples,
    area: Area,
    into: &mut Runs,
) -> Result<(), NoMemory>
    requires sides { pos sides.now ≡ pos 2 *ℤ view.now.u }
    requires area { IsArea view.now.w view.now.h area }
    ensures { OnOk result
        (Adds (λ i j. is_in_block (centre_of view.now i j) a c) area into.old into.new) }
{
    let run = run_of_block(a, c, view, sides, area.columns);
    let (row_a, row_c) = (
        row_of(a, view, sides, area.rows),
        row_of(c, view, sides, area.rows),
    );
    let rows = Span {
        from: row_a.min(row_c),
        end: row_a.max(row_c),
    };
    put_block_rows(a, c, view, area, rows, run, into)
}

/// The run of columns right of one of two corners alone, among some.
fn run_of_block(a: Point, c: Point, view: &View, sides: &Multiples, columns: Span) -> Option<Span>
    requires sides { pos sides.now ≡ pos 2 *ℤ view.now.u }
    requires order { columns.from ≤ columns.end }
    requires within { columns.end ≤ view.now.w }
    ensures { AreRuns
        (λ i. differs (int_lt (centre_of view.now i 0).x (doubled a).x)
        (int_lt (centre_of view.now i 0).x (doubled c).x))
        columns.from columns.end (option_to_list result) }
{
    let of_a = column_of(a, view, sides, columns);
    let of_c = column_of(c, view, sides, columns);
    if of_a < of_c {
        Some(Span {
            from: of_a,
            end: of_c,
        })
    } else if of_c < of_a {
        Some(Span {
            from: of_c,
            end: of_a,
        })
    } else {
        None
    }
}

/// Puts a run of columns in some rows behind the others: those at whose heights one of two corners is low.
fn put_block_rows(
    a: Point,
    c: Point,
    view: &View,
    area: Area,
    rows: Span,
    run: Option<Span>,
    into: &mut Runs,
) -> Result<(), NoMemory>
    requires crossed { CrossesRows view.now a c area rows }
    requires run { AreRuns
        (λ i. differs (int_lt (centre_of view.now i 0).x (doubled a).x)
        (int_lt (centre_of view.now i 0).x (doubled c).x))
        area.columns.from area.columns.end (option_to_list run) }
    ensures { OnOk result
        (Adds (λ i j. is_in_block (centre_of view.now i j) a c) area into.old into.new) }
{
    for row in rows.from..rows.end {
        into.put_span(row, run)?;
    }
    Ok(())
}
