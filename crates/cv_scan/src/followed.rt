//! The marks of an edge that follow one another from row to row.

ghost use Rattle.std.specs.Prelude.{◌≡◌, ◌+◌, ◌-◌, ◌*◌, ◌≤◌, ◌^◌, OnOk, unsigned_abs};
ghost use Rattle.cv_model.specs.declared.span.Span.{Span};
ghost use Rattle.cv_model.specs.Positions.{doubled};
ghost use Rattle.cv_geom.specs.Runs.{IsArea};
ghost use Rattle.cv_scan.specs.Held.{IsHeld, MarksOn, PairsMarked};
ghost use Rattle.cv_scan.specs.Marks.{RisesThrough};
ghost use Rattle.cv_scan.specs.Terms.{IsPlace, IsSlope};

use crate::held::put_mark;
use crate::marks::Mark;
use crate::narrow::{narrowed, next_below, wide};
use crate::pairs::{Pair, put_in_row};
use crate::scratch::Scratch;
use crate::terms::{Place, Slope, below, column_of_place};
use cv_geom::{Area, Steps};
use cv_model::{NoMemory, Point, Span, View};
use std::sync::ledger::Ledger;

/// The first row in which a mark is still to be put, and the place of the crossing there.
#[derive(Clone, Copy, Debug, PartialEq, Eq)]
struct Ahead {
    row: u32,
    place: Place,
}

/// Puts the marks of an edge from its lower end up in some rows, where that of the first is known and each
/// other one follows from the one above it: with those of their rows, and from the first row on that has no
/// place for one more, one by one.
pub fn put_followed<L: Ledger>(
    scratch: &mut Scratch,
    low: Point,
    high: Point,
    view: &View,
    area: Area,
    rows: Span,
    first: Place,
    slope: &Slope,
    steps: &mut Steps<L>,
) -> Result<(), NoMemory>
    requires area { IsArea view.now.w view.now.h area }
    requires held { IsHeld area scratch.old }
    requires rows { RisesThrough view.now low high area rows }
    requires slope { IsSlope view.now (doubled low) (doubled high) slope.now }
    requires place { IsPlace view.now (doubled low) (doubled high) rows.from first }
    requires near { unsigned_abs first.column ≤ 2 ^ 34 }
    ensures marked { OnOk result (MarksOn view.now low high area rows scratch.old scratch.new) }
    ensures cost { steps.new ≤ steps.old + (rows.end - rows.from) }
{
    let top = scratch.first;
    let ahead = put_in_rows(
        &mut scratch.pairs,
        top,
        low,
        high,
        view,
        area,
        rows,
        first,
        slope,
        steps,
    );
    let rest = Span {
        from: ahead.row,
        end: rows.end,
    };
    put_each(
        scratch,
        low,
        high,
        view,
        area,
        rest,
        ahead.place,
        slope,
        steps,
    )?;
    Ok(())
}

/// Puts the marks of an edge in some rows with those of their rows, of which pairs are given from row `top`
/// on, up to the first row that has no place for one more; none where a row has no pair, or a number doesn't
/// fit in 64 bits.
fn put_in_rows<L: Ledger>(
    pairs: &mut [Pair],
    top: u32,
    low: Point,
    high: Point,
    view: &View,
    area: Area,
    rows: Span,
    first: Place,
    slope: &Slope,
    steps: &mut Steps<L>,
) -> Ahead
    requires area { IsArea view.now.w view.now.h area }
    requires rows { RisesThrough view.now low high area rows }
    requires slope { IsSlope view.now (doubled low) (doubled high) slope.now }
    requires place { IsPlace view.now (doubled low) (doubled high) rows.from first }
    requires near { unsigned_abs first.column ≤ 2 ^ 34 }
    ensures north { rows.from ≤ result.row }
    ensures south { result.row ≤ rows.end }
    ensures marked { PairsMarked view.now low high area top
        (record { from = rows.from; end = result.row }) pairs.old pairs.new }
    ensures place { IsPlace view.now (doubled low) (doubled high) result.row result.place }
    ensures near { unsigned_abs result.place.column ≤ 2 ^ 34 + (result.row - rows.from) * 2 ^ 30 }
    ensures cost { steps.new ≤ steps.old + (result.row - rows.from) }
{
    let _unit = view.u;
    let none = Ahead {
        row: rows.from,
        place: first,
    };
    if rows.from < top || pairs.len() < (rows.end - top) as usize {
        return none;
    }
    let Some((mut place, slope)) = narrowed(first, slope) else {
        return none;
    };
    for row in rows.from..rows.end {
        let column = column_of_place(wide(place), low, high, view, row, area.columns);
        if !put_in_row(pairs, top, Mark { row, column }) {
            return Ahead {
                row,
                place: wide(place),
            };
        }
        steps.tick();
        place = next_below(place, &slope);
    }
    Ahead {
        row: rows.end,
        place: wide(place),
    }
}

/// Puts the marks of an edge in some rows with the others, one by one.
fn put_each<L: Ledger>(
    scratch: &mut Scratch,
    low: Point,
    high: Point,
    view: &View,
    area: Area,
    rows: Span,
    first: Place,
    slope: &Slope,
    steps: &mut Steps<L>,
) -> Result<(), NoMemory>
    requires area { IsArea view.now.w view.now.h area }
    requires held { IsHeld area scratch.old }
    requires rows { RisesThrough view.now low high area rows }
    requires slope { IsSlope view.now (doubled low) (doubled high) slope.now }
    requires place { IsPlace view.now (doubled low) (doubled high) rows.from first }
    requires near { unsigned_abs first.column ≤ 2 ^ 34 + rows.from * 2 ^ 30 }
    ensures marked { OnOk result (MarksOn view.now low high area rows scratch.old scratch.new) }
    ensures cost { steps.new ≤ steps.old + (rows.end - rows.from) }
{
    let _unit = view.u;
    let mut place = first;
    for row in rows.from..rows.end {
        steps.tick();
        let column = column_of_place(place, low, high, view, row, area.columns);
        put_mark(scratch, &area, Mark { row, column })?;
        place = below(place, slope);
    }
    Ok(())
}
