//! Marks of crossings, each edge read once.

ghost use Rattle.std.specs.Prelude.{◌≡◌, ◌+◌, ◌*◌, ◌≤◌, ◌<◌, ℕ, ◌++◌, ◌==◌, ◌%◌, OnOk, IfSome, length, All};
ghost use Rattle.std.specs.Prelude.{if◌then◌else◌, None, pos, ◌*ℤ◌, ◌≤ℤ◌, int_le};
ghost use Rattle.std.specs.List.{flat_map};
ghost use Rattle.cv_model.specs.Positions.{doubled};
ghost use Rattle.cv_model.specs.Polygons.{edges, crossings, is_crossed};
ghost use Rattle.cv_model.specs.Views.{centre_of};
ghost use Rattle.cv_geom.specs.Runs.{Adds, IsArea, rows_of};
ghost use Rattle.cv_scan.specs.Held.{AddsMarks, IsHeld};
ghost use Rattle.cv_scan.specs.Marks.{CrossesRows, IsBetween, MarkIn, marks_right};
ghost use Rattle.cv_scan.specs.Marks.{run_between, runs_from};
ghost use Rattle.cv_scan.specs.Terms.{IsSlope};

use crate::crossings::{column_of_crossing, columns_between, row_of};
use crate::followed::put_followed;
use crate::held::put_mark;
use crate::orders::bring_down;
use crate::scratch::Scratch;
use crate::terms::{Slope, first_place, following, long_slope};
use cv_geom::{Area, Multiples, Run, Runs, Steps};
use cv_model::{NoMemory, Point, Polygon, Span, View};
use std::sync::ledger::Ledger;

/// How far a crossing with the height of a row reaches: the columns before `column` lie left of it.
#[derive(Clone, Copy, Debug, PartialEq, Eq)]
pub struct Mark {
    pub row: u32,
    pub column: u32,
}

/// Puts the marks of a polygon's edges in an area with the others.
pub fn put_marks<L: Ledger>(
    scratch: &mut Scratch,
    polygon: &Polygon,
    view: &View,
    sides: &Multiples,
    area: Area,
    steps: &mut Steps<L>,
) -> Result<(), NoMemory>
    requires sides { pos sides.now ≡ pos 2 *ℤ view.now.u }
    requires area { IsArea view.now.w view.now.h area }
    requires held { IsHeld area scratch.old }
    ensures marked { OnOk result (AddsMarks
        (λ i j. crossings (centre_of view.now i j) (flat_map edges polygon.now)) area
        scratch.old scratch.new) }
    ensures cost { steps.new ≤ steps.old + length (flat_map edges polygon.now) * rows_of area }
{
    for ring in polygon.as_slice() {
        put_ring(scratch, ring.as_slice(), view, sides, area, steps)?;
    }
    Ok(())
}

/// Puts the marks of a ring's edges in an area with the others.
fn put_ring<L: Ledger>(
    scratch: &mut Scratch,
    points: &[Point],
    view: &View,
    sides: &Multiples,
    area: Area,
    steps: &mut Steps<L>,
) -> Result<(), NoMemory>
    requires sides { pos sides.now ≡ pos 2 *ℤ view.now.u }
    requires area { IsArea view.now.w view.now.h area }
    requires held { IsHeld area scratch.old }
    ensures marked { OnOk result (AddsMarks
        (λ i j. crossings (centre_of view.now i j) (edges points.now)) area
        scratch.old scratch.new) }
    ensures cost { steps.new ≤ steps.old + length (edges points.now) * rows_of area }
{
    let Some(last) = points.last() else {
        return Ok(());
    };
    let mut before = *last;
    let mut row_before = row_of(before, view, sides, area.rows);
    for point in points {
        let row = row_of(*point, view, sides, area.rows);
        let rows = Span {
            from: row.min(row_before),
            end: row.max(row_before),
        };
        put_edge(scratch, before, *point, view, sides, area, rows, steps)?;
        before = *point;
        row_before = row;
    }
    Ok(())
}

/// Puts the marks of an edge that crosses the heights of some rows and of no others of an area with the
/// others.
fn put_edge<L: Ledger>(
    scratch: &mut Scratch,
    a: Point,
    b: Point,
    view: &View,
    sides: &Multiples,
    area: Area,
    rows: Span,
    steps: &mut Steps<L>,
) -> Result<(), NoMemory>
    requires sides { pos sides.now ≡ pos 2 *ℤ view.now.u }
    requires area { IsArea view.now.w view.now.h area }
    requires held { IsHeld area scratch.old }
    requires crossed { CrossesRows view.now a b area rows }
    ensures marked { OnOk result (AddsMarks
        (λ i j. if is_crossed (centre_of view.now i j) (a, b) then 1 else 0) area
        scratch.old scratch.new) }
    ensures cost { steps.new ≤ steps.old + rows_of area }
{
    // Few edges get further.
    if rows.from == rows.end {
        return Ok(());
    }
    if is_upwards(a, b) {
        put_up(scratch, a, b, view, sides, area, rows, steps)
    } else {
        put_up(scratch, b, a, view, sides, area, rows, steps)
    }
}

/// Whether a point stands at a height of at most that of another.
fn is_upwards(a: Point, b: Point) -> bool
    ensures { result ≡ int_le a.y b.y }
{
    a.y <= b.y
}

/// Puts the marks of an edge from its lower end up, as `put_edge`. Where its slope is known, that of the
/// first row is mostly found from the column of its upper end, and the others follow it.
fn put_up<L: Ledger>(
    scratch: &mut Scratch,
    low: Point,
    high: Point,
    view: &View,
    sides: &Multiples,
    area: Area,
    rows: Span,
    steps: &mut Steps<L>,
) -> Result<(), NoMemory>
    requires rises { low.y ≤ℤ high.y }
    requires sides { pos sides.now ≡ pos 2 *ℤ view.now.u }
    requires area { IsArea view.now.w view.now.h area }
    requires held { IsHeld area scratch.old }
    requires some { rows.from < rows.end }
    requires crossed { CrossesRows view.now low high area rows }
    ensures marked { OnOk result (AddsMarks
        (λ i j. if is_crossed (centre_of view.now i j) (low, high) then 1 else 0) area
        scratch.old scratch.new) }
    ensures cost { steps.new ≤ steps.old + rows_of area }
{
    let slope = long_slope(low, high, view, rows);
    if let Some((slope, place)) = first_place(&slope, low, high, view, sides, rows.from) {
        put_followed(scratch, low, high, view, area, rows, place, &slope, steps)?;
        return Ok(());
    }
    let between = columns_between(low, high, view, sides, area.columns);
    put_rows(scratch, low, high, view, area, rows, between, slope, steps)
}

/// Puts the marks of an edge from its lower end up, whose crossings lie between some columns, as `put_edge`.
/// They are searched; where its slope is given, until one is found in the area, and the others follow it.
fn put_rows<L: Ledger>(
    scratch: &mut Scratch,
    low: Point,
    high: Point,
    view: &View,
    area: Area,
    rows: Span,
    between: Span,
    slope: Option<Slope>,
    steps: &mut Steps<L>,
) -> Result<(), NoMemory>
    requires rises { low.y ≤ℤ high.y }
    requires area { IsArea view.now.w view.now.h area }
    requires held { IsHeld area scratch.old }
    requires crossed { CrossesRows view.now low high area rows }
    requires between { IsBetween view.now low high area.columns between }
    requires slope { IfSome slope (λ slope. IsSlope view.now (doubled low) (doubled high) slope) }
    ensures marked { OnOk result (AddsMarks
        (λ i j. if is_crossed (centre_of view.now i j) (low, high) then 1 else 0) area
        scratch.old scratch.new) }
    ensures cost { steps.new ≤ steps.old + rows_of area }
{
    for row in rows.from..rows.end {
        steps.tick();
        let column = column_of_crossing(low, high, view, row, between);
        put_mark(scratch, &area, Mark { row, column })?;
        if let Some((slope, place)) = following(&slope, low, high, view, row, column) {
            let rest = Span {
                from: row + 1,
                end: rows.end,
            };
            put_followed(scratch, low, high, view, area, rest, place, &slope, steps)?;
            return Ok(());
        }
    }
    Ok(())
}

/// Puts the runs that lie left of an odd number of marks behind others, by bringing them into order.
pub fn put_sorted_runs(marks: &mut Vec<Mark>, area: Area, into: &mut Runs) -> Result<(), NoMemory>
    requires { All (MarkIn area) marks.old.items }
    ensures { OnOk result
        (Adds (λ i j. marks_right i j marks.old.items % 2 == 1) area into.old into.new) }
{
    bring_down(marks);
    put_pairs(marks, area.columns.from, into)?;
    Ok(())
}

/// Puts the runs between descending marks behind others.
pub fn put_pairs(marks: &[Mark], from: u32, into: &mut Runs) -> Result<(), NoMemory>
    ensures { OnOk result (into.new ≡ into.old ++ runs_from from None marks.now) }
{
    let mut last: Option<Mark> = None;
    for mark in marks {
        match last {
            Some(end) if end.row == mark.row => {
                put_run(end.row, mark.column, end.column, into)?;
                last = None;
            }
            Some(end) => {
                put_run(end.row, from, end.column, into)?;
                last = Some(*mark);
            }
            None => last = Some(*mark),
        }
    }
    match last {
        Some(end) => put_run(end.row, from, end.column, into),
        None => Ok(()),
    }
}

/// Puts a run behind others, unless it is empty.
pub fn put_run(row: u32, from: u32, end: u32, into: &mut Runs) -> Result<(), NoMemory>
    ensures { OnOk result (into.new ≡ into.old ++ run_between row from end) }
{
    if from < end {
        into.put(Run { row, from, end })?;
    }
    Ok(())
}
