//! The spans of a row inside a polygon.

ghost use Rattle.std.specs.Prelude.{◌≡◌, ◌+◌, ◌≤◌, ◌<◌, ℕ, ◌++◌, [], OnOk, OnErr, IfOk, length, min, pos};
ghost use Rattle.std.specs.Prelude.{◌*ℤ◌};
ghost use Rattle.std.specs.List.{All, flat_map};
ghost use Rattle.cv_model.specs.Polygons.{edges, is_inside};
ghost use Rattle.cv_model.specs.Views.{centre_of};
ghost use Rattle.cv_geom.specs.Spans.{AreRuns};
ghost use Rattle.cv_scan.specs.Reaches.{edge_reach};
ghost use Rattle.cv_scan.specs.Runs.{above, reaches_in, beyond, Rises, IsPaired, LiesWithin, padded};

use crate::reaches::reach_in;
use crate::runs::{joined, put};
use cv_geom::{Multiples, Steps, doubled_sides};
use cv_model::{NoMemory, Point, Polygon, Span, Spans, View};
use std::alloc::Global;
use std::marker::Brand;
use std::sync::ledger::{Blank, Ledger};

/// Puts the spans of a row inside a polygon into a list in place of what it held: the maximal runs of
/// columns from `from` up to and without `to` whose centres are inside, in ascending order.
///
/// A step is an edge visited. Where memory wants, the list is empty.
pub fn spans_in<L: Ledger>(
    alloc: Global,
    polygon: &Polygon,
    view: &View,
    row: u32,
    from: u32,
    to: u32,
    into: &mut Spans,
    steps: &mut Steps<L>,
) -> Result<(), NoMemory>
    requires row { row < view.now.h }
    requires order { from ≤ to }
    requires within { to ≤ view.now.w }
    ensures runs { OnOk result
        (AreRuns (λ i. is_inside (centre_of view.now i row) polygon.now) from to into.new) }
    ensures err { OnErr result (into.new ≡ []) }
    ensures cost { steps.new ≤ steps.old + length (flat_map edges polygon.now) }
{
    *into = Spans::new(alloc);
    *into = spans_between(alloc, polygon, view, row, Span { from, end: to }, steps)?;
    Ok(())
}

/// Puts the spans of a row inside a polygon into a list in place of what it held: the maximal runs of
/// columns whose centres are inside, in ascending order. Where memory wants, the list is empty.
pub fn spans(
    alloc: Global,
    polygon: &Polygon,
    view: &View,
    row: u32,
    into: &mut Spans,
) -> Result<(), NoMemory>
    requires { row < view.now.h }
    ensures runs { OnOk result
        (AreRuns (λ i. is_inside (centre_of view.now i row) polygon.now) 0 view.now.w into.new) }
    ensures err { OnErr result (into.new ≡ []) }
{
    all_spans::<Brand>(alloc, polygon, view, row, into, Blank::new(1))
}

/// The spans over all columns, with a count that nobody reads.
fn all_spans<L: Ledger>(
    alloc: Global,
    polygon: &Polygon,
    view: &View,
    row: u32,
    into: &mut Spans,
    blank: Blank,
) -> Result<(), NoMemory>
    requires row { row < view.now.h }
    requires name { blank.name ≡ L.name }
    requires parts { blank.parts ≡ L.parts }
    requires some { 0 < L.parts }
    ensures runs { OnOk result
        (AreRuns (λ i. is_inside (centre_of view.now i row) polygon.now) 0 view.now.w into.new) }
    ensures err { OnErr result (into.new ≡ []) }
{
    let mut steps = Steps::<L>::of(blank);
    spans_in(alloc, polygon, view, row, 0, view.w, into, &mut steps)
}

/// The spans of a row inside a polygon, within some columns.
fn spans_between<L: Ledger>(
    alloc: Global,
    polygon: &Polygon,
    view: &View,
    row: u32,
    columns: Span,
    steps: &mut Steps<L>,
) -> Result<Spans, NoMemory>
    requires row { row < view.now.h }
    requires order { columns.from ≤ columns.end }
    requires within { columns.end ≤ view.now.w }
    ensures runs { IfOk result
        (AreRuns (λ i. is_inside (centre_of view.now i row) polygon.now) columns.from columns.end) }
    ensures cost { steps.new ≤ steps.old + length (flat_map edges polygon.now) }
{
    let _unit = view.u;
    let sides = doubled_sides(view);
    let mut reaches = Vec::new(alloc);
    put_polygon(&mut reaches, polygon, view, &sides, row, columns, steps)?;
    order(&mut reaches, columns)?;
    let spans = joined(alloc, columns.from, &reaches)?;
    Ok(spans)
}

/// Puts the reaches of a polygon's edges behind the others.
fn put_polygon<L: Ledger>(
    reaches: &mut Vec<u32>,
    polygon: &Polygon,
    view: &View,
    sides: &Multiples,
    row: u32,
    columns: Span,
    steps: &mut Steps<L>,
) -> Result<(), NoMemory>
    requires sides { pos sides.now ≡ pos 2 *ℤ view.now.u }
    requires row { row < view.now.h }
    requires order { columns.from ≤ columns.end }
    requires within { columns.end ≤ view.now.w }
    ensures reaches { OnOk result (reaches.new.items ≡ reaches.old.items
        ++ reaches_in view.now row columns.from columns.end (flat_map edges polygon.now)) }
    ensures cost { steps.new ≤ steps.old + length (flat_map edges polygon.now) }
{
    for ring in polygon.as_slice() {
        put_ring(reaches, ring.as_slice(), view, sides, row, columns, steps)?;
    }
    Ok(())
}

/// Puts the reaches of a ring's edges behind the others.
fn put_ring<L: Ledger>(
    reaches: &mut Vec<u32>,
    points: &[Point],
    view: &View,
    sides: &Multiples,
    row: u32,
    columns: Span,
    steps: &mut Steps<L>,
) -> Result<(), NoMemory>
    requires sides { pos sides.now ≡ pos 2 *ℤ view.now.u }
    requires row { row < view.now.h }
    requires order { columns.from ≤ columns.end }
    requires within { columns.end ≤ view.now.w }
    ensures reaches { OnOk result (reaches.new.items
        ≡ reaches.old.items ++ reaches_in view.now row columns.from columns.end (edges points.now)) }
    ensures cost { steps.new ≤ steps.old + length (edges points.now) }
{
    let Some(last) = points.last() else {
        return Ok(());
    };
    let mut before = *last;
    for point in points {
        steps.tick();
        put_edge(reaches, before, *point, view, sides, row, columns)?;
        before = *point;
    }
    Ok(())
}

/// Puts the reach of an edge behind the others, if it goes beyond the first column.
fn put_edge(
    reaches: &mut Vec<u32>,
    a: Point,
    b: Point,
    view: &View,
    sides: &Multiples,
    row: u32,
    columns: Span,
) -> Result<(), NoMemory>
    requires sides { pos sides.now ≡ pos 2 *ℤ view.now.u }
    requires row { row < view.now.h }
    requires order { columns.from ≤ columns.end }
    requires within { columns.end ≤ view.now.w }
    ensures { OnOk result (reaches.new.items ≡ reaches.old.items
        ++ above columns.from (min (edge_reach view.now row (a, b)) columns.end)) }
{
    let _unit = view.u;
    let column = reach_in(a, b, view, sides, row, columns);
    put(reaches, columns.from, column)?;
    Ok(())
}

/// Brings reaches into order, with one of the first column more if their number is odd.
fn order(reaches: &mut Vec<u32>, columns: Span) -> Result<(), NoMemory>
    requires order { columns.from ≤ columns.end }
    requires within { All (LiesWithin columns.from columns.end) reaches.old.items }
    ensures rises { OnOk result (Rises columns.from columns.end reaches.new.items) }
    ensures paired { OnOk result (IsPaired reaches.new.items) }
    ensures same { OnOk result
        ((i : ℕ) → columns.from ≤ i → beyond i reaches.new.items ≡ beyond i reaches.old.items) }
{
    pad(reaches, columns.from)?;
    reaches.sort_unstable();
    Ok(())
}

/// Puts one reach more behind the others, if their number is odd.
fn pad(reaches: &mut Vec<u32>, from: u32) -> Result<(), NoMemory>
    ensures { OnOk result (reaches.new.items ≡ padded from reaches.old.items) }
{
    if reaches.len() % 2 == 1 {
        reaches.push(from)?;
    }
    Ok(())
}
