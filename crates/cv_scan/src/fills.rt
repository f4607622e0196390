//! The runs of an area inside polygons.

ghost use Rattle.std.specs.Prelude.{◌≡◌, ◌+◌, ◌*◌, ◌≤◌, OnOk, length, pos, ◌*ℤ◌};
ghost use Rattle.std.specs.List.{flat_map, list_any};
ghost use Rattle.cv_model.specs.Polygons.{edges, is_inside};
ghost use Rattle.cv_model.specs.Views.{centre_of};
ghost use Rattle.cv_scan.specs.Fills.{RunsHaveTheSpans};
ghost use Rattle.cv_geom.specs.Runs.{AreRunsOf, IsArea, Adds, edges_of, rows_of};

use crate::blocks::{block_of, put_block};
use crate::held::{begin, put_runs};
use crate::marks::put_marks;
use crate::scratch::Scratch;
use cv_geom::{Area, Multiples, Runs, Steps, doubled_sides};
use cv_model::{NoMemory, Polygon, View};
use std::sync::ledger::Ledger;

/// Puts the runs of an area inside any of some polygons into a list in place of what it held.
///
/// A step is an edge visited for a row; an upright rectangle takes none. The memory of `scratch` is used
/// again from call to call: beside a list of few marks at most a bit for each pixel of the area. Where memory
/// wants, what the list holds is open.
pub fn fill_runs<L: Ledger>(
    scratch: &mut Scratch,
    polygons: &[Polygon],
    view: &View,
    area: Area,
    into: &mut Runs,
    steps: &mut Steps<L>,
) -> Result<(), NoMemory>
    requires { IsArea view.now.w view.now.h area }
    ensures runs { OnOk result (AreRunsOf
        (λ i j. list_any (is_inside (centre_of view.now i j)) polygons.now) area into.new) }
    ensures cost { steps.new ≤ steps.old + length (edges_of polygons.now) * rows_of area }
{
    into.clear();
    let sides = doubled_sides(view);
    put_polygons(scratch, polygons, view, &sides, area, into, steps)?;
    into.unite()?;
    Ok(())
}

/// Puts the runs of an area inside polygons behind the others.
fn put_polygons<L: Ledger>(
    scratch: &mut Scratch,
    polygons: &[Polygon],
    view: &View,
    sides: &Multiples,
    area: Area,
    into: &mut Runs,
    steps: &mut Steps<L>,
) -> Result<(), NoMemory>
    requires sides { pos sides.now ≡ pos 2 *ℤ view.now.u }
    requires area { IsArea view.now.w view.now.h area }
    ensures added { OnOk result (Adds (λ i j. list_any (is_inside (centre_of view.now i j)) polygons.now)
        area into.old into.new) }
    ensures cost { steps.new ≤ steps.old + length (edges_of polygons.now) * rows_of area }
{
    for polygon in polygons {
        put_polygon(scratch, polygon, view, sides, area, into, steps)?;
        into.unite_if_many()?;
    }
    Ok(())
}

/// Puts the runs of an area inside a polygon behind the others: as a block, if it is an upright rectangle.
fn put_polygon<L: Ledger>(
    scratch: &mut Scratch,
    polygon: &Polygon,
    view: &View,
    sides: &Multiples,
    area: Area,
    into: &mut Runs,
    steps: &mut Steps<L>,
) -> Result<(), NoMemory>
    requires sides { pos sides.now ≡ pos 2 *ℤ view.now.u }
    requires area { IsArea view.now.w view.now.h area }
    ensures added { OnOk result
        (Adds (λ i j. is_inside (centre_of view.now i j) polygon.now) area into.old into.new) }
    ensures cost { steps.new ≤ steps.old + length (flat_map edges polygon.now) * rows_of area }
{
    match block_of(polygon) {
        Some(corners) => {
            put_block(corners.0, corners.1, view, sides, area, into)?;
            Ok(())
        }
        None => put_crossed(scratch, polygon, view, sides, area, into, steps),
    }
}

/// Puts the runs of an area inside a polygon behind the others, by the marks of its edges.
fn put_crossed<L: Ledger>(
    scratch: &mut Scratch,
    polygon: &Polygon,
    view: &View,
    sides: &Multiples,
    area: Area,
    into: &mut Runs,
    steps: &mut Steps<L>,
) -> Result<(), NoMemory>
    requires sides { pos sides.now ≡ pos 2 *ℤ view.now.u }
    requires area { IsArea view.now.w view.now.h area }
    ensures added { OnOk result
        (Adds (λ i j. is_inside (centre_of view.now i j) polygon.now) area into.old into.new) }
    ensures cost { steps.new ≤ steps.old + length (flat_map edges polygon.now) * rows_of area }
{
    begin(scratch, polygon, view, sides, area)?;
    put_marks(scratch, polygon, view, sides, area, steps)?;
    put_runs(scratch, area, into)?;
    Ok(())
}

/// The runs of an area have in each row the columns of the spans that `spans_in` finds there.
pub fn runs_have_the_spans()
    ensures { RunsHaveTheSpans }
{}
