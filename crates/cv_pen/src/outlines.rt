//! The runs of an area that a pen hits along rings and lines, and that markers cover.

ghost use Rattle.std.specs.Prelude.{◌≡◌, ◌+◌, ◌*◌, ◌≤◌, OnOk, length, pos, ◌*ℤ◌};
ghost use Rattle.std.specs.List.{list_any, flat_map};
ghost use Rattle.cv_model.specs.Polygons.{edges, edges_from};
ghost use Rattle.cv_model.specs.Pens.{segments, is_near};
ghost use Rattle.cv_model.specs.Markers.{is_marked};
ghost use Rattle.cv_model.specs.Pictures.{half_side, hits_ring, hits_line};
ghost use Rattle.cv_model.specs.Views.{centre_of};
ghost use Rattle.cv_geom.specs.Runs.{AreRunsOf, IsArea, Adds, edges_of, segments_of, rows_of};
ghost use Rattle.cv_pen.specs.Dots.{IsMarkerSize};
ghost use Rattle.cv_pen.specs.Strokes.{IsPenWidth};

use crate::boxes::{columns_by, rows_by};
use crate::dots::marker_between;
use crate::strokes::{half_side, stroke_between};
use cv_geom::{Area, Multiples, Runs, Steps, doubled_sides};
use cv_model::{Line, NoMemory, Point, Polygon, Ring, Shape, View};
use std::sync::ledger::Ledger;

/// Puts the runs of an area that a pen hits while it follows the rings of some polygons into a list in
/// place of what it held.
///
/// The width is in pixels. A step is an edge visited for a row. Where memory wants, what the list
/// holds is open.
pub fn ring_runs<L: Ledger>(
    polygons: &[Polygon],
    width: u32,
    view: &View,
    area: Area,
    into: &mut Runs,
    steps: &mut Steps<L>,
) -> Result<(), NoMemory>
    requires width { IsPenWidth width }
    requires area { IsArea view.now.w view.now.h area }
    ensures runs { OnOk result (AreRunsOf
        (λ i j. list_any (list_any (hits_ring (half_side view.now width) (centre_of view.now i j)))
        polygons.now) area into.new) }
    ensures cost { steps.new ≤ steps.old + length (edges_of polygons.now) * rows_of area }
{
    into.clear();
    put_polygons(
        polygons,
        width,
        view,
        &doubled_sides(view),
        area,
        into,
        steps,
    )?;
    into.unite()?;
    Ok(())
}

/// Puts the runs of an area that a pen hits while it follows some lines into a list in place of what it
/// held.
///
/// The width is in pixels. A step is a segment visited for a row. Where memory wants, what the list
/// holds is open.
pub fn line_runs<L: Ledger>(
    lines: &[Line],
    width: u32,
    view: &View,
    area: Area,
    into: &mut Runs,
    steps: &mut Steps<L>,
) -> Result<(), NoMemory>
    requires width { IsPenWidth width }
    requires area { IsArea view.now.w view.now.h area }
    ensures runs { OnOk result (AreRunsOf
        (λ i j. list_any (hits_line (half_side view.now width) (centre_of view.now i j)) lines.now)
        area into.new) }
    ensures cost { steps.new ≤ steps.old + length (segments_of lines.now) * rows_of area }
{
    into.clear();
    put_lines(lines, width, view, &doubled_sides(view), area, into, steps)?;
    into.unite()?;
    Ok(())
}

/// Puts the runs of an area that markers on some points cover into a list in place of what it held.
///
/// The size is in pixels. A step is a point visited for a row. Where memory wants, what the list
/// holds is open.
pub fn marker_runs<L: Ledger>(
    points: &[Point],
    shape: Shape,
    size: u32,
    view: &View,
    area: Area,
    into: &mut Runs,
    steps: &mut Steps<L>,
) -> Result<(), NoMemory>
    requires size { IsMarkerSize size }
    requires area { IsArea view.now.w view.now.h area }
    ensures runs { OnOk result (AreRunsOf
        (λ i j. list_any (is_marked shape (half_side view.now size) (centre_of view.now i j)) points.now)
        area into.new) }
    ensures cost { steps.new ≤ steps.old + length points.now * rows_of area }
{
    into.clear();
    put_markers(
        points,
        shape,
        size,
        view,
        &doubled_sides(view),
        area,
        into,
        steps,
    )?;
    into.unite()?;
    Ok(())
}

/// Puts the runs of an area that a pen hits along the rings of some polygons behind the others.
fn put_polygons<L: Ledger>(
    polygons: &[Polygon],
    width: u32,
    view: &View,
    sides: &Multiples,
    area: Area,
    into: &mut Runs,
    steps: &mut Steps<L>,
) -> Result<(), NoMemory>
    requires sides { pos sides.now ≡ pos 2 *ℤ view.now.u }
    requires width { IsPenWidth width }
    requires area { IsArea view.now.w view.now.h area }
    ensures added { OnOk result (Adds
        (λ i j. list_any (list_any (hits_ring (half_side view.now width) (centre_of view.now i j)))
        polygons.now)
        area into.old into.new) }
    ensures cost { steps.new ≤ steps.old + length (edges_of polygons.now) * rows_of area }
{
    for polygon in polygons {
        put_rings(polygon.as_slice(), width, view, sides, area, into, steps)?;
    }
    Ok(())
}

/// Puts the runs of an area that a pen hits along some rings behind the others.
fn put_rings<L: Ledger>(
    rings: &[Ring],
    width: u32,
    view: &View,
    sides: &Multiples,
    area: Area,
    into: &mut Runs,
    steps: &mut Steps<L>,
) -> Result<(), NoMemory>
    requires sides { pos sides.now ≡ pos 2 *ℤ view.now.u }
    requires width { IsPenWidth width }
    requires area { IsArea view.now.w view.now.h area }
    ensures added { OnOk result (Adds
        (λ i j. list_any (hits_ring (half_side view.now width) (centre_of view.now i j)) rings.now)
        area into.old into.new) }
    ensures cost { steps.new ≤ steps.old + length (flat_map edges rings.now) * rows_of area }
{
    for ring in rings {
        put_ring(ring.as_slice(), width, view, sides, area, into, steps)?;
    }
    Ok(())
}

/// Puts the runs of an area that a pen hits along a ring behind the others.
fn put_ring<L: Ledger>(
    points: &[Point],
    width: u32,
    view: &View,
    sides: &Multiples,
    area: Area,
    into: &mut Runs,
    steps: &mut Steps<L>,
) -> Result<(), NoMemory>
    requires sides { pos sides.now ≡ pos 2 *ℤ view.now.u }
    requires width { IsPenWidth width }
    requires area { IsArea view.now.w view.now.h area }
    ensures added { OnOk result (Adds
        (λ i j. hits_ring (half_side view.now width) (centre_of view.now i j) points.now)
        area into.old into.new) }
    ensures cost { steps.new ≤ steps.old + length (edges points.now) * rows_of area }
{
    let Some(last) = points.last() else {
        return Ok(());
    };
    put_path(*last, points, width, view, sides, area, into, steps)
}

/// Puts the runs of an area that a pen hits along some lines behind the others.
fn put_lines<L: Ledger>(
    lines: &[Line],
    width: u32,
    view: &View,
    sides: &Multiples,
    area: Area,
    into: &mut Runs,
    steps: &mut Steps<L>,
) -> Result<(), NoMemory>
    requires sides { pos sides.now ≡ pos 2 *ℤ view.now.u }
    requires width { IsPenWidth width }
    requires area { IsArea view.now.w view.now.h area }
    ensures added { OnOk result (Adds
        (λ i j. list_any (hits_line (half_side view.now width) (centre_of view.now i j)) lines.now)
        area into.old into.new) }
    ensures cost { steps.new ≤ steps.old + length (segments_of lines.now) * rows_of area }
{
    for line in lines {
        put_line(line.as_slice(), width, view, sides, area, into, steps)?;
    }
    Ok(())
}

/// Puts the runs of an area that a pen hits along a line behind the others.
fn put_line<L: Ledger>(
    points: &[Point],
    width: u32,
    view: &View,
    sides: &Multiples,
    area: Area,
    into: &mut Runs,
    steps: &mut Steps<L>,
) -> Result<(), NoMemory>
    requires sides { pos sides.now ≡ pos 2 *ℤ view.now.u }
    requires width { IsPenWidth width }
    requires area { IsArea view.now.w view.now.h area }
    ensures added { OnOk result (Adds
        (λ i j. hits_line (half_side view.now width) (centre_of view.now i j) points.now)
        area into.old into.new) }
    ensures cost { steps.new ≤ steps.old + length (segments points.now) * rows_of area }
{
    match points {
        [] => Ok(()),
        [only] => put_segment(*only, *only, width, view, sides, area, into, steps),
        [first, rest @ ..] => put_path(*first, rest, width, view, sides, area, into, steps),
    }
}

/// Puts the runs of an area that a pen hits on its way through some points behind the others.
fn put_path<L: Ledger>(
    first: Point,
    points: &[Point],
    width: u32,
    view: &View,
    sides: &Multiples,
    area: Area,
    into: &mut Runs,
    steps: &mut Steps<L>,
) -> Result<(), NoMemory>
    requires sides { pos sides.now ≡ pos 2 *ℤ view.now.u }
    requires width { IsPenWidth width }
    requires area { IsArea view.now.w view.now.h area }
    ensures added { OnOk result (Adds
        (λ i j. list_any (is_near (half_side view.now width) (centre_of view.now i j))
        (edges_from first points.now))
        area into.old into.new) }
    ensures cost { steps.new ≤ steps.old + length points.now * rows_of area }
{
    let mut before = first;
    for point in points {
        put_segment(before, *point, width, view, sides, area, into, steps)?;
        into.unite_if_many()?;
        before = *point;
    }
    Ok(())
}

/// Puts the runs of an area that a pen hits along a segment behind the others.
fn put_segment<L: Ledger>(
    a: Point,
    b: Point,
    width: u32,
    view: &View,
    sides: &Multiples,
    area: Area,
    into: &mut Runs,
    steps: &mut Steps<L>,
) -> Result<(), NoMemory>
    requires sides { pos sides.now ≡ pos 2 *ℤ view.now.u }
    requires width { IsPenWidth width }
    requires area { IsArea view.now.w view.now.h area }
    ensures added { OnOk result (Adds
        (λ i j. is_near (half_side view.now width) (centre_of view.now i j) (a, b))
        area into.old into.new) }
    ensures cost { steps.new ≤ steps.old + rows_of area }
{
    let r = half_side(view, width);
    let rows = rows_by(a, b, r, view, sides, area.rows);
    let columns = columns_by(a, b, r, view, sides, area.columns);
    for row in rows.from..rows.end {
        steps.tick();
        let run = stroke_between(a, b, r, view, row, columns);
        into.put_span(row, run)?;
    }
    Ok(())
}

/// Puts the runs of an area that markers on some points cover behind the others.
fn put_markers<L: Ledger>(
    points: &[Point],
    shape: Shape,
    size: u32,
    view: &View,
    sides: &Multiples,
    area: Area,
    into: &mut Runs,
    steps: &mut Steps<L>,
) -> Result<(), NoMemory>
    requires sides { pos sides.now ≡ pos 2 *ℤ view.now.u }
    requires size { IsMarkerSize size }
    requires area { IsArea view.now.w view.now.h area }
    ensures added { OnOk result (Adds
        (λ i j. list_any (is_marked shape (half_side view.now size) (centre_of view.now i j)) points.now)
        area into.old into.new) }
    ensures cost { steps.new ≤ steps.old + length points.now * rows_of area }
{
    for point in points {
        put_marker(*point, shape, size, view, sides, area, into, steps)?;
        into.unite_if_many()?;
    }
    Ok(())
}

/// Puts the runs of an area that a marker on a point covers behind the others.
fn put_marker<L: Ledger>(
    at: Point,
    shape: Shape,
    size: u32,
    view: &View,
    sides: &Multiples,
    area: Area,
    into: &mut Runs,
    steps: &mut Steps<L>,
) -> Result<(), NoMemory>
    requires sides { pos sides.now ≡ pos 2 *ℤ view.now.u }
    requires size { IsMarkerSize size }
    requires area { IsArea view.now.w view.now.h area }
    ensures added { OnOk result (Adds
        (λ i j. is_marked shape (half_side view.now size) (centre_of view.now i j) at)
        area into.old into.new) }
    ensures cost { steps.new ≤ steps.old + rows_of area }
{
    let r = half_side(view, size);
    let rows = rows_by(at, at, r, view, sides, area.rows);
    let columns = columns_by(at, at, r, view, sides, area.columns);
    for row in rows.from..rows.end {
        steps.tick();
        let run = marker_between(shape, at, r, view, row, columns);
        into.put_span(row, run)?;
    }
    Ok(())
}
