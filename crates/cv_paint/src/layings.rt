//! Strokes of a geometry, laid on a canvas run by run.

ghost use Rattle.std.specs.Prelude.{◌≡◌, ◌+◌, ◌≤◌, ◌++◌, OnOk, All, Some, length, sum_by};
ghost use Rattle.cv_model.specs.declared.colour.Rgba.{Rgba};
ghost use Rattle.cv_model.specs.Pens.{PenParts};
ghost use Rattle.cv_model.specs.Markers.{MarkerParts};
ghost use Rattle.cv_model.specs.Pictures.{hits_rings, hits_lines, laid_where, fill_strokes, pen_strokes};
ghost use Rattle.cv_model.specs.Pictures.{half_side, marker_strokes, strokes_of};
ghost use Rattle.cv_geom.specs.Runs.{IsArea, length_of, edges_of, segments_of};
ghost use Rattle.cv_canvas.specs.Canvas.{LiesOn, IsInk, with_run, with_runs};
ghost use Rattle.cv_paint.specs.Costs.{runs_cost, geometry_cost};
ghost use Rattle.cv_paint.specs.Layings.{IsSized, Lays, TakesSymbol, whole_of};

use crate::steps::count;
use cv_canvas::Canvas;
use cv_geom::{Area, Run, Runs, Steps};
use cv_model::{Geometry, Marker, NoMemory, Pen, Rgba, Span, Symbol, View};
use cv_pen::{line_runs, marker_runs, ring_runs};
use cv_scan::{Scratch, fill_runs};
use std::alloc::Global;
use std::sync::ledger::Ledger;

/// The memory that a painting uses from feature to feature: for marks, and for the runs of one geometry, row
/// by row from the top. It holds nothing that a caller can see.
#[derive(Drop)]
pub struct Workspace {
    pub(crate) scratch: Scratch,
    pub(crate) runs: Runs,
}

impl Workspace {
    /// No memory yet: what is needed is taken from `alloc` when a geometry is laid or covered.
    pub fn new(alloc: Global) -> Self {
        Workspace {
            scratch: Scratch::new(alloc),
            runs: Runs::new(alloc),
        }
    }
}

/// All pixels of a view.
pub fn whole_of(view: &View) -> Area
    ensures area { result ≡ whole_of view.now }
    ensures within { IsArea view.now.w view.now.h result }
{
    Area {
        columns: Span {
            from: 0,
            end: view.w,
        },
        rows: Span {
            from: 0,
            end: view.h,
        },
    }
}

/// Lays a colour on the pixels of a run. Each of them is a step.
fn lay_run<C: Canvas, L: Ledger>(canvas: &mut C, run: Run, colour: Rgba, steps: &mut Steps<L>)
    requires within { LiesOn (C.frame canvas.old) run }
    requires ink { IsInk (C.frame canvas.old).ink colour }
    ensures frame { C.frame canvas.new ≡ C.frame canvas.old }
    ensures laid { C.at canvas.new ≡ with_run colour (C.at canvas.old) run }
    ensures cost { steps.new ≡ steps.old + length_of run }
{
    canvas.lay(run, colour);
    count(steps, run.end - run.from);
}

/// Lays a colour on the pixels of these runs, one after the other. Each of them is a step.
fn lay_runs<C: Canvas, L: Ledger>(canvas: &mut C, runs: &[Run], colour: Rgba, steps: &mut Steps<L>)
    requires within { All (LiesOn (C.frame canvas.old)) runs.now }
    requires ink { IsInk (C.frame canvas.old).ink colour }
    ensures frame { C.frame canvas.new ≡ C.frame canvas.old }
    ensures laid { C.at canvas.new ≡ with_runs colour (C.at canvas.old) runs.now }
    ensures cost { steps.new ≡ steps.old + sum_by length_of runs.now }
{
    for run in runs {
        lay_run(canvas, *run, colour, steps);
    }
}

/// Lays the fill, where some polygon has a pixel's centre inside.
fn lay_fill<C: Canvas, L: Ledger>(
    canvas: &mut C,
    geometry: &Geometry,
    fill: Option<Rgba>,
    view: &View,
    work: &mut Workspace,
    steps: &mut Steps<L>,
) -> Result<(), NoMemory>
    requires size { IsSized view.now (C.frame canvas.old) }
    requires ink { (colour : Rgba) → fill ≡ Some colour → IsInk (C.frame canvas.old).ink colour }
    ensures frame { C.frame canvas.new ≡ C.frame canvas.old }
    ensures laid { OnOk result (Lays view.now (λ p. fill_strokes p geometry.now fill)
        (C.at canvas.old) (C.at canvas.new)) }
    ensures cost { steps.new ≤ steps.old + runs_cost view.now (length (edges_of geometry.now.polygons)) }
{
    let Some(colour) = fill else {
        return Ok(());
    };
    let area = whole_of(view);
    let polygons = geometry.polygons();
    fill_runs(
        &mut work.scratch,
        polygons,
        view,
        area,
        &mut work.runs,
        steps,
    )?;
    lay_runs(canvas, work.runs.as_slice(), colour, steps);
    Ok(())
}

/// Lays a pen's colour, where the pen hits an edge of some ring.
fn lay_rings<C: Canvas, L: Ledger>(
    canvas: &mut C,
    geometry: &Geometry,
    pen: Pen,
    view: &View,
    work: &mut Workspace,
    steps: &mut Steps<L>,
) -> Result<(), NoMemory>
    requires size { IsSized view.now (C.frame canvas.old) }
    requires ink { IsInk (C.frame canvas.old).ink pen.colour }
    ensures frame { C.frame canvas.new ≡ C.frame canvas.old }
    ensures laid { OnOk result (Lays view.now
        (λ p. laid_where (hits_rings (half_side view.now pen.width) p geometry.now) pen.colour)
        (C.at canvas.old) (C.at canvas.new)) }
    ensures cost { steps.new ≤ steps.old + runs_cost view.now (length (edges_of geometry.now.polygons)) }
{
    let area = whole_of(view);
    let polygons = geometry.polygons();
    ring_runs(polygons, pen.side(), view, area, &mut work.runs, steps)?;
    lay_runs(canvas, work.runs.as_slice(), pen.colour, steps);
    Ok(())
}

/// Lays a pen's colour, where the pen hits a segment of some line.
fn lay_lines<C: Canvas, L: Ledger>(
    canvas: &mut C,
    geometry: &Geometry,
    pen: Pen,
    view: &View,
    work: &mut Workspace,
    steps: &mut Steps<L>,
) -> Result<(), NoMemory>
    requires size { IsSized view.now (C.frame canvas.old) }
    requires ink { IsInk (C.frame canvas.old).ink pen.colour }
    ensures frame { C.frame canvas.new ≡ C.frame canvas.old }
    ensures laid { OnOk result (Lays view.now
        (λ p. laid_where (hits_lines (half_side view.now pen.width) p geometry.now) pen.colour)
        (C.at canvas.old) (C.at canvas.new)) }
    ensures cost { steps.new ≤ steps.old + runs_cost view.now (length (segments_of geometry.now.lines)) }
{
    let area = whole_of(view);
    let lines = geometry.lines();
    line_runs(lines, pen.side(), view, area, &mut work.runs, steps)?;
    lay_runs(canvas, work.runs.as_slice(), pen.colour, steps);
    Ok(())
}

/// Lays the pen: once for the rings and once for the lines.
fn lay_pen<C: Canvas, L: Ledger>(
    canvas: &mut C,
    geometry: &Geometry,
    pen: Option<Pen>,
    view: &View,
    work: &mut Workspace,
    steps: &mut Steps<L>,
) -> Result<(), NoMemory>
    requires size { IsSized view.now (C.frame canvas.old) }
    requires ink { (drawn : PenParts) → pen ≡ Some drawn → IsInk (C.frame canvas.old).ink drawn.colour }
    ensures frame { C.frame canvas.new ≡ C.frame canvas.old }
    ensures laid { OnOk result (Lays view.now (λ p. pen_strokes view.now p geometry.now pen)
        (C.at canvas.old) (C.at canvas.new)) }
    ensures cost { steps.new ≤ steps.old + (runs_cost view.now (length (edges_of geometry.now.polygons))
        + runs_cost view.now (length (segments_of geometry.now.lines))) }
{
    let Some(pen) = pen else {
        return Ok(());
    };
    lay_rings(canvas, geometry, pen, view, work, steps)?;
    lay_lines(canvas, geometry, pen, view, work, steps)?;
    Ok(())
}

/// Lays the marker, where it covers a pixel's centre from some point.
fn lay_marker<C: Canvas, L: Ledger>(
    canvas: &mut C,
    geometry: &Geometry,
    marker: Option<Marker>,
    view: &View,
    work: &mut Workspace,
    steps: &mut Steps<L>,
) -> Result<(), NoMemory>
    requires size { IsSized view.now (C.frame canvas.old) }
    requires ink { (drawn : MarkerParts) → marker ≡ Some drawn → IsInk (C.frame canvas.old).ink drawn.colour }
    ensures frame { C.frame canvas.new ≡ C.frame canvas.old }
    ensures laid { OnOk result (Lays view.now (λ p. marker_strokes view.now p geometry.now marker)
        (C.at canvas.old) (C.at canvas.new)) }
    ensures cost { steps.new ≤ steps.old + runs_cost view.now (length geometry.now.points) }
{
    let Some(marker) = marker else {
        return Ok(());
    };
    let area = whole_of(view);
    let points = geometry.points();
    let (shape, side) = (marker.shape, marker.side());
    marker_runs(points, shape, side, view, area, &mut work.runs, steps)?;
    lay_runs(canvas, work.runs.as_slice(), marker.colour, steps);
    Ok(())
}

/// Lays what a geometry with a symbol lays on each pixel of a view: the fill, the pen and the marker, in this
/// order. Where memory wants, what lies on the canvas is open. A step is an edge, a segment or a point
/// visited for one row, or a stroke laid on a pixel.
pub fn lay_geometry<C: Canvas, L: Ledger>(
    canvas: &mut C,
    geometry: &Geometry,
    symbol: &Symbol,
    view: &View,
    work: &mut Workspace,
    steps: &mut Steps<L>,
) -> Result<(), NoMemory>
    requires size { IsSized view.now (C.frame canvas.old) }
    requires ink { TakesSymbol (C.frame canvas.old).ink symbol.now }
    ensures frame { C.frame canvas.new ≡ C.frame canvas.old }
    ensures laid { OnOk result (Lays view.now (λ p. strokes_of symbol.now view.now p geometry.now)
        (C.at canvas.old) (C.at canvas.new)) }
    ensures cost { steps.new ≤ steps.old + geometry_cost view.now geometry.now }
{
    lay_fill(canvas, geometry, symbol.fill, view, work, steps)?;
    lay_pen(canvas, geometry, symbol.pen, view, work, steps)?;
    lay_marker(canvas, geometry, symbol.marker, view, work, steps)?;
    Ok(())
}
