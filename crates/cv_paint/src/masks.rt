//! What a mask layer shows, covered run by run.

ghost use Rattle.std.specs.Prelude.{◌≡◌, ◌+◌, ◌≤◌, OnOk, IfErr, All, sum_by, true};
ghost use Rattle.std.specs.List.{list_any};
ghost use Rattle.cv_model.specs.Pictures.{is_covered, is_feature_at};
ghost use Rattle.cv_geom.specs.Runs.{IsWithin, length_of};
ghost use Rattle.cv_canvas.specs.Canvas.{changed};
ghost use Rattle.cv_canvas.specs.Cover.{is_covered_in};
ghost use Rattle.cv_paint.specs.Finish.{HasSize, StopCause};
ghost use Rattle.cv_paint.specs.Masks.{Covers, with_covered};
ghost use Rattle.cv_paint.specs.Costs.{geometry_cost, feature_cost, features_cost};

use crate::error::PaintError;
use crate::far::is_outside;
use crate::layings::{Workspace, whole_of};
use crate::steps::count;
use cv_canvas::Cover;
use cv_geom::{Run, Steps};
use cv_layer::{FeatureRow, Table};
use cv_model::{Geometry, NoMemory, View};
use cv_outside::Stop;
use cv_scan::fill_runs;
use std::sync::ledger::Ledger;

/// Covers the pixels of a run. Each of them is a step.
fn cover_run<L: Ledger>(cover: &mut Cover, run: Run, steps: &mut Steps<L>)
    requires { IsWithin cover.old.width cover.old.height run }
    ensures width { cover.new.width ≡ cover.old.width }
    ensures height { cover.new.height ≡ cover.old.height }
    ensures covered { is_covered_in cover.new ≡ changed (λ _. true) (is_covered_in cover.old) run }
    ensures cost { steps.new ≡ steps.old + length_of run }
{
    cover.cover(run);
    count(steps, run.end - run.from);
}

/// Covers the pixels of these runs. Each of them is a step.
fn cover_runs<L: Ledger>(cover: &mut Cover, runs: &[Run], steps: &mut Steps<L>)
    requires { All (IsWithin cover.old.width cover.old.height) runs.now }
    ensures width { cover.new.width ≡ cover.old.width }
    ensures height { cover.new.height ≡ cover.old.height }
    ensures covered { is_covered_in cover.new ≡ with_covered (is_covered_in cover.old) runs.now }
    ensures cost { steps.new ≡ steps.old + sum_by length_of runs.now }
{
    for run in runs {
        cover_run(cover, *run, steps);
    }
}

/// Covers the pixels whose centres some polygon of a geometry has inside. Where memory wants, what is
/// covered is open.
pub fn cover_geometry<L: Ledger>(
    cover: &mut Cover,
    geometry: &Geometry,
    view: &View,
    work: &mut Workspace,
    steps: &mut Steps<L>,
) -> Result<(), NoMemory>
    requires { HasSize view.now cover.old }
    ensures width { cover.new.width ≡ cover.old.width }
    ensures height { cover.new.height ≡ cover.old.height }
    ensures covered { OnOk result (Covers view.now (λ p. is_covered p geometry.now)
        (is_covered_in cover.old) (is_covered_in cover.new)) }
    ensures cost { steps.new ≤ steps.old + geometry_cost view.now geometry.now }
{
    let area = whole_of(view);
    let polygons = geometry.polygons();
    fill_runs(
        &mut work.scratch,
        polygons,
        view,
        area,
        &mut work.runs,
        steps,
    )?;
    cover_runs(cover, work.runs.as_slice(), steps);
    Ok(())
}

/// Covers the pixels whose centres some polygon of a feature has inside. One whose box lies beyond the view
/// is passed over.
fn cover_row<L: Ledger>(
    cover: &mut Cover,
    row: &FeatureRow,
    view: &View,
    work: &mut Workspace,
    steps: &mut Steps<L>,
) -> Result<(), NoMemory>
    requires { HasSize view.now cover.old }
    ensures width { cover.new.width ≡ cover.old.width }
    ensures height { cover.new.height ≡ cover.old.height }
    ensures covered { OnOk result (Covers view.now (λ p. is_feature_at p row.now)
        (is_covered_in cover.old) (is_covered_in cover.new)) }
    ensures cost { steps.new ≤ steps.old + feature_cost view.now row.now }
{
    let Some(geometry) = row.geometry() else {
        return Ok(());
    };
    if is_outside(row, view) {
        return Ok(());
    }
    cover_geometry(cover, geometry, view, work, steps)?;
    Ok(())
}

/// Covers the pixels whose centres some polygon of some feature has inside.
fn cover_rows<L: Ledger>(
    cover: &mut Cover,
    rows: &[FeatureRow],
    view: &View,
    work: &mut Workspace,
    steps: &mut Steps<L>,
) -> Result<(), NoMemory>
    requires { HasSize view.now cover.old }
    ensures width { cover.new.width ≡ cover.old.width }
    ensures height { cover.new.height ≡ cover.old.height }
    ensures covered { OnOk result (Covers view.now (λ p. list_any (is_feature_at p) rows.now)
        (is_covered_in cover.old) (is_covered_in cover.new)) }
    ensures cost { steps.new ≤ steps.old + features_cost view.now rows.now }
{
    for row in rows {
        cover_row(cover, row, view, work, steps)?;
    }
    Ok(())
}

/// Covers the pixels whose centres some polygon of some feature of a table has inside. The stop is asked now
/// and then.
pub fn cover_table<S: Stop, L: Ledger>(
    cover: &mut Cover,
    table: &Table,
    view: &View,
    work: &mut Workspace,
    stop: &mut S,
    steps: &mut Steps<L>,
) -> Result<(), PaintError>
    requires { HasSize view.now cover.old }
    ensures width { cover.new.width ≡ cover.old.width }
    ensures height { cover.new.height ≡ cover.old.height }
    ensures counts { S.yeses stop.old ≤ S.yeses stop.new }
    ensures covered { OnOk result (Covers view.now (λ p. list_any (is_feature_at p) table.now.features)
        (is_covered_in cover.old) (is_covered_in cover.new)) }
    ensures cost { steps.new ≤ steps.old + features_cost view.now table.now.features }
    ensures quiet { OnOk result (S.yeses stop.new ≡ S.yeses stop.old) }
    ensures err { IfErr result (λ e. StopCause e (S.yeses stop.old) (S.yeses stop.new)) }
{
    let rows = table.rows();
    let mut at = 0;
    while at < rows.len() {
        if stop.poll() {
            return Err(PaintError::Stopped);
        }
        let run = rows.run_from(at);
        cover_rows(cover, run, view, work, steps)?;
        at += run.len() as u64;
    }
    Ok(())
}
