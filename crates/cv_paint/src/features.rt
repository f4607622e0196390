//! Features of a layer, laid on a canvas one after the other.

ghost use Rattle.std.specs.Prelude.{◌≡◌, ◌+◌, ◌≤◌, OnOk, IfErr};
ghost use Rattle.std.specs.List.{flat_map};
ghost use Rattle.cv_model.specs.Pictures.{feature_strokes};
ghost use Rattle.cv_paint.specs.Layings.{IsSized, Lays, TakesLayer};
ghost use Rattle.cv_paint.specs.Finish.{StopCause};
ghost use Rattle.cv_paint.specs.Costs.{feature_cost, features_cost};

use crate::error::PaintError;
use crate::far::is_missed;
use crate::layings::{Workspace, lay_geometry};
use crate::symbols::Symbols;
use cv_canvas::Canvas;
use cv_geom::Steps;
use cv_layer::{FeatureRow, Table};
use cv_model::{NoMemory, View};
use cv_outside::Stop;
use std::sync::ledger::Ledger;

/// Lays what a feature of a layer lays on each pixel of a view. One whose box lies farther from the view than
/// the layer's widest symbol reaches is passed over, before its own symbol is found.
fn lay_row<C: Canvas, L: Ledger>(
    canvas: &mut C,
    row: &FeatureRow,
    symbols: &Symbols,
    view: &View,
    work: &mut Workspace,
    steps: &mut Steps<L>,
) -> Result<(), NoMemory>
    requires size { IsSized view.now (C.frame canvas.old) }
    requires ink { TakesLayer (C.frame canvas.old).ink symbols.now }
    ensures frame { C.frame canvas.new ≡ C.frame canvas.old }
    ensures laid { OnOk result (Lays view.now (λ p. feature_strokes symbols.now view.now p row.now)
        (C.at canvas.old) (C.at canvas.new)) }
    ensures cost { steps.new ≤ steps.old + feature_cost view.now row.now }
{
    if is_missed(row, symbols.widest(), view) {
        return Ok(());
    }
    let Some(geometry) = row.geometry() else {
        return Ok(());
    };
    let Some(symbol) = symbols.symbol(row) else {
        return Ok(());
    };
    lay_geometry(canvas, geometry, symbol, view, work, steps)?;
    Ok(())
}

/// Lays what some features of a layer lay on each pixel of a view, in their order.
fn lay_rows<C: Canvas, L: Ledger>(
    canvas: &mut C,
    rows: &[FeatureRow],
    symbols: &Symbols,
    view: &View,
    work: &mut Workspace,
    steps: &mut Steps<L>,
) -> Result<(), NoMemory>
    requires size { IsSized view.now (C.frame canvas.old) }
    requires ink { TakesLayer (C.frame canvas.old).ink symbols.now }
    ensures frame { C.frame canvas.new ≡ C.frame canvas.old }
    ensures laid { OnOk result (Lays view.now
        (λ p. flat_map (feature_strokes symbols.now view.now p) rows.now)
        (C.at canvas.old) (C.at canvas.new)) }
    ensures cost { steps.new ≤ steps.old + features_cost view.now rows.now }
{
    for row in rows {
        lay_row(canvas, row, symbols, view, work, steps)?;
    }
    Ok(())
}

/// Lays what the features of a table lay on each pixel of a view, in their order. The stop is asked now and
/// then.
pub fn lay_table<C: Canvas, S: Stop, L: Ledger>(
    canvas: &mut C,
    table: &Table,
    symbols: &Symbols,
    view: &View,
    work: &mut Workspace,
    stop: &mut S,
    steps: &mut Steps<L>,
) -> Result<(), PaintError>
    requires size { IsSized view.now (C.frame canvas.old) }
    requires ink { TakesLayer (C.frame canvas.old).ink symbols.now }
    ensures frame { C.frame canvas.new ≡ C.frame canvas.old }
    ensures counts { S.yeses stop.old ≤ S.yeses stop.new }
    ensures laid { OnOk result (Lays view.now
        (λ p. flat_map (feature_strokes symbols.now view.now p) table.now.features)
        (C.at canvas.old) (C.at canvas.new)) }
    ensures cost { steps.new ≤ steps.old + features_cost view.now table.now.features }
    ensures quiet { OnOk result (S.yeses stop.new ≡ S.yeses stop.old) }
    ensures err { IfErr result (λ e. StopCause e (S.yeses stop.old) (S.yeses stop.new)) }
{
    let rows = table.rows();
    let mut at = 0;
    while at < rows.len() {
        if stop.poll() {
            return Err(PaintError::Stopped);
        }
        let run = rows.run_from(at);
        lay_rows(canvas, run, symbols, view, work, steps)?;
        at += run.len() as u64;
    }
    Ok(())
}
