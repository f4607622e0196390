//! Rows of a canvas, finished one after the other.

ghost use Rattle.std.specs.Prelude.{◌≡◌, ◌+◌, ◌*◌, ◌<◌, ◌≤◌, ◌++◌, Bool, true, OnOk, IfErr, length};
ghost use Rattle.cv_model.specs.Rasters.{row_of, pixels_of};
ghost use Rattle.cv_canvas.specs.Cover.{is_covered_in};
ghost use Rattle.cv_paint.specs.Layings.{IsSized};
ghost use Rattle.cv_paint.specs.Cells.{cell_pixel};
ghost use Rattle.cv_paint.specs.Costs.{view_size};
ghost use Rattle.cv_paint.specs.Finish.{shown, masked, kept, kept_in, IsMaskOf, StopCause};

use crate::cells::cells_row;
use crate::error::PaintError;
use crate::steps::count;
use cv_canvas::{Canvas, Cover};
use cv_geom::Steps;
use cv_layer::Cells;
use cv_model::{NoMemory, Rgba, RgbaList, Style, View};
use cv_outside::Stop;
use std::alloc::Global;
use std::sync::ledger::Ledger;

/// A pixel on which nothing lies.
const CLEAR: Rgba = Rgba {
    r: 0,
    g: 0,
    b: 0,
    a: 0,
};

/// Puts pixels behind others.
fn put_all(pixels: &mut RgbaList, row: &[Rgba]) -> Result<(), NoMemory>
    ensures { OnOk result (pixels.new ≡ pixels.old ++ row.now) }
{
    for pixel in row {
        pixels.put(*pixel)?;
    }
    Ok(())
}

/// A colour where it is shown, else a clear one.
fn shown(is_shown: bool, colour: Rgba) -> Rgba
    ensures { result ≡ shown is_shown colour }
{
    if is_shown { colour } else { CLEAR }
}

/// Clears the pixels of a row that aren't covered.
fn keep_shown(row: &mut [Rgba], cover: &Cover, j: u32)
    requires row { j < cover.now.height }
    requires length { length row.old ≡ cover.now.width }
    ensures { row.new ≡ kept (row_of cover.now.width (is_covered_in cover.now) j) row.old }
{
    for i in 0..cover.width() {
        row[i as usize] = shown(cover.is_covered(i, j), row[i as usize]);
    }
}

/// Clears the pixels of a row that a mask doesn't show. Each of them is a step, where there is a mask.
fn mask_row<L: Ledger>(
    mask: &Option<Cover>,
    view: &View,
    j: u32,
    row: &mut [Rgba],
    steps: &mut Steps<L>,
)
    requires mask { IsMaskOf view.now mask.now }
    requires row { j < view.now.h }
    requires length { length row.old ≡ view.now.w }
    ensures kept { row.new ≡ kept_in mask.now j row.old }
    ensures cost { steps.new ≤ steps.old + view.now.w }
{
    if let Some(cover) = mask {
        count(steps, view.w);
        keep_shown(row, cover, j);
    }
}

/// Puts the pixels of a row, as a mask shows them, behind others.
#[tactic(auto, using(crate::proofs::MaskLemmas::masked_row))]
fn put_row<C: Canvas, L: Ledger>(
    canvas: &C,
    mask: &Option<Cover>,
    view: &View,
    j: u32,
    row: &mut [Rgba],
    steps: &mut Steps<L>,
    pixels: &mut RgbaList,
) -> Result<(), NoMemory>
    requires size { IsSized view.now (C.frame canvas.now) }
    requires mask { IsMaskOf view.now mask.now }
    requires row { j < view.now.h }
    requires length { length row.old ≡ view.now.w }
    ensures ok { OnOk result
        (pixels.new ≡ pixels.old ++ row_of view.now.w (masked mask.now (C.at canvas.now)) j) }
    ensures cost { steps.new ≤ steps.old + view.now.w }
{
    canvas.row(j, row);
    mask_row(mask, view, j, row, steps);
    put_all(pixels, row)?;
    Ok(())
}

/// Puts the pixels of a canvas, as a mask shows them, behind others, row by row from the top.
///
/// The stop is asked before each row.
pub fn put_rows<C: Canvas, S: Stop, L: Ledger>(
    alloc: Global,
    canvas: &C,
    mask: &Option<Cover>,
    view: &View,
    stop: &mut S,
    steps: &mut Steps<L>,
    pixels: &mut RgbaList,
) -> Result<(), PaintError>
    requires size { IsSized view.now (C.frame canvas.now) }
    requires mask { IsMaskOf view.now mask.now }
    ensures counts { S.yeses stop.old ≤ S.yeses stop.new }
    ensures ok { OnOk result (pixels.new
        ≡ pixels.old ++ pixels_of view.now.w view.now.h (masked mask.now (C.at canvas.now))) }
    ensures quiet { OnOk result (S.yeses stop.new ≡ S.yeses stop.old) }
    ensures err { IfErr result (λ e. StopCause e (S.yeses stop.old) (S.yeses stop.new)) }
    ensures cost { steps.new ≤ steps.old + view_size view.now }
{
    let mut row = vec![in alloc; CLEAR; view.w as usize]?;
    for j in 0..view.h {
        if stop.poll() {
            return Err(PaintError::Stopped);
        }
        put_row(canvas, mask, view, j, &mut row, steps, pixels)?;
    }
    Ok(())
}

/// Puts the pixels of a grid's row, as a mask shows them, behind others. A cell laid on a pixel is a step.
#[tactic(auto, using(crate::proofs::MaskLemmas::masked_row))]
fn put_cells_row<L: Ledger>(
    cells: &Cells,
    style: &Style,
    mask: &Option<Cover>,
    view: &View,
    j: u32,
    row: &mut [Rgba],
    steps: &mut Steps<L>,
    pixels: &mut RgbaList,
) -> Result<(), NoMemory>
    requires mask { IsMaskOf view.now mask.now }
    requires row { j < view.now.h }
    requires length { length row.old ≡ view.now.w }
    ensures ok { OnOk result (pixels.new
        ≡ pixels.old ++ row_of view.now.w (masked mask.now (cell_pixel style.now cells.now view.now)) j) }
    ensures cost { steps.new ≤ steps.old + 2 * view.now.w }
{
    count(steps, view.w);
    cells_row(cells, style, view, j, row);
    mask_row(mask, view, j, row, steps);
    put_all(pixels, row)?;
    Ok(())
}

/// Puts the pixels of a grid, as a mask shows them, behind others, row by row from the top.
///
/// The stop is asked before each row.
pub fn put_cells<S: Stop, L: Ledger>(
    alloc: Global,
    cells: &Cells,
    style: &Style,
    mask: &Option<Cover>,
    view: &View,
    stop: &mut S,
    steps: &mut Steps<L>,
    pixels: &mut RgbaList,
) -> Result<(), PaintError>
    requires { IsMaskOf view.now mask.now }
    ensures counts { S.yeses stop.old ≤ S.yeses stop.new }
    ensures ok { OnOk result (pixels.new ≡ pixels.old
        ++ pixels_of view.now.w view.now.h (masked mask.now (cell_pixel style.now cells.now view.now))) }
    ensures quiet { OnOk result (S.yeses stop.new ≡ S.yeses stop.old) }
    ensures err { IfErr result (λ e. StopCause e (S.yeses stop.old) (S.yeses stop.new)) }
    ensures cost { steps.new ≤ steps.old + 2 * view_size view.now }
{
    let mut row = vec![in alloc; CLEAR; view.w as usize]?;
    for j in 0..view.h {
        if stop.poll() {
            return Err(PaintError::Stopped);
        }
        put_cells_row(cells, style, mask, view, j, &mut row, steps, pixels)?;
    }
    Ok(())
}
