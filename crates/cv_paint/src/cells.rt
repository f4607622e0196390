//! The cells of a grid at the centres of pixels.

ghost use Rattle.std.specs.Prelude.{◌≡◌, ◌+◌, ◌<◌, ◌≤◌, ◌*◌, pos, ◌+ℤ◌, ◌*ℤ◌, ◌≤ℤ◌, IfSome, length};
ghost use Rattle.std.specs.Prelude.{ℕ, ◌&&◌, nat_le, nat_lt, if◌then◌else◌, slice_index_or};
ghost use Rattle.cv_model.specs.Colours.{transparent};
ghost use Rattle.cv_model.specs.Positions.{IsDoubled};
ghost use Rattle.cv_model.specs.Views.{rise, centre_of};
ghost use Rattle.cv_model.specs.Grids.{IsEdge, step_at, cell_in};
ghost use Rattle.cv_model.specs.Pictures.{cell_colour};
ghost use Rattle.cv_model.specs.Rasters.{row_of};
ghost use Rattle.cv_paint.specs.Cells.{cell_pixel, cell_between, colour_by, column_under, LieTogether};

use cv_geom::{Multiples, centre, column_from, doubled_sides};
use cv_layer::Cells;
use cv_model::{Cell, Point2, Rgba, Style, View};
use cv_symbol::ramp;

/// A pixel that no cell colours.
const CLEAR: Rgba = Rgba {
    r: 0,
    g: 0,
    b: 0,
    a: 0,
};

/// How far a position lies beyond an edge.
fn distance(edge: i64, z: i64) -> u64
    requires edge { IsEdge edge }
    requires z { IsDoubled z }
    requires order { edge ≤ℤ z }
    ensures { result ≡ rise edge z }
{
    (z - edge) as u64
}

/// Which of some steps of a length in millionths from an edge on holds a position.
#[tactic(auto, using(crate::proofs::CellLemmas::by_halves))]
fn step_at(edge: i64, length: u64, count: u32, z: i64) -> Option<u32>
    requires edge { IsEdge edge }
    requires z { IsDoubled z }
    requires some { 1 ≤ length }
    ensures step { result ≡ step_at edge (2 * length) count z }
    ensures within { IfSome result (λ k. k < count) }
{
    if z < edge {
        return None;
    }
    let at = distance(edge, z) / 2 / length;
    if at < u64::from(count) {
        Some(at as u32)
    } else {
        None
    }
}

/// Which column of cells holds a place, in doubled millionths.
fn column_at(cells: &Cells, x: i64) -> Option<u32>
    requires { IsDoubled x }
    ensures column { result ≡ step_at cells.now.left2 (2 * cells.now.dx) cells.now.cols x }
    ensures within { IfSome result (λ k. k < cells.now.cols) }
{
    let _kept = cells.cells();
    step_at(cells.left2(), cells.dx(), cells.cols(), x)
}

/// Which row of cells, counted from the south, holds a height, in doubled millionths.
fn row_at(cells: &Cells, y: i64) -> Option<u32>
    requires { IsDoubled y }
    ensures row { result ≡ step_at cells.now.bottom2 (2 * cells.now.dy) cells.now.rows y }
    ensures within { IfSome result (λ k. k < cells.now.rows) }
{
    let _kept = cells.cells();
    step_at(cells.bottom2(), cells.dy(), cells.rows(), y)
}

/// The cell in a column and a row, where rows count from the south.
fn cell_in(cells: &Cells, column: u32, row: u32) -> Option<Cell>
    requires { row < cells.now.rows }
    ensures { result ≡ cell_in cells.now column row }
{
    let line = u64::from(cells.rows() - (row + 1));
    let at = line * u64::from(cells.cols()) + u64::from(column);
    cells.cells().get(at)
}

/// The same, of a column and a row that may not be there.
fn cell_between(cells: &Cells, column: Option<u32>, row: Option<u32>) -> Option<Cell>
    requires { IfSome row (λ k. k < cells.now.rows) }
    ensures { result ≡ cell_between cells.now column row }
{
    cell_in(cells, column?, row?)
}

/// The colour of a cell by a style, which is a ramp.
fn colour_by(style: &Style, cell: Option<Cell>) -> Rgba
    ensures { result ≡ colour_by style.now cell }
{
    match style {
        Style::Ramp(colours) => match cell {
            Some(cell) => ramp(colours, cell),
            None => CLEAR,
        },
        Style::Single(_) => CLEAR,
        Style::Categorised(_, _, _) => CLEAR,
        Style::Graduated(_, _) => CLEAR,
    }
}

/// The colour of the cell that holds a position, by a style, which is a ramp.
#[tactic(auto, unfolding(cv_model::specs::Grids::cell_at))]
pub fn cell_colour(cells: &Cells, style: &Style, p: Point2) -> Rgba
    ensures { result ≡ cell_colour style.now cells.now p }
{
    let (column, row) = (column_at(cells, p.x), row_at(cells, p.y));
    colour_by(style, cell_between(cells, column, row))
}

/// The eastern border of a column of cells, in doubled millionths.
fn border(cells: &Cells, column: u32) -> i64
    requires { column < cells.now.cols }
    ensures border { result ≡ cells.now.left2 +ℤ pos (2 * ((column + 1) * cells.now.dx)) }
    ensures range { IsEdge result }
{
    let _kept = cells.cells();
    let columns = u64::from(column) + 1;
    cells.left2() + 2 * (columns * cells.dx()) as i64
}

/// The first of a view's columns behind column `i` whose centre doesn't lie where that of column `i` lies: in
/// this column of cells, or left or right of them all; the number of columns where there is none.
fn together(
    cells: &Cells,
    column: Option<u32>,
    x: i64,
    view: &View,
    i: u32,
    sides: &Multiples,
) -> u32
    requires view { i < view.now.w }
    requires centre { x ≡ (centre_of view.now i 0).x }
    requires column { column ≡ column_under cells.now view.now i }
    requires within { IfSome column (λ k. k < cells.now.cols) }
    requires sides { pos sides.now ≡ pos 2 *ℤ view.now.u }
    ensures { LieTogether cells.now view.now i result }
{
    let _kept = cells.cells();
    let width = view.w;
    if let Some(column) = column {
        return column_from(border(cells, column), view, sides);
    }
    if x < cells.left2() {
        return column_from(cells.left2(), view, sides);
    }
    width
}

/// Gives a colour to the pixels of a row from one column on, up to and without another.
fn put_colour(row: &mut [Rgba], from: u32, end: u32, colour: Rgba)
    requires order { from ≤ end }
    requires within { end ≤ length row.old }
    ensures length { length row.new ≡ length row.old }
    ensures colours { (k : ℕ) → slice_index_or row.new k transparent
        ≡ (if nat_le from k && nat_lt k end then colour else slice_index_or row.old k transparent) }
{
    for k in from..end {
        row[k as usize] = colour;
    }
}

/// Puts the colours of the cells at a row's centres into a list in place of what it held: for each column of
/// cells the pixels whose centres lie there.
pub fn cells_row(cells: &Cells, style: &Style, view: &View, j: u32, row: &mut [Rgba])
    requires row { j < view.now.h }
    requires length { length row.old ≡ view.now.w }
    ensures { row.new ≡ row_of view.now.w (cell_pixel style.now cells.now view.now) j }
{
    let width = view.w;
    let line = row_at(cells, centre(view, 0, j).y);
    let sides = doubled_sides(view);
    let mut i = 0;
    while i < width {
        let x = centre(view, i, 0).x;
        let column = column_at(cells, x);
        let end = together(cells, column, x, view, i, &sides);
        put_colour(
            row,
            i,
            end,
            colour_by(style, cell_between(cells, column, line)),
        );
        i = end;
    }
}
