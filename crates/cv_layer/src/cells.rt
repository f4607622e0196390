//! What a grid layer holds.

ghost use Rattle.std.specs.Prelude.{◌≡◌, ◌+◌, ◌*◌, ◌<◌, length, IfOk, set};
ghost use Rattle.cv_model.specs.Grids.{IsGrid};

use crate::packed::CellChunks;
use cv_model::{Cell, Grid, NoMemory};
use std::marker::Model;

/// The cells of a grid layer, seen as a grid is: columns and rows, the left and bottom edge in doubled
/// millionths, the width and height of a cell in millionths, and the cells, the northernmost row first and
/// each row from the west.
///
/// A share of it has its cells in common with it until one of them is changed.
#[derive(Drop)]
pub struct Cells {
    cols: u32,
    rows: u32,
    left2: i64,
    bottom2: i64,
    dx: u64,
    dy: u64,
    cells: CellChunks,
}

impl Model for Cells {
    ghost use Rattle.cv_model.specs.Grids.{CellGrid, IsGrid};

    ghost Value = { CellGrid };

    ghost view = { λ g. record {
      cols = g.cols;
      rows = g.rows;
      left2 = g.left2;
      bottom2 = g.bottom2;
      dx = g.dx;
      dy = g.dy;
      cells = g.cells;
    } };

    ghost invariant = { λ g. IsGrid (record {
      cols = g.cols;
      rows = g.rows;
      left2 = g.left2;
      bottom2 = g.bottom2;
      dx = g.dx;
      dy = g.dy;
      cells = g.cells;
    }) };
}

impl Cells {
    /// The cells of a grid, which are moved.
    pub fn of(grid: Grid) -> Result<Cells, NoMemory>
        ensures { IfOk result (λ made. made ≡ grid) }
    {
        let (cols, rows) = (grid.cols(), grid.rows());
        let (left2, bottom2) = (grid.left2(), grid.bottom2());
        let (dx, dy) = (grid.dx(), grid.dy());
        Ok(Cells {
            cols,
            rows,
            left2,
            bottom2,
            dx,
            dy,
            cells: CellChunks::of(grid.into_cells())?,
        })
    }

    /// Cells from west to east.
    pub fn cols(&self) -> u32
        ensures { result ≡ self.now.cols }
    {
        self.cols
    }

    /// Cells from north to south.
    pub fn rows(&self) -> u32
        ensures { result ≡ self.now.rows }
    {
        self.rows
    }

    /// The western edge, in doubled millionths of a map unit.
    pub fn left2(&self) -> i64
        ensures { result ≡ self.now.left2 }
    {
        self.left2
    }

    /// The southern edge, in doubled millionths of a map unit.
    pub fn bottom2(&self) -> i64
        ensures { result ≡ self.now.bottom2 }
    {
        self.bottom2
    }

    /// The width of a cell, in millionths of a map unit.
    pub fn dx(&self) -> u64
        ensures { result ≡ self.now.dx }
    {
        self.dx
    }

    /// The height of a cell, in millionths of a map unit.
    pub fn dy(&self) -> u64
        ensures { result ≡ self.now.dy }
    {
        self.dy
    }

    /// The cells, the northernmost row first and each row from the west.
    pub fn cells(&self) -> &CellChunks
        ensures cells { result.now ≡ self.now.cells }
        ensures kept { IsGrid self.now }
    {
        &self.cells
    }

    /// Other cells that are the same and stand in common with these.
    pub fn share(&self) -> Result<Cells, NoMemory>
        ensures { IfOk result (λ made. made ≡ self.now) }
    {
        Ok(Cells {
            cols: self.cols,
            rows: self.rows,
            left2: self.left2,
            bottom2: self.bottom2,
            dx: self.dx,
            dy: self.dy,
            cells: self.cells.share()?,
        })
    }

    /// The cells with another one at a row and a column, of which the northernmost and the westernmost are 0.
    pub fn with_cell(&self, row: u32, col: u32, cell: Cell) -> Result<Cells, NoMemory>
        requires { (row < self.now.rows) × (col < self.now.cols) }
        ensures { IfOk result (λ made. made ≡ record self.now {
          cells = (set self.now.cells (row * self.now.cols + col) cell);
        }) }
    {
        Ok(Cells {
            cols: self.cols,
            rows: self.rows,
            left2: self.left2,
            bottom2: self.bottom2,
            dx: self.dx,
            dy: self.dy,
            cells: self.cells.with_cell(self.place_of(row, col), cell)?,
        })
    }

    /// The place of a cell in the list of all.
    fn place_of(&self, row: u32, col: u32) -> u64
        requires { (row < self.now.rows) × (col < self.now.cols) }
        ensures value { result ≡ row * self.now.cols + col }
        ensures within { result < length self.now.cells }
    {
        u64::from(row) * u64::from(self.cols) + u64::from(col)
    }
}
