//! Grids of numbers.

ghost use Rattle.std.specs.Prelude.{◌≡◌};

use crate::cells::CellList;
use std::marker::Model;

/// A cell of a grid.
#[derive(Clone, Copy, Debug, PartialEq, Eq)]
pub enum Cell {
    /// A number, in millionths.
    Value(i64),
    /// No data.
    Void,
}

/// A grid of cells laid on the map, seen as its columns and rows, its left and bottom edge in doubled
/// millionths, the width and height of a cell in millionths, and its cells, the northernmost row first and
/// each row from the west.
///
/// It keeps that there is a cell for each column and row, that a cell has sides, and that its edges lie
/// within 10^15 millionths either way.
#[derive(Drop)]
pub struct Grid {
    cols: u32,
    rows: u32,
    left2: i64,
    bottom2: i64,
    dx: u64,
    dy: u64,
    cells: CellList,
}

impl Model for Grid {
    ghost use Rattle.cv_model.specs.Grids.{CellGrid, IsGrid};

    ghost Value = { CellGrid };

    ghost view = { λ g. record {
      cols = g.cols;
      rows = g.rows;
      left2 = g.left2;
      bottom2 = g.bottom2;
      dx = g.dx;
      dy = g.dy;
      cells = g.cells;
    } };

    ghost invariant = { λ g. IsGrid (record {
      cols = g.cols;
      rows = g.rows;
      left2 = g.left2;
      bottom2 = g.bottom2;
      dx = g.dx;
      dy = g.dy;
      cells = g.cells;
    }) };
}

impl Grid {
    ghost use Rattle.cv_model.specs.Grids.{IsGrid};

    /// The grid of these parts.
    pub fn of(
        cols: u32,
        rows: u32,
        left2: i64,
        bottom2: i64,
        dx: u64,
        dy: u64,
        cells: CellList,
    ) -> Grid
        requires { IsGrid (record {
          cols = cols;
          rows = rows;
          left2 = left2;
          bottom2 = bottom2;
          dx = dx;
          dy = dy;
          cells = cells;
        }) }
        ensures { result ≡ record {
          cols = cols;
          rows = rows;
          left2 = left2;
          bottom2 = bottom2;
          dx = dx;
          dy = dy;
          cells = cells;
        } }
    {
        Grid {
            cols,
            rows,
            left2,
            bottom2,
            dx,
            dy,
            cells,
        }
    }

    /// Cells from west to east.
    pub fn cols(&self) -> u32
        ensures { result ≡ self.now.cols }
    {
        self.cols
    }

    /// Cells from north to south.
    pub fn rows(&self) -> u32
        ensures { result ≡ self.now.rows }
    {
        self.rows
    }

    /// The western edge, in doubled millionths of a map unit.
    pub fn left2(&self) -> i64
        ensures { result ≡ self.now.left2 }
    {
        self.left2
    }

    /// The southern edge, in doubled millionths of a map unit.
    pub fn bottom2(&self) -> i64
        ensures { result ≡ self.now.bottom2 }
    {
        self.bottom2
    }

    /// The width of a cell, in millionths of a map unit.
    pub fn dx(&self) -> u64
        ensures { result ≡ self.now.dx }
    {
        self.dx
    }

    /// The height of a cell, in millionths of a map unit.
    pub fn dy(&self) -> u64
        ensures { result ≡ self.now.dy }
    {
        self.dy
    }

    /// The cells, the northernmost row first and each row from the west.
    pub fn cells(&self) -> &CellList
        ensures cells { result.now ≡ self.now.cells }
        ensures kept { IsGrid self.now }
    {
        &self.cells
    }

    /// The cells by themselves.
    pub fn into_cells(self) -> CellList
        ensures { result ≡ self.cells }
    {
        let Grid { cells, .. } = self;
        cells
    }
}
