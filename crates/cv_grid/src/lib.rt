//! The reader of ASCII grids.
//!
//! Contract: a text is read exactly where the grammar spells a grid, as that grid; else its tokens are judged
//! from left to right, and the first that is wrong decides.
//! Definitions: `Tokens`, `Words`, `Layouts`, `Cells`; `Grammar`, what a text must be; `Refusals`, where and
//! why it is refused; `Answers`, the same answer as a function.
//! Memory is taken for the cells alone, and only behind a right header; no handle is needed.
#![tactic(auto)]

ghost use Rattle.std.specs.Prelude.{◌≡◌, ◌≢◌, ◌≤◌, ◌↔◌, length, Ok, Err, IfOk};
ghost use Rattle.cv_model.specs.Grids.{CellGrid};
ghost use Rattle.cv_grid.specs.Tokens.{without_mark};
ghost use Rattle.cv_grid.specs.Grammar.{Spells};
ghost use Rattle.cv_grid.specs.Refusals.{IsRefused};
ghost use Rattle.cv_grid.specs.Answers.{grid_of};

mod cells;
mod error;
mod grid;
mod header;
mod laws;
mod layout;
mod numbers;
mod settings;
mod token;
mod value;
mod window;
mod word;

use crate::grid::read_grid;
use crate::token::without_mark;
use cv_model::{Grid, MOST_BYTES};
pub use error::{GridError, GridWord};
pub use laws::grids_are_spelt;
use std::alloc::Global;

/// The grid of a text with at most `room` cells, or why it is none.
///
/// The tokens of a text are the runs of bytes that aren't white space; a byte order mark in front is taken
/// away. Pairs of a word and its value are the header, in any order and case: `ncols`, `nrows`, `xllcorner`
/// or `xllcenter`, `yllcorner` or `yllcenter`, `cellsize` or `dx` and `dy`, and perhaps `nodata_value`,
/// which else is -9999. Behind it stands a decimal for each cell, the northernmost row first and each row
/// from the west. A cell or no-data value beyond 10^15 millionths counts as that limit. A cell that is `nan`
/// or equals the no-data value has no data.
/// Source: the ASCII grid after ESRI's, in outline; each rule is this project's own.
pub fn read(alloc: Global, bytes: &[u8], room: u32) -> Result<Grid, GridError>
    requires room { room ≤ 16000000 }
    requires short { length bytes.now ≤ MOST_BYTES }
    // The text spells the grid, and no other.
    ensures found { IfOk result (Spells room (without_mark bytes.now)) }
    ensures only { (g : CellGrid) → Spells room (without_mark bytes.now) g
        → (result ≢ Err GridError.NoMemory) → result ≡ Ok g }

    // The first token that is wrong decides, and the error says which and why.
    ensures fault { (e : GridError) → (result ≢ Err GridError.NoMemory)
        → (result ≡ Err e) ↔ IsRefused room (without_mark bytes.now) e }

    // The same as a function.
    ensures exact { (result ≢ Err GridError.NoMemory) → result ≡ grid_of room (without_mark bytes.now) }
{
    read_grid(alloc, without_mark(bytes), room)
}

#[cfg(test)]
mod tests;
