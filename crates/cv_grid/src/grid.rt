//! A grid's header and its cells.

ghost use Rattle.std.specs.Prelude.{◌≡◌, ◌≢◌, ◌≤◌, length, Err};
ghost use Rattle.cv_grid.specs.Answers.{grid_of};

use crate::cells::{read_cells, void_number};
use crate::error::GridError;
use crate::header::read_header;
use crate::layout::Layout;
use cv_model::{Grid, MOST_BYTES};
use std::alloc::Global;

/// The grid of a text without a byte order mark, or its first refusal; or want of memory.
pub fn read_grid(alloc: Global, text: &[u8], room: u32) -> Result<Grid, GridError>
    requires room { room ≤ 16000000 }
    requires short { length text.now ≤ MOST_BYTES }
    ensures { (result ≢ Err GridError.NoMemory) → result ≡ grid_of room text.now }
{
    let header = match read_header(text) {
        Ok(header) => header,
        Err(refusal) => return Err(refusal),
    };
    let layout = match Layout::of(&header.said) {
        Ok(layout) => layout,
        Err(word) => return Err(GridError::MissingWord(word)),
    };
    if layout.is_large(room) {
        return Err(GridError::TooLarge);
    }
    let void = void_number(header.said.nodata);
    let total = layout.cells() as u32;
    let cells = match read_cells(alloc, text, header.end, total, void) {
        Ok(cells) => cells,
        Err(refusal) => return Err(refusal),
    };
    let Layout {
        cols,
        rows,
        left2,
        bottom2,
        dx,
        dy,
    } = layout;
    Ok(Grid::of(cols, rows, left2, bottom2, dx, dy, cells))
}
