//! The cells of a grid layer, packed.

ghost use Rattle.std.specs.Prelude.{◌≡◌, ◌<◌, length, IfOk, set, slice_get};
ghost use Rattle.cv_model.specs.Packed.{cell_of_word, is_among, word_of, is_least};

use crate::places::{is_among, marked};
use cv_chunks::Chunked;
use cv_model::{Cell, CellList, NoMemory};
use std::marker::Model;

/// Cells whose versions share what an edit didn't touch, seen as the list of them.
///
/// A cell is held in 8 bytes, as in a [`CellList`]. The places of cells whose value is the least number of 64
/// bits stand in a list beside: an edit, and a reading of a cell that has no data, takes a step for each of
/// them.
#[derive(Drop)]
pub struct CellChunks {
    words: Chunked<i64>,
    lowest: Chunked<u64>,
}

impl Model for CellChunks {
    ghost use Rattle.std.specs.Prelude.{List};
    ghost use Rattle.cv_model.specs.declared.grid.Cell.{Cell};
    ghost use Rattle.cv_model.specs.Packed.{unpacked};

    ghost Value = { List Cell };

    ghost view = { λ c. unpacked c.words c.lowest };
}

/// The cell of a number that stands at a place, where the least one is the value itself at some places.
fn cell_at(word: &i64, lowest: &Chunked<u64>, at: u64) -> Cell
    ensures { result ≡ cell_of_word (is_among lowest.now at) word.now }
{
    if *word != i64::MIN {
        return Cell::Value(*word);
    }
    if is_among(lowest, at) {
        Cell::Value(*word)
    } else {
        Cell::Void
    }
}

/// The number that a cell is held as.
fn word_of(cell: Cell) -> i64
    ensures { result ≡ word_of cell }
{
    match cell {
        Cell::Value(number) => number,
        Cell::Void => i64::MIN,
    }
}

/// Whether a cell has the least number of 64 bits as its value.
fn is_least(cell: Cell) -> bool
    ensures { result ≡ is_least cell }
{
    match cell {
        Cell::Value(number) => number == i64::MIN,
        Cell::Void => false,
    }
}

impl CellChunks {
    /// These cells, whose numbers are moved.
    pub fn of(cells: CellList) -> Result<CellChunks, NoMemory>
        ensures { IfOk result (λ made. made ≡ cells) }
    {
        let (words, lowest) = cells.into_words();
        Ok(CellChunks {
            words: Chunked::of(words)?,
            lowest: Chunked::of(lowest)?,
        })
    }

    /// How many cells there are.
    pub fn len(&self) -> u64
        ensures { result ≡ length self.now }
    {
        self.words.len()
    }

    /// The cell at a place, of which the first is 0. There is none from `len` on.
    pub fn get(&self, at: u64) -> Option<Cell>
        ensures { result ≡ slice_get self.now at }
    {
        let word = self.words.get(at)?;
        Some(cell_at(word, &self.lowest, at))
    }

    /// Other cells that are the same and stand in common with these.
    pub fn share(&self) -> Result<CellChunks, NoMemory>
        ensures { IfOk result (λ made. made ≡ self.now) }
    {
        Ok(CellChunks {
            words: self.words.share()?,
            lowest: self.lowest.share()?,
        })
    }

    /// The cells with another one at a place.
    pub fn with_cell(&self, at: u64, cell: Cell) -> Result<CellChunks, NoMemory>
        requires { at < length self.now }
        ensures { IfOk result (λ made. made ≡ set self.now at cell) }
    {
        let lowest = marked(&self.lowest, at, is_least(cell))?;
        let mut words = self.words.share()?;
        match words.set(at, word_of(cell)) {
            Ok(()) => Ok(CellChunks { words, lowest }),
            Err(refused) => Err(refused.1),
        }
    }
}
