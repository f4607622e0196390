//! The cells of a grid, packed.

ghost use Rattle.std.specs.Prelude.{◌≡◌, ◌++◌, ◌∷◌, [], length, OnOk, OnErr, IfOk, IfErr, slice_get};
ghost use Rattle.cv_model.specs.Packed.{cell_of_word, is_among, unpacked, least};

use crate::NoMemory;
use crate::grid::Cell;
use std::alloc::{AllocError, Global};
use std::marker::Model;

/// Cells, the northernmost row first and each row from the west, seen as the list of them.
///
/// A cell is held in 8 bytes: as its value, or as the least number of 64 bits where it has none. The places
/// of cells whose value is that number itself stand in a list beside; no reader gives such a value.
#[derive(Drop)]
pub struct CellList {
    words: Vec<i64>,
    lowest: Vec<u64>,
}

impl Model for CellList {
    ghost use Rattle.std.specs.Prelude.{List};
    ghost use Rattle.cv_model.specs.declared.grid.Cell.{Cell};
    ghost use Rattle.cv_model.specs.Packed.{unpacked, AreWithin};

    ghost Value = { List Cell };

    ghost view = { λ c. unpacked c.words.items c.lowest.items };

    ghost invariant = { λ c. AreWithin c.words.items c.lowest.items };
}

/// The cell of a number that stands at a place, where the least one is the value itself at some places.
fn cell_at(word: &i64, lowest: &[u64], at: u64) -> Cell
    ensures { result ≡ cell_of_word (is_among lowest.now at) word.now }
{
    if *word != i64::MIN {
        return Cell::Value(*word);
    }
    if lowest.contains(&at) {
        Cell::Value(*word)
    } else {
        Cell::Void
    }
}

impl CellList {
    /// The empty list.
    pub fn new(alloc: Global) -> Self
        ensures { result ≡ [] }
    {
        CellList {
            words: Vec::new(alloc),
            lowest: Vec::new(alloc),
        }
    }

    /// An empty list that asks for the memory of `room` cells at once.
    pub fn with_room(alloc: Global, room: u64) -> Result<Self, NoMemory>
        ensures { IfOk result (λ made. made ≡ []) }
    {
        let words = Vec::with_capacity(alloc, room as usize)?;
        Ok(CellList {
            words,
            lowest: Vec::new(alloc),
        })
    }

    /// Puts a cell behind the others. A refusal hands it back and changes nothing.
    pub fn push(&mut self, cell: Cell) -> Result<(), (Cell, NoMemory)>
        ensures ok { OnOk result (self.new ≡ self.old ++ cell ∷ []) }
        ensures err { IfErr result (λ e. (e.0 ≡ cell) × (self.new ≡ self.old)) }
    {
        match self.put(cell) {
            Ok(()) => Ok(()),
            Err(refused) => Err((cell, refused)),
        }
    }

    /// Puts a cell behind the others. A refusal changes nothing.
    #[inline]
    pub fn put(&mut self, cell: Cell) -> Result<(), NoMemory>
        ensures ok { OnOk result (self.new ≡ self.old ++ cell ∷ []) }
        ensures err { OnErr result (self.new ≡ self.old) }
    {
        match cell {
            Cell::Value(number) => {
                if number == i64::MIN {
                    self.put_least()
                } else {
                    self.words.push(number)?;
                    Ok(())
                }
            }
            Cell::Void => {
                self.words.push(i64::MIN)?;
                Ok(())
            }
        }
    }

    /// Puts a cell whose value is the least number behind the others. A refusal changes nothing.
    fn put_least(&mut self) -> Result<(), NoMemory>
        ensures ok { OnOk result (self.new ≡ self.old ++ Cell.Value least ∷ []) }
        ensures err { OnErr result (self.new ≡ self.old) }
    {
        self.lowest.push(self.words.len() as u64)?;
        match self.words.push(i64::MIN) {
            Ok(()) => Ok(()),
            Err(_) => {
                let _ = self.lowest.pop();
                Err(AllocError)
            }
        }
    }

    /// The cell at a place, of which the first is 0. There is none from `len` on.
    pub fn get(&self, at: u64) -> Option<Cell>
        ensures { result ≡ slice_get self.now at }
    {
        let word = self.words.get(at as usize)?;
        Some(cell_at(word, self.lowest.as_slice(), at))
    }

    /// How many cells there are.
    pub fn len(&self) -> u64
        ensures { result ≡ length self.now }
    {
        self.words.len() as u64
    }

    /// Another list of the same cells.
    pub fn copy(&self, alloc: Global) -> Result<CellList, NoMemory>
        ensures { IfOk result (λ made. made ≡ self.now) }
    {
        let words = Vec::from_slice(alloc, self.words.as_slice())?;
        let lowest = Vec::from_slice(alloc, self.lowest.as_slice())?;
        Ok(CellList { words, lowest })
    }

    /// The numbers that the cells are held as, in order, and the places where the least number of 64 bits is
    /// the value itself; elsewhere it stands for no data. Nothing is copied.
    pub fn into_words(self) -> (Vec<i64>, Vec<u64>)
        ensures { unpacked result.0.items result.1.items ≡ self }
    {
        let CellList { words, lowest } = self;
        (words, lowest)
    }
}
