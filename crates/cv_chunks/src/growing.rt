//! A list that is being made.

ghost use Rattle.std.specs.Prelude.{◌≡◌, ◌++◌, ◌∷◌, [], OnOk, IfOk};

use crate::chunk::Chunk;
use crate::part::{OfRow, ROW};
use crate::{Chunked, NoMemory};
use std::alloc::Global;
use std::marker::Model;
use std::mem;

/// A list that is being made, seen as the elements so far.
///
/// Each element is written where it stays, so that a list is made of elements that come one by one without a
/// vector of them all.
#[derive(Drop)]
pub struct Growing<T> {
    alloc: Global,
    chunks: Vec<Chunk<T>>,
    row: Vec<T>,
}

impl<T> Model for Growing<T> {
    ghost use Rattle.std.specs.Prelude.{List, ◌++◌, ◌≤◌, length};
    ghost use Rattle.std.specs.List.{flat_map};

    ghost Value = { List T };

    ghost view = { λ g. flat_map (λ chunk. chunk) g.chunks.items ++ g.row.items };

    ghost invariant = { λ g. length g.row.items ≤ 128 };
}

impl<T: Drop> Growing<T> {
    /// No element yet. Takes no memory.
    pub fn new(alloc: Global) -> Self
        ensures { result ≡ [] }
    {
        Growing {
            alloc,
            chunks: Vec::new(alloc),
            row: Vec::new(alloc),
        }
    }

    /// Puts an element behind the others. After a refusal, which drops it, the list is of no more use.
    pub fn put(&mut self, element: T) -> Result<(), NoMemory>
        ensures { OnOk result (self.new ≡ self.old ++ element ∷ []) }
    {
        if self.row.len() == ROW {
            let next = Vec::with_capacity(self.alloc, ROW)?;
            let row = mem::replace(&mut self.row, next);
            self.chunks.push(Chunk::of_row(row)?)?;
        }
        self.row.push(element)?;
        Ok(())
    }

    /// The list of these elements. A refusal drops them.
    pub fn finish(self) -> Result<Chunked<T>, NoMemory>
        ensures { IfOk result (λ made. made ≡ self) }
    {
        let Growing {
            alloc,
            mut chunks,
            row,
        } = self;
        if !row.is_empty() {
            chunks.push(Chunk::of_row(row)?)?;
        }
        Chunked::of_chunks(alloc, chunks)
    }
}
