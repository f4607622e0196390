//! A run of elements that stand side by side in memory and that several lists may hold.

ghost use Rattle.std.specs.Prelude.{◌≡◌, ◌<◌, ◌≤◌, ◌+◌, ◌++◌, ◌^◌, [], true, false, nat_le, length};
ghost use Rattle.std.specs.Prelude.{slice_set, OnOk, OnErr, IfErr, IfOk, insert, remove};
ghost use Rattle.cv_chunks.specs.Clones.{ClonesAreEqual};

use crate::NoMemory;
use crate::part::{EditedPart, OfRow, Part, ROW};
use std::alloc::Global;
use std::marker::Model;
use std::sync::Arc;

/// A run of at most 128 elements, seen as these. Its clones share what it holds until one of them is changed.
#[derive(Drop)]
pub(crate) struct Chunk<T> {
    count: u64,
    elements: Arc<Vec<T>, Global>,
}

impl<T> Model for Chunk<T> {
    ghost use Rattle.std.specs.Prelude.{List, ◌≡◌, ◌≤◌, length};
    ghost use Rattle.std.specs.Arc.{arc_value};
    ghost use Rattle.cv_chunks.specs.Clones.{IsCountOf};

    ghost Value = { List T };

    ghost view = { λ c. (arc_value c.elements).items };

    ghost invariant = { λ c. IsCountOf c.count (arc_value c.elements).items };
}

impl<T: Clone> Chunk<T> {
    /// A chunk of clones of these elements.
    fn of_clones(alloc: Global, elements: &[T]) -> Result<Self, NoMemory>
        requires short { length elements.now ≤ 128 }
        requires clones { ClonesAreEqual T.is_clone }
        ensures { IfOk result (λ made. made ≡ elements.now) }
    {
        let elements = Vec::from_clones(alloc, elements)?;
        Chunk::of_row(elements)
    }
}

impl<T: Drop> OfRow<T> for Chunk<T> {
    ghost content = { λ chunk. chunk };

    fn of_row(items: Vec<T>) -> Result<Self, NoMemory>
        requires { length items.items ≤ 128 }
        ensures { IfOk result (λ made. made ≡ items.items) }
    {
        let alloc = *items.allocator();
        let count = items.len() as u64;
        let elements = Arc::new(alloc, items)?;
        Ok(Chunk { count, elements })
    }
}

impl<T: Drop> Clone for Chunk<T> {
    ghost is_clone = { λ source clone. clone ≡ source };

    fn clone(&self) -> Result<Self, NoMemory> {
        let elements = Arc::try_clone(&self.elements)?;
        Ok(Chunk {
            count: self.count,
            elements,
        })
    }
}

impl<T> Part<T> for Chunk<T> {
    ghost items = { λ chunk. chunk };

    fn len(&self) -> u64 {
        self.count
    }

    fn run_from(&self, at: u64) -> &[T] {
        &self.elements.as_slice()[at as usize..]
    }
}

impl<T: Clone> EditedPart<T> for Chunk<T> {
    ghost full = { λ chunk. nat_le 128 (length chunk) };

    fn empty(alloc: Global) -> Result<Self, NoMemory> {
        let elements = Arc::new(alloc, Vec::new(alloc))?;
        Ok(Chunk { count: 0, elements })
    }

    fn is_full(&self) -> bool {
        self.count >= ROW as u64
    }

    fn split(&mut self) -> Result<Self, NoMemory> {
        let alloc = *self.elements.allocator();
        let elements = self.elements.as_slice();
        let (front, back) = elements.split_at(elements.len() / 2);
        let back = Chunk::of_clones(alloc, back)?;
        *self = Chunk::of_clones(alloc, front)?;
        Ok(back)
    }

    fn set(&mut self, at: u64, value: T) -> Result<(), (T, NoMemory)> {
        match Arc::make_mut(&mut self.elements) {
            Ok(elements) => {
                elements[at as usize] = value;
                Ok(())
            }
            Err(refused) => Err((value, refused)),
        }
    }

    fn insert(&mut self, at: u64, value: T) -> Result<(), (T, NoMemory)> {
        let elements = match Arc::make_mut(&mut self.elements) {
            Ok(elements) => elements,
            Err(refused) => return Err((value, refused)),
        };
        match elements.insert(at as usize, value) {
            Ok(()) => {
                self.count += 1;
                Ok(())
            }
            Err(refused) => Err((refused.value, std::alloc::AllocError)),
        }
    }

    fn remove(&mut self, at: u64) -> Result<(), NoMemory> {
        let elements = Arc::make_mut(&mut self.elements)?;
        drop(elements.remove(at as usize));
        self.count -= 1;
        Ok(())
    }
}
