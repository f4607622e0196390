//! A row of chunks that several lists may hold.

ghost use Rattle.std.specs.Prelude.{◌≡◌, ◌<◌, ◌≤◌, ◌+◌, ◌++◌, ◌^◌, [], true, false, nat_le, length};
ghost use Rattle.std.specs.Prelude.{slice_set, OnOk, OnErr, IfErr, IfOk, insert, remove};
ghost use Rattle.std.specs.List.{flat_map};
ghost use Rattle.cv_chunks.specs.Clones.{ClonesAreEqual};

use crate::NoMemory;
use crate::chunk::Chunk;
use crate::part::{EditedPart, OfRow, Part, ROW, insert_in, remove_in, run_in, set_in, total_of};
use std::alloc::Global;
use std::marker::Model;
use std::sync::Arc;

/// A row of at most 128 chunks, seen as these. Its clones share what it holds until one of them is changed.
#[derive(Drop)]
pub(crate) struct Group<T> {
    count: u64,
    chunks: Arc<Vec<Chunk<T>>, Global>,
}

impl<T> Model for Group<T> {
    ghost use Rattle.std.specs.Prelude.{List};
    ghost use Rattle.std.specs.Arc.{arc_value};
    ghost use Rattle.cv_chunks.specs.Clones.{IsCountOfAll};

    ghost Value = { List (List T) };

    ghost view = { λ g. (arc_value g.chunks).items };

    ghost invariant = { λ g. IsCountOfAll g.count (arc_value g.chunks).items };
}

impl<T: Drop> Group<T> {
    /// A group of clones of these chunks.
    fn of_clones(alloc: Global, chunks: &[Chunk<T>]) -> Result<Self, NoMemory>
        requires { length chunks.now ≤ 128 }
        ensures { IfOk result (λ made. made ≡ chunks.now) }
    {
        let chunks = Vec::from_clones(alloc, chunks)?;
        Group::of_row(chunks)
    }
}

impl<T: Drop> OfRow<Chunk<T>> for Group<T> {
    ghost content = { λ group. group };

    fn of_row(items: Vec<Chunk<T>>) -> Result<Self, NoMemory>
        requires { length items.items ≤ 128 }
        ensures { IfOk result (λ made. made ≡ items.items) }
    {
        let alloc = *items.allocator();
        let count = total_of(items.as_slice())?;
        let chunks = Arc::new(alloc, items)?;
        Ok(Group { count, chunks })
    }
}

impl<T: Drop> Clone for Group<T> {
    ghost is_clone = { λ source clone. clone ≡ source };

    fn clone(&self) -> Result<Self, NoMemory> {
        let chunks = Arc::try_clone(&self.chunks)?;
        Ok(Group {
            count: self.count,
            chunks,
        })
    }
}

impl<T> Part<T> for Group<T> {
    ghost items = { flat_map (λ chunk. chunk) };

    fn len(&self) -> u64 {
        self.count
    }

    fn run_from(&self, at: u64) -> &[T] {
        run_in(self.chunks.as_slice(), at)
    }
}

impl<T: Clone> EditedPart<T> for Group<T> {
    ghost full = { λ group. nat_le 128 (length group) };

    fn empty(alloc: Global) -> Result<Self, NoMemory> {
        let chunks = Arc::new(alloc, Vec::new(alloc))?;
        Ok(Group { count: 0, chunks })
    }

    fn is_full(&self) -> bool {
        self.chunks.len() >= ROW
    }

    fn split(&mut self) -> Result<Self, NoMemory> {
        let alloc = *self.chunks.allocator();
        let chunks = self.chunks.as_slice();
        let (front, back) = chunks.split_at(chunks.len() / 2);
        let back = Group::of_clones(alloc, back)?;
        *self = Group::of_clones(alloc, front)?;
        Ok(back)
    }

    fn set(&mut self, at: u64, value: T) -> Result<(), (T, NoMemory)> {
        let chunks = match Arc::make_mut(&mut self.chunks) {
            Ok(chunks) => chunks,
            Err(refused) => return Err((value, refused)),
        };
        set_in(chunks, at, value)
    }

    fn insert(&mut self, at: u64, value: T) -> Result<(), (T, NoMemory)> {
        let chunks = match Arc::make_mut(&mut self.chunks) {
            Ok(chunks) => chunks,
            Err(refused) => return Err((value, refused)),
        };
        let alloc = *chunks.allocator();
        insert_in(chunks, alloc, self.count, at, value)?;
        self.count += 1;
        Ok(())
    }

    fn remove(&mut self, at: u64) -> Result<(), NoMemory> {
        let chunks = Arc::make_mut(&mut self.chunks)?;
        remove_in(chunks, at)?;
        self.count -= 1;
        Ok(())
    }
}
