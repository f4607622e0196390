//! A list whose versions share what an edit didn't touch.

ghost use Rattle.std.specs.Prelude.{◌≡◌, ◌<◌, ◌≤◌, ◌+◌, ◌++◌, ◌∷◌, ◌^◌, [], length, slice_get, slice_set};
ghost use Rattle.std.specs.Prelude.{OnOk, OnErr, IfErr, IfOk, insert, remove};
ghost use Rattle.std.specs.List.{flat_map};
ghost use Rattle.std.specs.Option.{option_copied};
ghost use Rattle.cv_chunks.specs.Clones.{ClonesAreEqual};
ghost use Rattle.cv_chunks.specs.Parts.{IsRunFrom};
ghost use Rattle.cv_chunks.specs.Trees.{elements_of};
ghost use Rattle.std.specs.Prelude.{IsSome};

use crate::NoMemory;
use crate::chunk::Chunk;
use crate::group::Group;
use crate::part::{insert_in, remove_in, rows_of, run_in, set_in, total_of};
use std::alloc::{AllocError, Global};
use std::marker::Model;
use std::sync::Arc;

/// A list, seen as that list alone.
///
/// Its elements stand in chunks of at most 128, and the chunks in groups of at most 128. The lists that
/// [`Chunked::share`] made of one another have their chunks in common until one of them is changed. An edit
/// of a list that has nothing in common with another is done in place. Else it copies the pointers to the
/// groups, the pointers of one group and the elements of one chunk. With 1,000,000 elements in full chunks
/// these are 62, 128 and 128, and no more than that of two groups and two chunks where a full one is cut.
/// `get` adds up at most as many counts as there are groups and chunks in one group; they stand beside the
/// pointers.
///
/// An `insert` cuts a full chunk in the middle, and a chunk that `remove` left empty goes; chunks aren't
/// joined. So there are never more chunks than elements. A list that was made by `of` or `push` alone has
/// full ones.
///
/// What it costs to copy an element is the element's affair: large ones are held as
/// [`Shared`](crate::Shared).
#[derive(Drop)]
pub struct Chunked<T> {
    count: u64,
    groups: Option<Arc<Vec<Group<T>>, Global>>,
    alloc: Global,
}

impl<T> Model for Chunked<T> {
    ghost use Rattle.std.specs.Prelude.{List, ◌≡◌, length};
    ghost use Rattle.cv_chunks.specs.Trees.{elements_of};

    ghost Value = { List T };

    ghost view = { λ c. elements_of c.groups };

    ghost invariant = { λ c. c.count ≡ length (elements_of c.groups) };
}

impl<T> Chunked<T> {
    /// The empty list. Takes no memory.
    pub fn new(alloc: Global) -> Self
        ensures { result ≡ [] }
    {
        Chunked {
            count: 0,
            groups: None,
            alloc,
        }
    }

    /// How many elements there are.
    pub fn len(&self) -> u64
        ensures { result ≡ length self.now }
    {
        self.count
    }

    /// The element at a place, of which the first is 0. There is none from `len` on.
    pub fn get(&self, at: u64) -> Option<&T>
        ensures { option_copied result ≡ slice_get self.now at }
    {
        if at < self.count {
            self.run_from(at).first()
        } else {
            None
        }
    }

    /// The elements from a place on that stand side by side in memory, as many as these are.
    pub fn run_from(&self, at: u64) -> &[T]
        requires { at < length self.now }
        ensures { IsRunFrom self.now at result.now }
    {
        let Some(groups) = &self.groups else {
            unreachable!()
        };
        run_in(groups.as_slice(), at)
    }

    /// Another list of these elements, which has them in common with this one. It takes as long for any
    /// number.
    pub fn share(&self) -> Result<Chunked<T>, NoMemory>
        ensures { IfOk result (λ shared. shared ≡ self.now) }
    {
        let groups = match &self.groups {
            Some(groups) => Some(Arc::try_clone(groups)?),
            None => None,
        };
        Ok(Chunked {
            count: self.count,
            groups,
            alloc: self.alloc,
        })
    }
}

impl<T: Drop> Chunked<T> {
    /// The list of these elements, which are moved into it: none is cloned. A refusal drops them.
    pub fn of(elements: Vec<T>) -> Result<Chunked<T>, NoMemory>
        ensures { IfOk result (λ made. made ≡ elements.items) }
    {
        let alloc = *elements.allocator();
        Chunked::of_chunks(alloc, rows_of(elements)?)
    }

    /// The list of the elements of these chunks, in order. A refusal drops them.
    pub(crate) fn of_chunks(alloc: Global, chunks: Vec<Chunk<T>>) -> Result<Chunked<T>, NoMemory>
        ensures { IfOk result (λ made. made ≡ flat_map (λ chunk. chunk) chunks.items) }
    {
        let groups: Vec<Group<T>> = rows_of(chunks)?;
        let count = total_of(groups.as_slice())?;
        let root = Arc::new(alloc, groups)?;
        Ok(Chunked {
            count,
            groups: Some(root),
            alloc,
        })
    }
}

/// Makes the row of groups where there is none yet.
fn make_root<T: Drop>(
    alloc: Global,
    groups: &mut Option<Arc<Vec<Group<T>>, Global>>,
) -> Result<(), NoMemory>
    ensures same { elements_of groups.new ≡ elements_of groups.old }
    ensures ok { OnOk result (IsSome groups.new) }
{
    if groups.is_none() {
        let root = Arc::new(alloc, Vec::new(alloc))?;
        *groups = Some(root);
    }
    Ok(())
}

impl<T: Clone> Chunked<T> {
    /// Puts a value into the place of an element. A refusal hands it back and changes nothing.
    pub fn set(&mut self, at: u64, value: T) -> Result<(), (T, NoMemory)>
        requires within { at < length self.old }
        requires clones { ClonesAreEqual T.is_clone }
        ensures ok { OnOk result (self.new ≡ slice_set self.old at value) }
        ensures err { IfErr result (λ e. (e.0 ≡ value) × (self.new ≡ self.old)) }
    {
        let Some(groups) = &mut self.groups else {
            unreachable!()
        };
        let groups = match Arc::make_mut(groups) {
            Ok(groups) => groups,
            Err(refused) => return Err((value, refused)),
        };
        set_in(groups, at, value)
    }

    /// Puts a value behind all elements. A refusal hands it back and changes nothing.
    pub fn push(&mut self, value: T) -> Result<(), (T, NoMemory)>
        requires { ClonesAreEqual T.is_clone }
        ensures ok { OnOk result (self.new ≡ self.old ++ value ∷ []) }
        ensures err { IfErr result (λ e. (e.0 ≡ value) × (self.new ≡ self.old)) }
    {
        self.insert(self.count, value)
    }

    /// Puts a value before the element at a place, or behind all. A refusal hands it back and changes
    /// nothing.
    pub fn insert(&mut self, at: u64, value: T) -> Result<(), (T, NoMemory)>
        requires up_to_end { at ≤ length self.old }
        requires clones { ClonesAreEqual T.is_clone }
        ensures ok { OnOk result (self.new ≡ insert self.old at value) }
        ensures err { IfErr result (λ e. (e.0 ≡ value) × (self.new ≡ self.old)) }
    {
        if self.count == u64::MAX {
            return Err((value, AllocError));
        }
        if let Err(refused) = make_root(self.alloc, &mut self.groups) {
            return Err((value, refused));
        }
        let Some(groups) = &mut self.groups else {
            unreachable!()
        };
        let groups = match Arc::make_mut(groups) {
            Ok(groups) => groups,
            Err(refused) => return Err((value, refused)),
        };
        insert_in(groups, self.alloc, self.count, at, value)?;
        self.count += 1;
        Ok(())
    }

    /// Takes an element out. A refusal changes nothing.
    pub fn remove(&mut self, at: u64) -> Result<(), NoMemory>
        requires within { at < length self.old }
        requires clones { ClonesAreEqual T.is_clone }
        ensures ok { OnOk result (self.new ≡ remove self.old at) }
        ensures err { OnErr result (self.new ≡ self.old) }
    {
        let Some(groups) = &mut self.groups else {
            unreachable!()
        };
        let groups = Arc::make_mut(groups)?;
        remove_in(groups, at)?;
        self.count -= 1;
        Ok(())
    }
}
