//! The list of what a session did.

ghost use Rattle.std.specs.Prelude.{◌≡◌, ◌++◌, ◌∷◌, [], ◌≤◌, ◌+◌, length, slice_get, OnOk};
ghost use Rattle.std.specs.Option.{option_copied};

use crate::entry::Entry;
use cv_model::NoMemory;
use std::alloc::Global;
use std::marker::Model;

/// The entries of a session in order, seen as their list and the number of places set aside for more.
#[derive(Drop)]
pub struct Journal {
    entries: Vec<Entry>,
}

impl Model for Journal {
    ghost use Rattle.std.specs.Prelude.{◌-◌, vec_capacity, vec_len};
    ghost use Rattle.cv_event.specs.States.{JournalParts};

    ghost Value = { JournalParts };

    ghost view = { λ j. record {
      entries = j.entries.items;
      spare = vec_capacity j.entries - vec_len j.entries;
    } };
}

impl Journal {
    /// The empty journal.
    pub fn new(alloc: Global) -> Journal
        ensures { result.entries ≡ [] }
    {
        Journal {
            entries: Vec::new(alloc),
        }
    }

    /// Sets places aside, so that at least `places` entries more can be put, beside those that are there.
    pub fn reserve(&mut self, places: u64) -> Result<(), NoMemory>
        ensures entries { self.new.entries ≡ self.old.entries }
        ensures kept { self.old.spare ≤ self.new.spare }
        ensures ok { OnOk result (places ≤ self.new.spare) }
    {
        self.entries.reserve(places as usize)
    }

    /// Puts an entry behind the others, at a place set aside.
    pub fn push(&mut self, entry: Entry)
        requires { 1 ≤ self.old.spare }
        ensures entries { self.new.entries ≡ self.old.entries ++ entry ∷ [] }
        ensures spare { self.old.spare ≤ self.new.spare + 1 }
    {
        let _ = self.entries.push(entry);
    }

    /// The entry at a place, of which the first is 0. There is none from `len` on.
    pub fn get(&self, at: u64) -> Option<&Entry>
        ensures { option_copied result ≡ slice_get self.now.entries at }
    {
        self.entries.get(at as usize)
    }

    /// How many entries there are.
    pub fn len(&self) -> u64
        ensures { result ≡ length self.now.entries }
    {
        self.entries.len() as u64
    }

    /// The entries in order.
    pub fn as_slice(&self) -> &[Entry]
        ensures { result.now ≡ self.now.entries }
    {
        self.entries.as_slice()
    }
}
