//! The classes of a style.

ghost use Rattle.std.specs.Prelude.{◌≡◌, ◌++◌, ◌∷◌, [], ◌<◌, length, OnOk, IfErr, slice_get};
ghost use Rattle.std.specs.Option.{option_copied};

use crate::NoMemory;
use crate::sequence::Sequence;
use std::alloc::Global;
use std::marker::Model;

/// Up to 1,024 classes of a style, seen as a list.
#[derive(Drop)]
pub struct Classes<T> {
    items: Sequence<T>,
}

impl<T> Model for Classes<T> {
    ghost use Rattle.std.specs.Prelude.{List};
    ghost use Rattle.cv_model.specs.Classes.{AreClasses};

    ghost Value = { List T };

    ghost view = { λ c. c.items };

    ghost invariant = { λ c. AreClasses {A = T} c.items };
}

impl<T> Classes<T> {
    ghost use Rattle.cv_model.specs.Classes.{AreClasses};

    /// No classes.
    pub fn new(alloc: Global) -> Self
        ensures { result ≡ [] }
    {
        Classes {
            items: Sequence::new(alloc),
        }
    }

    /// These classes, of which there are at most 1,024.
    pub fn of(items: Sequence<T>) -> Self
        requires { AreClasses items }
        ensures { result ≡ items }
    {
        Classes { items }
    }

    /// Puts a class behind the others, where there are fewer than 1,024. A refusal hands it back and
    /// changes nothing.
    pub fn push(&mut self, item: T) -> Result<(), (T, NoMemory)>
        requires room { length self.old < 1024 }
        ensures ok { OnOk result (self.new ≡ self.old ++ item ∷ []) }
        ensures err { IfErr result (λ e. (e.0 ≡ item) × (self.new ≡ self.old)) }
    {
        self.items.push(item)
    }

    /// The class at a place, of which the first is 0. There is none from `len` on.
    pub fn get(&self, at: u64) -> Option<&T>
        ensures { option_copied result ≡ slice_get self.now at }
    {
        self.items.get(at)
    }

    /// How many classes there are.
    pub fn len(&self) -> u64
        ensures { result ≡ length self.now }
    {
        self.items.len()
    }

    /// The classes in order.
    pub fn as_slice(&self) -> &[T]
        ensures items { result.now ≡ self.now }
        ensures few { AreClasses self.now }
    {
        self.items.as_slice()
    }
}
