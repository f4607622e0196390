//! A value that several lists may hold at once.

ghost use Rattle.std.specs.Prelude.{◌≡◌, IfOk, IfErr};

use crate::NoMemory;
use std::alloc::{AllocError, Global};
use std::marker::Model;
use std::sync::Arc;

/// A value that several lists may hold at once, seen as that value.
///
/// Its clones are pointers to the one value. So a copy of a chunk of a `Chunked<Shared<T>>` copies nothing
/// of what `T` holds.
#[derive(Debug, Drop)]
pub struct Shared<T> {
    value: Arc<T, Global>,
}

impl<T> Model for Shared<T> {
    ghost use Rattle.std.specs.Arc.{arc_value};

    ghost Value = { T };

    ghost view = { λ s. arc_value s.value };
}

impl<T> Shared<T> {
    /// The value, moved to where it can be shared. A refusal hands it back.
    pub fn of(alloc: Global, value: T) -> Result<Shared<T>, (T, NoMemory)>
        ensures ok { IfOk result (λ made. made ≡ value) }
        ensures err { IfErr result (λ e. e.0 ≡ value) }
    {
        match Arc::new(alloc, value) {
            Ok(value) => Ok(Shared { value }),
            Err(refused) => Err((refused.value, AllocError)),
        }
    }

    /// The value itself.
    pub fn value(&self) -> &T
        ensures { result.now ≡ self.now }
    {
        &self.value
    }
}

impl<T: Drop> Clone for Shared<T> {
    ghost is_clone = { λ source clone. clone ≡ source };

    fn clone(&self) -> Result<Shared<T>, NoMemory> {
        let value = Arc::try_clone(&self.value)?;
        Ok(Shared { value })
    }
}
