//! Why bytes are no script.

ghost use Rattle.std.specs.Prelude.{◌≡◌};
ghost use Rattle.cv_script.specs.declared.error.Refusal.TheVariants.{NoMemory};

use std::alloc::AllocError;

/// Why a file is no script.
#[derive(Clone, Copy, Debug, PartialEq, Eq)]
pub enum ScriptError {
    /// The first line, counted from 1, that isn't in the grammar, or that is behind the 100,000th.
    BadLine(u32),
    /// No memory for the answer.
    NoMemory,
}

/// Why a line isn't read.
#[derive(Clone, Copy, Debug, PartialEq, Eq)]
pub enum Refusal {
    /// It isn't in the grammar.
    Bad,
    /// No memory for what it says.
    NoMemory,
}

impl From<AllocError> for Refusal {
    ghost from_gives = { λ _ e. e ≡ NoMemory };

    fn from(_error: AllocError) -> Refusal {
        Refusal::NoMemory
    }
}
