//! Why a tree is no project.

ghost use Rattle.std.specs.Prelude.{◌≡◌};
ghost use Rattle.cv_project.specs.declared.refusal.Refusal.TheVariants.{NoMemory};

use cv_model::Text;
use std::alloc::AllocError;

/// The refusal that decides. The texts are paths.
#[derive(Drop)]
pub enum Refusal {
    /// A field that must be there isn't.
    Missing(Text),
    /// A value of another kind, or spelled otherwise.
    WrongKind(Text),
    /// A key that is no field's.
    Unknown(Text),
    /// An id that an earlier layer has.
    Duplicate(u32),
    /// A value out of its range.
    Limit(Text),
    /// A version other than 1 and 2.
    BadVersion,
    /// No memory for the answer.
    NoMemory,
}

impl From<AllocError> for Refusal {
    ghost from_gives = { λ _ e. e ≡ NoMemory };

    fn from(_error: AllocError) -> Refusal {
        Refusal::NoMemory
    }
}
