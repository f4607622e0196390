//! Why a painting was given up.

ghost use Rattle.std.specs.Prelude.{◌≡◌};
ghost use Rattle.cv_paint.specs.declared.error.PaintError.TheVariants.{NoMemory};

use std::alloc::AllocError;

/// Why a painting was given up. What was painted until then is thrown away by the call itself.
#[derive(Clone, Copy, Debug, PartialEq, Eq)]
pub enum PaintError {
    /// The stop said yes, once, and wasn't asked again.
    Stopped,
    /// There was no memory. The stop had said no yes until then.
    NoMemory,
}

impl From<AllocError> for PaintError {
    ghost from_gives = { λ _ e. e ≡ NoMemory };

    fn from(_error: AllocError) -> PaintError {
        PaintError::NoMemory
    }
}
