//! The value of a turn, with the pass that has it.
ghost use Rattle.std.specs.Prelude.{◌≡◌};
ghost use Rattle.std.specs.Borrow.{sem, Lends};
ghost use Rattle.cv_turn.specs.contracts.guard.Guard.{the_row};
ghost use Rattle.cv_turn.specs.Guard.{held_of, with_held};

use crate::held::Held;
use crate::rule::Place;
use std::snapshot::Snapshot;

/// The value from `enter` to `leave`. It can't be let go: `leave` takes it back.
pub struct Guard<H: Held> {
    pub(crate) held: H,
    pub(crate) of: Snapshot<Place<H>>,
}

impl<H: Held> Guard<H> {
    /// The value, which the caller alone has. It takes no memory.
    pub fn held(&mut self) -> &mut H
        ensures* lends { sem 𝓛 (Lends (the_row H.row H.Fixed.row H.Entry.row) H.row self.entry result
            (with_held self.old)) }
        ensures value { result.now ≡ held_of self.old }
    {
        &mut self.held
    }
}
