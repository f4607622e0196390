//! What each step on the table tells the seat that makes it.
use crate::held::Held;
use crate::view::View;
use atomic_table::{Join, Play, Split};
use std::marker::PhantomData;

/// A ticket is drawn.
pub(crate) struct Draws;

impl<S, F, E> Play<S, View<F, E>> for Draws {
    ghost use Rattle.cv_turn.specs.Plays.{HasDrawn};

    ghost then = { HasDrawn };
}

/// The served ticket is read, and the slot taken where it is the seat's.
pub(crate) struct Looks<H> {
    held: PhantomData<H>,
}

impl<H: Held> Play<Option<H>, View<H::Fixed, H::Entry>> for Looks<H> {
    ghost use Rattle.cv_turn.specs.Plays.{HasLooked};

    ghost then = { HasLooked H.fixed H.entries H.caller };
}

/// The list is seen as it is in the slot that the seat holds, and its new entry counted, if there is one.
pub(crate) struct Counts<H> {
    held: PhantomData<H>,
}

impl<H: Held> Play<Option<H>, View<H::Fixed, H::Entry>> for Counts<H> {
    ghost use Rattle.cv_turn.specs.Plays.{HasCounted};

    ghost then = { HasCounted H.entries };
}

/// The next ticket is served, and the slot given back.
pub(crate) struct Serves;

impl<S, F, E> Play<S, View<F, E>> for Serves {
    ghost use Rattle.cv_turn.specs.Plays.{HasServed};

    ghost then = { HasServed };
}

/// The seat says how many numbers it is about to hand over.
pub(crate) struct Plans;

impl<S, F, E> Play<S, View<F, E>> for Plans {
    ghost use Rattle.cv_turn.specs.Plays.{HasPlanned};

    ghost then = { HasPlanned };
}

/// So many numbers are handed over.
pub(crate) struct Cuts;

impl<F, E> Split<View<F, E>> for Cuts {
    ghost use Rattle.cv_turn.specs.View.{kept_part, given_part};

    ghost left = { kept_part };

    ghost right = { given_part };
}

/// Another seat's numbers are taken in, and what it had seen is told.
pub(crate) struct Meets;

impl<F, E> Join<View<F, E>> for Meets {
    ghost use Rattle.cv_turn.specs.View.{joined, spent};

    ghost both = { joined };

    ghost spent = { spent };
}

/// What was told is seen.
pub(crate) struct Learns;

impl<S, F, E> Play<S, View<F, E>> for Learns {
    ghost use Rattle.cv_turn.specs.Plays.{HasLearned};

    ghost then = { HasLearned };
}
