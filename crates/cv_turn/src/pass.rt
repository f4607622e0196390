//! What a caller has of a turn: its pass, and notes that tell others what it has seen.
ghost use Rattle.std.specs.Prelude.{◌≡◌, None, length};

use crate::held::Held;
use crate::rule::Place;
use std::marker::Model;

/// A caller's place at a turn. It has a range of numbers, of which the first is its own.
#[derive(Drop)]
pub struct Pass<H: Held> {
    pub(crate) seat: Place<H>,
    pub(crate) first: u32,
    pub(crate) count: u32,
    /// The length of the list as it was seen last, in a turn as it was at `enter`.
    pub(crate) length: u64,
}

impl<H: Held> Model for Pass<H> {
    ghost use Rattle.cv_turn.specs.Pass.{Knowledge, knowledge_of, IsPass};

    ghost Value = { Knowledge H.Fixed H.Entry };

    ghost view = { λ p. knowledge_of p.seat.table_id p.seat.id p.seat.me.0 };

    ghost invariant = { λ p. IsPass p.seat.me p.first p.count p.length };
}

impl<H: Held> Pass<H> {
    /// The pass's own number.
    pub fn number(&self) -> u32
        ensures { result ≡ self.now.first }
    {
        self.first
    }

    /// The length of the list as the pass has seen it last.
    pub fn seen(&self) -> u64
        requires { self.now.turn ≡ None }
        ensures { result ≡ length self.now.seen }
    {
        self.length
    }
}

/// What a pass had seen when it made the note, for another pass of the same turn.
#[derive(Drop)]
pub struct Note<H: Held> {
    pub(crate) seat: Place<H>,
    pub(crate) length: u64,
}

impl<H: Held> Model for Note<H> {
    ghost use Rattle.cv_turn.specs.Pass.{Knowledge, knowledge_of, IsNote};

    ghost Value = { Knowledge H.Fixed H.Entry };

    ghost view = { λ n. knowledge_of n.seat.table_id n.seat.id n.seat.me.0 };

    ghost invariant = { λ n. IsNote n.seat.me n.length };
}
