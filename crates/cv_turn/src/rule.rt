//! The table that all passes of one turn share, and its rule.
//! Word 0 counts the entries, word 1 gives out the tickets, and word 2 is the ticket that is served.
//! The one slot has the value, or nothing while a turn is held.
use crate::held::Held;
use crate::view::View;
use atomic_table::{Seat, Table, TableRule};
use std::alloc::Global;
use std::marker::PhantomData;
use std::snapshot::Snapshot;

/// What a table is told once: how many numbers there are, and the value as it was at first.
#[derive(Drop)]
pub struct About<H> {
    pub callers: u32,
    pub start: Snapshot<H>,
}

/// The rule of a turn over values of `H`.
pub struct Turns<H> {
    held: PhantomData<H>,
}

impl<H: Held> TableRule<Option<H>, View<H::Fixed, H::Entry>, About<H>> for Turns<H> {
    ghost use Rattle.cv_turn.specs.Rule.{Kept};
    ghost use Rattle.cv_turn.specs.View.{newcomer};

    ghost holds = { λ about. Kept H.fixed H.entries H.caller (H.fixed about.start.value) about.callers };

    ghost first = { λ about. newcomer (H.fixed about.start.value) about.callers };
}

/// The table with its memory.
pub type Base<H> = Table<
    Option<H>,
    View<<H as Held>::Fixed, <H as Held>::Entry>,
    About<H>,
    Turns<H>,
    Global,
>;

/// A token at the table. It has no bytes.
pub type Place<H> = Seat<Option<H>, View<<H as Held>::Fixed, <H as Held>::Entry>>;
