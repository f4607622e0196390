//! The lock: who holds a pass can take the value in turn, hand over numbers, and tell what it has seen.
ghost use Rattle.std.specs.Prelude.{◌≡◌, ◌+◌, ◌-◌, ◌<◌, ◌≤◌, ◌↔◌, [], ◌++◌, length, take, drop, replicate};
ghost use Rattle.std.specs.Prelude.{Some, None, All, IfOk, IsOkAnd, IsTrue};
ghost use Rattle.cv_turn.specs.Guard.{held_of, IsGuardOf};
ghost use Rattle.cv_turn.specs.Held.{StartsWith, longer};
ghost use Rattle.cv_turn.specs.Pass.{HasOwn, IsFirst, IsNoteOf, IsPartOf, MayLeave, after_join, after_turn};
ghost use Rattle.cv_turn.specs.Pass.{without_last};

use crate::NoMemory;
use crate::guard::Guard;
use crate::held::Held;
use crate::pass::{Note, Pass};
use crate::rule::{About, Base};
use crate::steps::{cut, draw, merge, put_back, take, take_out};
use std::alloc::{AllocError, Global};
use std::marker::Model;
use std::snapshot::Snapshot;
use std::sync::Wait;

/// A value that the holders of passes have in turn, in the order in which they drew their tickets.
#[derive(Drop)]
pub struct Turn<H: Held> {
    base: Base<H>,
    callers: u32,
}

impl<H: Held> Model for Turn<H> {
    ghost use Rattle.std.specs.Prelude.{◌≡◌};
    ghost use Rattle.cv_turn.specs.Rule.{IsSized};
    ghost use Rattle.cv_turn.specs.Turn.{Shared};

    ghost Value = { Shared };

    ghost view = { λ t. record { table = t.base.shared.table_id; callers = t.callers } };

    ghost invariant = { λ t. IsSized t.base.shared.table_id × (t.base.shared.key.callers ≡ t.callers) };
}

impl<H: Held> Turn<H> {
    /// A turn round the value, and the pass with the numbers from 0 to `callers`. A refusal drops the value.
    pub fn new(alloc: Global, held: H, callers: u32) -> Result<(Turn<H>, Pass<H>), NoMemory>
        requires callers { (0 < callers) × (callers ≤ 64) }
        requires empty { H.entries held ≡ [] }
        ensures turn { IfOk result (λ r. r.0.callers ≡ callers) }
        ensures pass { IfOk result (λ r. IsFirst r.0.table (H.fixed held) callers r.1) }
    {
        let about = About {
            callers,
            start: Snapshot::of(&held),
        };
        let mut slots = Vec::new(alloc);
        slots.push(Some(held))?;
        let Ok((base, seat)) = Base::<H>::new(alloc, &[0, 0, 0], slots, &about) else {
            return Err(AllocError);
        };
        let pass = Pass {
            seat,
            first: 0,
            count: callers,
            length: 0,
        };
        Ok((Turn { base, callers }, pass))
    }

    /// Waits for the pass's turn, and gives the value to the caller alone. No memory.
    pub fn enter<R: Wait>(&self, rt: &R, pass: &mut Pass<H>) -> Guard<H>
        requires own { pass.old.table ≡ self.now.table }
        requires free { pass.old.turn ≡ None }
        ensures fixed { pass.old.fixed ≡ Some (H.fixed (held_of result)) }
        ensures seen { StartsWith (H.entries (held_of result)) pass.old.seen }
        ensures own { HasOwn H.caller pass.old (H.entries (held_of result)) }
        ensures pass { pass.new ≡ record pass.old { turn = Some (H.entries (held_of result)) } }
        ensures guard { IsGuardOf pass.new result }
    {
        let ticket = draw(&self.base, &mut pass.seat);
        let held = take(rt, &self.base, &mut pass.seat, ticket);
        pass.length = held.len();
        let of = Snapshot::of(&pass.seat);
        Guard { held, of }
    }

    /// Ends the pass's turn, and counts the entry that the caller added, if there is one. No memory.
    pub fn leave(&self, pass: &mut Pass<H>, guard: Guard<H>)
        requires own { pass.old.table ≡ self.now.table }
        requires guard { IsGuardOf pass.old guard }
        requires fixed { pass.old.fixed ≡ Some (H.fixed (held_of guard)) }
        requires list { MayLeave H.caller pass.old.first pass.old.turn (H.entries (held_of guard)) }
        ensures { pass.new ≡ after_turn pass.old (H.entries (held_of guard)) }
    {
        let Guard { held, of: _ } = guard;
        let before = pass.length;
        pass.length = put_back(&self.base, &mut pass.seat, held, before);
    }

    /// Hands over the last `callers` numbers of the pass to a new one, which has seen what this one has. It
    /// is never refused, since it takes no memory here.
    pub fn split(&self, pass: &mut Pass<H>, callers: u32) -> Result<Pass<H>, NoMemory>
        requires own { pass.old.table ≡ self.now.table }
        requires free { pass.old.turn ≡ None }
        requires range { (0 < callers) × (callers < length pass.old.own) }
        ensures kept { pass.new ≡ without_last callers pass.old }
        ensures given { IsOkAnd result (IsPartOf pass.old callers) }
    {
        let seat = cut(&self.base, &mut pass.seat, u64::from(callers));
        pass.count -= callers;
        Ok(Pass {
            seat,
            first: pass.first + pass.count,
            count: callers,
            length: pass.length,
        })
    }

    /// Takes in a pass whose numbers begin where this one's end, and sees what that one had seen. No memory.
    pub fn join(&self, pass: &mut Pass<H>, other: Pass<H>)
        requires own { (pass.old.table ≡ self.now.table) × (other.table ≡ self.now.table) }
        requires free { (pass.old.turn ≡ None) × (other.turn ≡ None) }
        requires next { other.first ≡ pass.old.first + length pass.old.own }
        ensures both { pass.new ≡ after_join pass.old other }
        ensures own_seen { StartsWith pass.new.seen pass.old.seen }
        ensures other_seen { StartsWith pass.new.seen other.seen }
    {
        let Pass {
            seat,
            first: _,
            count,
            length,
        } = other;
        merge(&self.base, &mut pass.seat, seat);
        pass.count += count;
        pass.length = pass.length.max(length);
    }

    /// A note of what the pass has seen, for another pass. It is never refused, since it takes no memory
    /// here.
    pub fn note(&self, pass: &mut Pass<H>) -> Result<Note<H>, NoMemory>
        requires own { pass.old.table ≡ self.now.table }
        requires free { pass.old.turn ≡ None }
        ensures same { pass.new ≡ pass.old }
        ensures note { IsOkAnd result (IsNoteOf pass.old) }
    {
        let seat = cut(&self.base, &mut pass.seat, 0);
        Ok(Note {
            seat,
            length: pass.length,
        })
    }

    /// Sees what the note's pass had seen when it made the note. No memory.
    pub fn meet(&self, pass: &mut Pass<H>, note: Note<H>)
        requires own { (pass.old.table ≡ self.now.table) × (note.table ≡ self.now.table) }
        requires free { pass.old.turn ≡ None }
        ensures both { pass.new ≡ record pass.old { seen = longer pass.old.seen note.seen } }
        ensures own_seen { StartsWith pass.new.seen pass.old.seen }
        ensures note_seen { StartsWith pass.new.seen note.seen }
    {
        let Note { seat, length } = note;
        merge(&self.base, &mut pass.seat, seat);
        pass.length = pass.length.max(length);
    }

    /// Whether the pass has all numbers again.
    pub fn whole(&self, pass: &Pass<H>) -> bool
        requires own { pass.now.table ≡ self.now.table }
        requires free { pass.now.turn ≡ None }
        ensures { IsTrue result ↔ (length pass.now.own ≡ self.now.callers) }
    {
        pass.count == self.callers
    }

    /// Ends the turn, and gives the value. No memory.
    pub fn close(self, pass: Pass<H>) -> H
        requires own { pass.table ≡ self.table }
        requires free { pass.turn ≡ None }
        requires whole { length pass.own ≡ self.callers }
        ensures fixed { pass.fixed ≡ Some (H.fixed result) }
        ensures seen { StartsWith (H.entries result) pass.seen }
        ensures first { pass.first ≡ 0 }
        ensures own { HasOwn H.caller pass (H.entries result) }
        ensures named { All (λ e. H.caller e < self.callers) (H.entries result) }
    {
        let Turn { base, callers: _ } = self;
        let Pass {
            seat,
            first: _,
            count: _,
            length: _,
        } = pass;
        take_out(base, seat)
    }
}
