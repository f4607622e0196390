//! The steps of a turn, on a seat at the table.
ghost use Rattle.std.specs.Prelude.{◌≡◌, ◌+◌, ◌<◌, ◌≤◌, [], ◌∷◌, length, true, false, Some, None, All};
ghost use Rattle.cv_turn.specs.Pass.{MayAdd};
ghost use Rattle.cv_turn.specs.Plays.{IsTrueOf};
ghost use Rattle.cv_turn.specs.Rule.{IsSized, IsSeatOf, IsSameSeat, IsIdle, IsWaiting, IsInTurn};
ghost use Rattle.cv_turn.specs.View.{drawn, entered, counted, unticketed, planned, kept_part, given_part};
ghost use Rattle.cv_turn.specs.View.{joined, looked};
ghost use Rattle.cv_turn.specs.Held.{StartsWith};

use crate::held::Held;
use crate::plays::{Counts, Cuts, Draws, Learns, Looks, Meets, Plans, Serves};
use crate::rule::{Base, Place};
use crossbeam_utils::Backoff;
use std::sync::Wait;

/// Draws the next ticket.
pub(crate) fn draw<H: Held>(base: &Base<H>, seat: &mut Place<H>) -> u64
    requires table { IsSeatOf base.now.shared.table_id seat.old }
    requires idle { IsIdle seat.old.me × (0 < seat.old.me.0.count) }
    ensures seat { IsSameSeat seat.old seat.new }
    ensures drawn { seat.new.me ≡ (drawn seat.old.me.0 result, []) }
{
    base.shared.fetch_add::<Draws>(seat, 1, 1)
}

/// Waits for the ticket's turn and takes the value. It looks and yields a few times, and then sleeps
/// between looks until a turn ends.
pub(crate) fn take<H: Held, R: Wait>(rt: &R, base: &Base<H>, seat: &mut Place<H>, ticket: u64) -> H
    requires table { IsSeatOf base.now.shared.table_id seat.old }
    requires waits { IsWaiting ticket seat.old.me }
    ensures seat { IsSameSeat seat.old seat.new }
    ensures taken { seat.new.me ≡ (entered seat.old.me.0 (H.entries result), (0, None) ∷ []) }
    ensures value { IsTrueOf H.fixed H.entries H.caller seat.old.me.0 result }
{
    let backoff = Backoff::new();
    for _ in rt.forever() {
        let served = base.shared.load::<Looks<H>>(seat, 2);
        if served == ticket {
            return base.shared.exchange(seat, 0, None).unwrap();
        }
        if backoff.is_completed() {
            base.shared.park(rt, 2, (served % (1 << 32)) as u32);
        } else {
            backoff.snooze();
        }
    }
    unreachable!()
}

/// Puts the value into the slot and counts its new entry, if there is one. The answer is the length of the
/// list.
fn lay_down<H: Held>(base: &Base<H>, seat: &mut Place<H>, held: H, before: u64) -> u64
    requires table { IsSeatOf base.now.shared.table_id seat.old }
    requires turn { IsInTurn seat.old.me × (before ≡ length seat.old.me.0.taken) }
    requires list { MayAdd H.caller seat.old.me.0.first seat.old.me.0.taken (H.entries held) }
    ensures seat { IsSameSeat seat.old seat.new }
    ensures after { seat.new.me ≡ (counted seat.old.me.0 (H.entries held), (0, Some held) ∷ []) }
    ensures length { result ≡ length (H.entries held) }
{
    let after = held.len();
    base.shared.exchange(seat, 0, Some(held));
    if before < after {
        base.shared.fetch_add::<Counts<H>>(seat, 0, 1);
    } else {
        base.shared.load::<Counts<H>>(seat, 0);
    }
    after
}

/// Wakes those that sleep, where the ticket behind `served` is given out.
fn wake<H: Held>(base: &Base<H>, served: u64)
    requires { IsSized base.now.shared.table_id }
{
    if base.shared.peek(1) != served.wrapping_add(1) {
        base.shared.wake_all(2);
    }
}

/// Puts the value back, counts its new entry if there is one, and serves the next ticket. The answer is the
/// length of the list.
pub(crate) fn put_back<H: Held>(base: &Base<H>, seat: &mut Place<H>, held: H, before: u64) -> u64
    requires table { IsSeatOf base.now.shared.table_id seat.old }
    requires turn { IsInTurn seat.old.me × (before ≡ length seat.old.me.0.taken) }
    requires fixed { seat.old.me.0.fixed ≡ Some (H.fixed held) }
    requires list { MayAdd H.caller seat.old.me.0.first seat.old.me.0.taken (H.entries held) }
    ensures seat { IsSameSeat seat.old seat.new }
    ensures after { seat.new.me ≡ (unticketed (counted seat.old.me.0 (H.entries held)), []) }
    ensures length { result ≡ length (H.entries held) }
{
    let after = lay_down(base, seat, held, before);
    let served = base.shared.fetch_add::<Serves>(seat, 2, 1);
    wake(base, served);
    after
}

/// Hands over so many of the last numbers to a new seat, which knows what this one has seen.
pub(crate) fn cut<H: Held>(base: &Base<H>, seat: &mut Place<H>, callers: u64) -> Place<H>
    requires table { IsSeatOf base.now.shared.table_id seat.old }
    requires idle { IsIdle seat.old.me × (callers ≤ seat.old.me.0.count) × (0 < seat.old.me.0.count) }
    ensures seat { IsSameSeat seat.old seat.new }
    ensures kept { seat.new.me ≡ (kept_part (planned seat.old.me.0 callers), []) }
    ensures table { result.table_id ≡ seat.old.table_id }
    ensures given { result.me ≡ (given_part (planned seat.old.me.0 callers), []) }
{
    base.shared
        .compare_exchange::<Plans>(seat, 0, callers, callers);
    base.shared.split_seat::<Cuts>(seat)
}

/// Takes in another seat: its numbers, which stand behind this one's, and what it has seen.
pub(crate) fn merge<H: Held>(base: &Base<H>, seat: &mut Place<H>, other: Place<H>)
    requires table { IsSeatOf base.now.shared.table_id seat.old }
    requires idle { IsIdle seat.old.me × (0 < seat.old.me.0.count) }
    requires other { IsSeatOf base.now.shared.table_id other × IsIdle other.me }
    requires next { 0 < other.me.0.count → other.me.0.first ≡ seat.old.me.0.first + seat.old.me.0.count }
    ensures seat { IsSameSeat seat.old seat.new }
    ensures both { seat.new.me ≡ (looked (joined seat.old.me.0 other.me.0), []) }
    ensures own_seen { StartsWith seat.new.me.0.seen seat.old.me.0.seen }
    ensures other_seen { StartsWith seat.new.me.0.seen other.me.0.seen }
{
    base.shared.join_seat::<Meets>(seat, other);
    base.shared.load::<Learns>(seat, 0);
}

/// Ends the table, and gives the value.
pub(crate) fn take_out<H: Held>(base: Base<H>, seat: Place<H>) -> H
    requires table { IsSeatOf base.shared.table_id seat }
    requires idle { IsIdle seat.me × (0 < seat.me.0.count) }
    requires whole { seat.me.0.count ≡ base.shared.key.callers }
    ensures value { IsTrueOf H.fixed H.entries H.caller seat.me.0 result }
    ensures first { seat.me.0.first ≡ 0 }
    ensures named { All (λ e. H.caller e < base.shared.key.callers) (H.entries result) }
{
    let mut closed = base.close_with(seat);
    let held = closed.take(0);
    closed.free();
    held.unwrap()
}
