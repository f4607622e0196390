//! The slots of a job.

ghost use Rattle.std.specs.Prelude.{◌≡◌, ◌≤◌, if◌then◌else◌, length};
ghost use Rattle.cv_event.specs.States.{change_at, slot_stands};
ghost use Rattle.cv_event.specs.Legality.{is_open, is_ready, open_slot, all_ready, ready_bits};
ghost use Rattle.cv_tables.specs.Rows.{missed_weight, missed_in};

use cv_event::{Slot, Standing};

/// Whether the cache wasn't asked yet.
fn is_open(standing: Standing) -> bool
    ensures { result ≡ is_open standing }
{
    match standing {
        Standing::Open => true,
        Standing::Missed(_) => false,
        Standing::Ready => false,
        Standing::Lost => false,
    }
}

/// Whether the image is there.
pub(crate) fn is_ready(standing: Standing) -> bool
    ensures { result ≡ is_ready standing }
{
    match standing {
        Standing::Open => false,
        Standing::Missed(_) => false,
        Standing::Ready => true,
        Standing::Lost => false,
    }
}

/// One for a slot that is being painted, and nothing for others.
fn missed_weight(slot: Slot) -> u64
    ensures value { result ≡ missed_weight slot }
    ensures small { result ≤ 1 }
{
    match slot.standing {
        Standing::Open => 0,
        Standing::Missed(_) => 1,
        Standing::Ready => 0,
        Standing::Lost => 0,
    }
}

/// The least slot for which the cache wasn't asked.
pub(crate) fn open_slot(slots: &[Slot]) -> Option<u32>
    requires { length slots.now ≤ 32 }
    ensures { result ≡ open_slot 0 slots.now }
{
    let mut at = 0;
    while at < slots.len() {
        if is_open(slots[at].standing) {
            return Some(at as u32);
        }
        at += 1;
    }
    None
}

/// Whether all slots are ready.
pub(crate) fn all_ready(slots: &[Slot]) -> bool
    ensures { result ≡ all_ready slots.now }
{
    slots.iter().all(|slot| is_ready(slot.standing))
}

/// One for a ready slot, and nothing for others.
fn ready_weight(slot: Slot) -> u64
    ensures value { result ≡ (if is_ready slot.standing then 1 else 0) }
    ensures small { result ≤ 1 }
{
    match slot.standing {
        Standing::Open => 0,
        Standing::Missed(_) => 0,
        Standing::Ready => 1,
        Standing::Lost => 0,
    }
}

/// The ready slots as a number: bit k is set where slot k is ready.
pub(crate) fn ready_bits(slots: &[Slot]) -> u32
    requires { length slots.now ≤ 32 }
    ensures { result ≡ ready_bits slots.now }
{
    let mut bits = 0u64;
    let mut at = slots.len();
    while at > 0 {
        at -= 1;
        let more = ready_weight(slots[at]);
        bits = 2 * bits + more;
    }
    bits as u32
}

/// How many slots are being painted.
pub(crate) fn missed(slots: &[Slot]) -> u64
    requires { length slots.now ≤ 32 }
    ensures value { result ≡ missed_in slots.now }
    ensures small { result ≤ 32 }
{
    let mut count = 0;
    let mut at = slots.len();
    while at > 0 {
        at -= 1;
        count += missed_weight(slots[at]);
    }
    count
}

/// Lets the slot at a place stand otherwise, if it is there.
pub(crate) fn stand(slots: &mut Vec<Slot>, at: usize, standing: Standing)
    ensures { slots.new.items ≡ change_at at (slot_stands standing) slots.old.items }
{
    if at < slots.len() {
        slots[at].standing = standing;
    }
}
