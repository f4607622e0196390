//! Whole files and whole texts, over any shelf and sink.
ghost use Rattle.std.specs.Prelude.{◌≡◌, ◌≤◌, ◌∷◌, ◌++◌, [], ℕ, List, Option, length, IsTrue, IfOk, IfErr};
ghost use Rattle.std.specs.Prelude.{OnOk, OnErr, MatchResult};
ghost use Rattle.cv_outside.specs.Counts.{Rose};
ghost use Rattle.cv_outside.specs.Seen.{shelf_seen, sink_seen, ShelfStands, SinkStands};
ghost use Rattle.cv_outside.specs.Whole.{UnreadCause, IsUnread, UnreadAsks, UnwrittenCause, TakesPart};

use crate::{ReadEnd, Shelf, Sink, SinkEnd, Unread, Unwritten};
use std::alloc::Global;

/// The file under a name, with `max` bytes at most. It is asked for once.
///
/// What is answered is so of some file; where the shelf tells, of the one under the name.
pub fn read_file<F: Shelf>(
    alloc: Global,
    shelf: &mut F,
    name: &str,
    max: u64,
) -> Result<Vec<u8>, Unread>
    ensures stands { ShelfStands (shelf_seen F.Shelf shelf.old) (shelf_seen F.Shelf shelf.new) }
    ensures cause { IfErr result (λ why. UnreadCause why
        (Rose (F.faults shelf.old) (F.faults shelf.new))
        (Rose (F.misses shelf.old) (F.misses shelf.new))) }
    ensures size { IfOk result (λ bytes. length bytes.items ≤ max) }
    ensures names { IsTrue (F.tells shelf.old) → MatchResult result
        (λ _. F.asked shelf.new ≡ F.asked shelf.old ++ name.now ∷ [])
        (λ why. UnreadAsks why (F.asked shelf.old) (F.asked shelf.new) name.now) }
    ensures found { (file : Option (List ℕ))
        × (IsTrue (F.tells shelf.old) → file ≡ F.file_at shelf.old name.now)
        × MatchResult result (λ bytes. file ≡ Some bytes.items) (λ why. IsUnread why file max) }
{
    let mut bytes = Vec::new(alloc);
    match shelf.read(name, max, &mut bytes) {
        ReadEnd::Found if bytes.len() as u64 <= max => Ok(bytes),
        ReadEnd::Found => Err(Unread::TooLong),
        ReadEnd::Absent => Err(Unread::Absent),
        ReadEnd::Failed => Err(Unread::Failed),
        ReadEnd::NoMemory => Err(Unread::NoMemory),
    }
}

/// Writes a whole text, piece by piece, however little the sink takes of each.
#[tactic(auto, using(crate::proofs::TakenLemmas::taken_on))]
pub fn write_all<O: Sink>(out: &mut O, text: &[u8]) -> Result<(), Unwritten>
    ensures stands { SinkStands (sink_seen O.Sink out.old) (sink_seen O.Sink out.new) }
    ensures cause { IfErr result (λ why. UnwrittenCause why
        (Rose (O.faults out.old) (O.faults out.new))) }
    ensures ok { OnOk result (IsTrue (O.tells out.old)
        → O.taken out.new ≡ O.taken out.old ++ text.now) }
    ensures err { OnErr result (IsTrue (O.tells out.old)
        → TakesPart (O.taken out.old) (O.taken out.new) text.now) }
{
    let mut at = 0;
    while at < text.len() {
        match out.write(&text[at..]) {
            SinkEnd::Took(n) => at += n,
            SinkEnd::Failed => return Err(Unwritten::Failed),
            SinkEnd::NoMemory => return Err(Unwritten::NoMemory),
        }
    }
    Ok(())
}
