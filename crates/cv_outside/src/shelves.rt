//! Where files are read from.
ghost use Rattle.std.specs.Prelude.{◌≡◌, ◌≤◌, Bool, ℕ, List, Option, IsTrue};
ghost use Rattle.cv_outside.specs.Counts.{Rose};
ghost use Rattle.cv_outside.specs.Reads.{ReadCause, ReadsAtMost, Reads, Asks, SameFiles};

use crate::ReadEnd;

/// Where files are read from by name.
///
/// A shelf that tells says which files it has and which names were asked; one that doesn't says
/// neither, and keeps its counts all the same.
pub trait Shelf {
    /// Whether the shelf says which files it has and which names were asked.
    ghost tells: { Self → Bool };

    /// The bytes of the file under a name.
    ghost file_at: { Self → List ℕ → Option (List ℕ) };

    /// The names asked so far, first to last.
    ghost asked: { Self → List (List ℕ) };

    /// How often the shelf has failed.
    ghost faults: { Self → ℕ };

    /// How often a name was asked that the shelf hasn't.
    ghost misses: { Self → ℕ };

    /// Reads the file under a name: its first `max + 1` bytes, or all if there are fewer, take the
    /// place of what `into` held. That one byte above `max` came shows that the file is too long.
    fn read(&mut self, name: &str, max: u64, into: &mut Vec<u8>) -> ReadEnd
        ensures told { tells self.new ≡ tells self.old }
        ensures counts { (faults self.old ≤ faults self.new) × (misses self.old ≤ misses self.new) }
        ensures cause { ReadCause result
            (Rose (faults self.old) (faults self.new)) (Rose (misses self.old) (misses self.new)) }
        ensures size { ReadsAtMost result max into.new.items }
        ensures files { IsTrue (tells self.old) → SameFiles (file_at self.old) (file_at self.new) }
        ensures names { IsTrue (tells self.old)
            → Asks result (asked self.old) (asked self.new) name.now }
        ensures found { IsTrue (tells self.old)
            → Reads result (file_at self.old name.now) max into.new.items };
}
