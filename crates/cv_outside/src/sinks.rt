//! Where text is written to, piece by piece.
ghost use Rattle.std.specs.Prelude.{◌≡◌, ◌≤◌, Bool, ℕ, List, IsTrue};
ghost use Rattle.cv_outside.specs.Counts.{Rose};
ghost use Rattle.cv_outside.specs.Pieces.{SinkCause, TakesSome, Takes};

use crate::SinkEnd;

/// Where text is written to, piece by piece.
pub trait Sink {
    /// Whether the sink says which bytes it has taken.
    ghost tells: { Self → Bool };

    /// The bytes taken so far.
    ghost taken: { Self → List ℕ };

    /// How often the sink has failed.
    ghost faults: { Self → ℕ };

    /// Takes the piece, or the first bytes of it. A sink that can take nothing of a piece that
    /// isn't empty counts a fault.
    fn write(&mut self, piece: &[u8]) -> SinkEnd
        ensures told { tells self.new ≡ tells self.old }
        ensures counts { faults self.old ≤ faults self.new }
        ensures cause { SinkCause result (Rose (faults self.old) (faults self.new)) }
        ensures size { TakesSome result piece.now }
        ensures bytes { IsTrue (tells self.old)
            → Takes result (taken self.old) (taken self.new) piece.now };
}
