//! Standard output, or another writer, as a sink. It counts each failure of the writer.

ghost use Rattle.std.specs.Prelude.{◌≡◌, true, false, is_some, IsTrue, unwrap_or};

use cv_outside::{Sink, SinkEnd};
use std::io::Write;

/// A writer as a sink. It tells what it took only where it was made of a writer that says which bytes it
/// holds.
#[derive(Drop)]
pub struct Output<W: Write> {
    to: W,
    faults: u64,
    is_told: bool,
    ghost known: { is_told ≡ true → is_some (W.contents to) ≡ true },
}

impl<W: Write + Drop> Output<W> {
    /// What is written goes to this writer, and isn't told.
    pub fn new(to: W) -> Self
        ensures { result.is_told ≡ false }
    {
        Output {
            to,
            faults: 0,
            is_told: false,
        }
    }

    /// What is written goes to this writer, whose bytes are known, and is told.
    pub fn telling(to: W) -> Self
        requires { IsTrue (is_some (W.contents to)) }
        ensures tells { IsTrue (⟦<Output<W> as Sink>⟧.tells result) }
        ensures to { result.to ≡ to }
    {
        Output {
            to,
            faults: 0,
            is_told: true,
        }
    }

    /// The writer.
    pub fn writer(&self) -> &W
        ensures { result.now ≡ self.now.to }
    {
        &self.to
    }
}

impl<W: Write + Drop> Sink for Output<W> {
    ghost use Rattle.std.specs.Prelude.{[]};

    ghost tells = { λ s. s.is_told };

    ghost taken = { λ s. unwrap_or (W.contents s.to) [] };

    ghost faults = { λ s. s.faults };

    fn write(&mut self, piece: &[u8]) -> SinkEnd {
        match self.to.write(piece) {
            Ok(taken) if taken > 0 || piece.is_empty() => SinkEnd::Took(taken),
            _ => {
                self.faults = self.faults.saturating_add(1);
                SinkEnd::Failed
            }
        }
    }
}
