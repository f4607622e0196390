//! The loop over a decimal's bytes.
ghost use Rattle.std.specs.Prelude.{◌≡◌};
ghost use Rattle.cv_decimal.specs.Kept.{nothing_kept, answer_at};

use crate::kept::Kept;
use crate::plain::plain;
use cv_number::{Fixed, Mark, Place};

/// The value of a text, or how many bytes stand before the first that can't.
pub fn scan(text: &[u8]) -> Result<Fixed, u64>
    ensures { result ≡ answer_at Place.Start nothing_kept text.now }
{
    match plain(text) {
        Some(value) => Ok(value),
        None => scan_any(text),
    }
}

/// The same byte by byte, for any text.
fn scan_any(text: &[u8]) -> Result<Fixed, u64>
    ensures { result ≡ answer_at Place.Start nothing_kept text.now }
{
    let mut place = Place::Start;
    let mut kept = Kept::nothing();
    for (at, byte) in text.iter().enumerate() {
        match place.next(Mark::of(*byte)) {
            Some(found) => {
                place = found.0;
                kept.keep(found.1);
            }
            None => return Err(at as u64),
        }
    }
    place.worth(kept.worth()).ok_or(text.len() as u64)
}
