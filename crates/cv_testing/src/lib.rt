//! Helpers of tests: the words of a line, and a pixmap that is drawn in characters.
//!
//! Contract: none; what they make is looked at in tests alone, and no other code stands on them.
//! Definitions: none. Takes memory for what it makes. No handles.
#![tactic(auto)]

use cv_model::{NoMemory, Sequence, Text};
use std::alloc::{AllocError, Global};

/// The words of a line, between single spaces, or between bars where it has some.
pub fn words_of(alloc: Global, line: &str) -> Result<Sequence<Text>, NoMemory> {
    let mut words = Sequence::new(alloc);
    let between = if line.contains('|') { '|' } else { ' ' };
    for word in line.split(between) {
        words.put(Text::of(alloc, word)?)?;
    }
    Ok(words)
}

/// The bytes of a pixmap of this size, as `4 2`, whose pixels are drawn in rows from the top: `#` is of the
/// ink, `.` is white, and all else is passed over.
pub fn pixmap(alloc: Global, size: &str, rows: &str, ink: [u8; 3]) -> Result<Vec<u8>, AllocError> {
    let mut bytes = Vec::from_slice(alloc, b"P6\n")?;
    bytes.extend_from_slice(size.as_bytes())?;
    bytes.extend_from_slice(b"\n255\n")?;
    for pixel in rows.as_bytes() {
        match pixel {
            b'#' => bytes.extend_from_slice(&ink)?,
            b'.' => bytes.extend_from_slice(&[255, 255, 255])?,
            _ => {}
        }
    }
    Ok(bytes)
}
