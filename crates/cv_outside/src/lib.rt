//! The outside: files that are read and written, text that is written, and who holds or stops a painter.
//!
//! Contract: a call that fails says so only where its device's count of faults rose, and an absent
//! file is answered only where the count of misses rose. A device that tells its contents says what
//! each call did to them; one that doesn't keeps the counts alone. A stop's yeses are counted.
//! Definitions: `Counts`, `Reads`, `Writes`, `Pieces`, `Seen`, `Whole` and `Files` of this crate.
//! The fakes in memory take memory for what they keep. No handles.
#![tactic(auto)]

mod ends;
mod gates;
mod memory;
mod shelves;
mod sinks;
mod stops;
mod sure;
mod trays;
mod whole;

pub use ends::{ReadEnd, SinkEnd, TrayEnd, Unread, Unwritten};
pub use gates::{Gate, Open};
pub use memory::{MemShelf, MemSink, MemTray};
pub use shelves::Shelf;
pub use sinks::Sink;
pub use stops::{After, Never, Stop};
pub use sure::{Files, SureShelf, SureSink, SureTray, one_file};
pub use trays::Tray;
pub use whole::{read_file, write_all};

#[cfg(test)]
mod tests;
