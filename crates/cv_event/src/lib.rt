//! The journal of a session: what its entries are, which journals are legal, and a journal's text.
//!
//! Contract: a `Journal` is the list of its entries with a number of spare places; `text` is the text that
//! the definition says. Definitions: `States`, `Legality`, `Histories`, `Lines`, `Readings`; laws:
//! `TextLaws`, `Laws`, `JobLaws`, `ShownLaws`, `ViewLaws`, `HitLaws`, in this order.
//! `Journal::reserve`, `RefusedList`'s `push` and `text` take memory; no handle is needed.
#![tactic(auto)]

mod entry;
mod journal;
pub mod laws;
mod lines;
mod refused;
mod slot;
#[cfg(test)]
mod tests;
mod words;

pub use entry::{Act, Entry, Fate, How};
pub use journal::Journal;
pub use lines::text;
pub use refused::{Reason, Refused, RefusedList};
pub use slot::{Slot, Standing, Task};
