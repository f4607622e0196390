//! Composition: the images of a picture's layers, merged in order onto its background.
//!
//! Contract: the picture is the composition's by the definition, at every pixel, with the slots that are
//! there. Definitions: `Paintings` and `Blends` of `cv_model`; `Inputs`, `Planes`, `Runs`, `Laws`. Takes
//! memory for the picture and for tables; no handle.
#![tactic(auto)]

mod channels;
mod composition;
mod frame;
mod input;
pub mod laws;
mod modes;
mod planes;
mod runs;
mod tables;

pub use composition::{Composed, compose, compose_into};
pub use frame::{Frame, Slot, SlotList};
pub use input::{ComposeInput, SlotImages};

#[cfg(test)]
mod tests;
