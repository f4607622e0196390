//! The desk: the jobs, the canvases and the store of a map, and the journal of what was done to them.
//!
//! Contract: a `Desk` is its opening, its journal and its tables; the journal is legal, the tables are those
//! of the state after it, and each call puts exactly its own entry behind it or none. Definitions: `Desks`,
//! `Answers`, `Laws`, in this order. `open`, `edit`, `set_view`, `start`, `preview`, `published`, a claim
//! that hands something out, and a delivery that the cache takes want memory; no handle is needed.
#![tactic(auto)]

mod desk;
mod edits;
mod errors;
pub mod laws;
mod looks;
mod opening;
mod tasks;
#[cfg(test)]
mod tests;

pub use desk::Desk;
pub use errors::{
    ClaimError, EndError, PreviewError, SaveError, SetViewError, StartError, UnknownJob,
};
pub use tasks::Claim;
