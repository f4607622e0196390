//! Sessions: scripts that are played, and what it means that a journal follows a script.
//!
//! Contract: `run_alone` answers a report whose journal is legal and follows the script, and puts the
//! pictures that these name into the tray, one after the other; where the tray fails, so far as it came.
//! Definitions: `Responses`, `Plays`, `Writes`, `Follows`, `Entered`, `Playable`, `Files`, `Reports`; laws:
//! `Laws`, `HeldLaws`; what a session keeps: `Covered`, `Seats`, `Tasks`, `Outputs`, `Runs`. A run takes
//! memory; it needs no handle.
#![tactic(auto)]

mod commands;
pub mod laws;
mod outputs;
mod report;
mod run;
mod seat;
mod tasks;
mod views;

pub use report::{Report, SessionError};
pub use run::run_alone;

#[cfg(test)]
mod tests;
