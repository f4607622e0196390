//! The top call: from the words of a command and the devices of a host to an end.
//!
//! Contract: a run is what the words ask for over the files that it read (`IsRun`): at each end what was
//! asked, read, written and printed, with the cause of each answer outside.
//! Definitions: `Parts`, `Words`, `Opened`, `Sessions`, `Outcomes` and `Runs` of this crate, over those of
//! `cv_model`, `cv_open` and `cv_session`.
//! Takes memory for what is read and painted; `run` takes a handle that may wait, and doesn't wait.
#![tactic(auto)]

mod alone;
mod canvases;
mod check;
mod orders;
mod outputs;
mod paint;
mod pictures;
mod quick;
mod session;
mod stage;
mod top;
mod words;

pub use cv_open::{DataError, End, Which};
pub use top::{run, run_once, run_surely};

#[cfg(test)]
mod check_tests;
#[cfg(test)]
mod device_tests;
#[cfg(test)]
mod paint_tests;
#[cfg(test)]
mod session_tests;
#[cfg(test)]
mod tests;
