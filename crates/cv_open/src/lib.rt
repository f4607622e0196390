//! Opening: a project's file and the files of its layers, read over a shelf; how a command ends; and the
//! report on what was read.
//!
//! Contract: what a call reads is what its definition reads (`IsReadAs`): the names asked, first to last, and
//! what their files give, with the cause of each answer outside; a project that was read can be opened
//! (`CanOpen` of `cv_model`); the report is `report_of` the opened project.
//! Definitions: `Ends`, `Readings`, `Rooms`, `Opened`, `Canvases` and `Reports` of this crate, over those of
//! `cv_model`, `cv_dtext`, `cv_grid` and `cv_project`.
//! Takes memory for what is read and reported. No handles.
#![tactic(auto)]

mod canvas;
mod ends;
mod files;
mod layer;
mod opening;
mod reports;
mod room;

pub use canvas::{Shown, open_canvas};
pub use ends::{DataError, End, Which};
pub use files::fetch;
pub use layer::{Layered, read_layer};
pub use opening::{Opened, open};
pub use reports::report;
pub use room::Left;

#[cfg(test)]
mod tests;
