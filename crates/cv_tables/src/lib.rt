//! The tables of a desk: its jobs with what is held of them, and its canvases with their caches.
//!
//! Contract: a `JobTable` is the list of its jobs, a `CanvasTable` that of its canvases; each call is the
//! change that the journal's state makes of these. Definitions: `Rows`, `Tabs`, in this order.
//! `JobTable::start`, `JobRow::composing`, `CanvasTable::open`, `look` and `store` take memory; no handle is
//! needed.
#![tactic(auto)]

mod canvas;
mod canvases;
mod holdings;
mod jobs;
mod making;
mod named;
mod pans;
mod row;
mod slots;
#[cfg(test)]
mod tests;

pub use canvas::{CanvasRow, Published};
pub use canvases::CanvasTable;
pub use jobs::JobTable;
pub use row::JobRow;
