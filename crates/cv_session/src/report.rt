//! What a session reports, and why it stops.

use cv_event::{Journal, RefusedList};

/// What a session did.
#[derive(Drop)]
pub struct Report {
    /// The journal of its desk.
    pub journal: Journal,
    /// The commands that were refused, in the order of the script.
    pub refused: RefusedList,
    /// How many pictures were written.
    pub images: u32,
}

/// Why a session stopped before its script was through.
#[derive(Drop)]
pub enum SessionError {
    /// The tray failed to write the picture of this number, counted from 1: what was done until then.
    Tray(u32, Report),
    /// Memory ran out.
    NoMemory,
}
