//! Entries of the journal.

use cv_chunks::Shared;
use cv_model::{Edit, EditError, View};

/// How a job ended.
#[derive(Clone, Copy, Debug, PartialEq, Eq)]
pub enum How {
    /// Its picture was published.
    Finished,
    /// It was cancelled, or another job was started on its canvas.
    Cancelled,
    /// A task of it got no memory.
    NoMemory,
}

/// What became of a delivered layer image.
#[derive(Clone, Copy, Debug, PartialEq, Eq)]
pub enum Fate {
    /// Its slot is ready, and the canvas's cache has it.
    Stored,
    /// Its slot is ready, and the cache doesn't take it.
    Kept,
    /// The job had an end.
    Dropped,
}

/// What was done, with the answer that it got. Canvases and slots are numbered from 0, jobs from 1.
#[derive(Drop)]
pub enum Act {
    /// An edit, and why it was refused, if it was. `EditError::NoMemory` never stands here.
    Edit(Shared<Edit>, Option<EditError>),
    /// A canvas got a view.
    View(u32, View),
    /// On a canvas a job was started.
    Start(u32, u32),
    /// For a job's slot the cache was asked; `true` is a hit.
    Look(u32, u32, bool),
    /// The image of a job's slot was delivered.
    Deliver(u32, u32, Fate),
    /// A job's picture was to be composed.
    Compose(u32),
    /// A job's picture was published.
    Finish(u32),
    /// A job got no memory.
    Fail(u32),
    /// A job was cancelled.
    Cancel(u32),
    /// A job's ready slots were shown: slot k is ready where bit k is set, bit 0 the lowest.
    Preview(u32, u32),
    /// Of a canvas the picture of a job was taken.
    Save(u32, u32),
}

/// An entry of the journal.
#[derive(Drop)]
pub struct Entry {
    /// The caller's number.
    pub caller: u32,
    /// What it did.
    pub act: Act,
}
