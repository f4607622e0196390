//! Why a call of a desk is refused.

use cv_event::How;

/// Why a canvas gets no view.
#[derive(Clone, Copy, Debug, PartialEq, Eq)]
pub enum SetViewError {
    /// The desk hasn't the canvas.
    UnknownCanvas,
    /// The view isn't of the canvas's size.
    Size,
    /// Out of memory.
    NoMemory,
}

/// Why no job is started.
#[derive(Clone, Copy, Debug, PartialEq, Eq)]
pub enum StartError {
    /// The desk hasn't the canvas.
    UnknownCanvas,
    /// The canvas has no view.
    NoView,
    /// No number is left.
    TooManyJobs,
    /// Out of memory.
    NoMemory,
}

/// Why no task is handed out.
#[derive(Clone, Copy, Debug, PartialEq, Eq)]
pub enum ClaimError {
    /// There was no memory for a task of this job.
    NoMemory(u32),
}

/// Why a job isn't ended.
#[derive(Clone, Copy, Debug, PartialEq, Eq)]
pub enum EndError {
    /// No job of this number was started.
    UnknownJob,
    /// It has this end.
    Ended(How),
}

/// Why a job isn't shown.
#[derive(Clone, Copy, Debug, PartialEq, Eq)]
pub enum PreviewError {
    /// No job of this number was started.
    UnknownJob,
    /// It has this end.
    Ended(How),
    /// Out of memory.
    NoMemory,
}

/// Why there is no picture of a canvas.
#[derive(Clone, Copy, Debug, PartialEq, Eq)]
pub enum SaveError {
    /// The desk hasn't the canvas.
    UnknownCanvas,
    /// No job of the canvas was finished.
    Nothing,
    /// Out of memory.
    NoMemory,
}

/// No job of this number was started.
#[derive(Clone, Copy, Debug, PartialEq, Eq)]
pub struct UnknownJob;
