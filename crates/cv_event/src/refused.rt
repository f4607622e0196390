//! Refused commands of a script.

use cv_model::Sequence;

/// Why a command was refused.
#[derive(Clone, Copy, Debug, PartialEq, Eq)]
pub enum Reason {
    /// The project hasn't the layer.
    UnknownLayer,
    /// The layer hasn't the feature.
    UnknownFeature,
    /// The edit doesn't fit what the layer holds.
    WrongKind,
    /// The layer's or the feature's id is taken.
    DuplicateId,
    /// The project, or the new layer's names, would pass a limit, or 4,000,000,000 edits were accepted.
    Limit,
    /// A place, a row or a column that isn't there, or another number of values than of columns.
    BadPlace,
    /// The number is no canvas.
    UnknownCanvas,
    /// The extent has no area.
    Empty,
    /// The view would leave the range of coordinates.
    Range,
    /// The canvas has no view.
    NoView,
    /// No further job can be numbered.
    TooManyJobs,
    /// No job was started on the canvas.
    NoJob,
    /// The job's picture was published.
    EndedFinished,
    /// The job was cancelled.
    EndedCancelled,
    /// The job got no memory.
    EndedNoMemory,
    /// No further task can be held.
    HeldFull,
    /// There is nothing to take, or no picture to save.
    Nothing,
    /// No task is held.
    NothingHeld,
}

/// A refused command of a script.
#[derive(Clone, Copy, Debug, PartialEq, Eq)]
pub struct Refused {
    /// The command's line, from 1.
    pub line: u32,
    /// How many entries of the journal its caller had seen with the answer.
    pub seen: u64,
    /// Why it was refused.
    pub reason: Reason,
}

/// Refused commands, in the order of the script.
pub type RefusedList = Sequence<Refused>;
