//! Runs of pixels in a row.

use crate::sequence::Sequence;

/// The columns of a row from `from` up to and without `end`.
#[derive(Clone, Copy, Debug, PartialEq, Eq)]
pub struct Span {
    /// The first column.
    pub from: u32,
    /// The column behind the last.
    pub end: u32,
}

/// Runs of one row.
pub type Spans = Sequence<Span>;
