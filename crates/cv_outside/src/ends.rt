//! How a call on the outside ends.

/// How a read of a shelf ended.
#[derive(Clone, Copy, Debug, PartialEq, Eq)]
pub enum ReadEnd {
    /// The file is there, and its first bytes are handed out.
    Found,
    /// There is no file under the name.
    Absent,
    /// The shelf failed.
    Failed,
    /// Memory ran out.
    NoMemory,
}

/// How a write to a tray ended.
#[derive(Clone, Copy, Debug, PartialEq, Eq)]
pub enum TrayEnd {
    /// The file stands under its name.
    Kept,
    /// The tray failed; what stands under the name is left open.
    Failed,
    /// Memory ran out, and nothing changed.
    NoMemory,
}

/// How a write to a sink ended.
#[derive(Clone, Copy, Debug, PartialEq, Eq)]
pub enum SinkEnd {
    /// So many bytes from the piece's start were taken.
    Took(usize),
    /// The sink failed, and nothing was taken.
    Failed,
    /// Memory ran out, and nothing was taken.
    NoMemory,
}

/// Why a file was not read.
#[derive(Clone, Copy, Debug, PartialEq, Eq)]
pub enum Unread {
    /// It has more bytes than the limit.
    TooLong,
    /// There is no file under the name.
    Absent,
    /// The shelf failed.
    Failed,
    /// Memory ran out.
    NoMemory,
}

/// Why a text was not written whole.
#[derive(Clone, Copy, Debug, PartialEq, Eq)]
pub enum Unwritten {
    /// The sink failed.
    Failed,
    /// Memory ran out.
    NoMemory,
}
