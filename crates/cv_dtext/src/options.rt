//! What a reader of delimited text is told, and why it refuses a text.

use cv_model::{Delimiter, Room, Text};

/// How a delimited text is to be read.
#[derive(Drop)]
pub struct TextOptions {
    /// What stands between two fields.
    pub delimiter: Delimiter,
    /// The name of the geometry's column.
    pub geometry: Text,
    /// How much may be read.
    pub room: Room,
}

/// Why a delimited text is refused. Records are counted from 0, which is the header.
#[derive(Clone, Copy, Debug, PartialEq, Eq)]
pub enum TextError {
    /// There is no record.
    NoHeader,
    /// No field of the header is the name of the geometry's column.
    NoGeometryColumn,
    /// A record with another number of fields than the header.
    Uneven(u32),
    /// A record with a field that isn't UTF-8.
    NotUtf8(u32),
    /// More features, vertices or attribute values than there is room for.
    TooMany,
    /// Want of memory.
    NoMemory,
}
