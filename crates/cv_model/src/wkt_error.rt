//! Why a text is no geometry.

/// Why a text is no geometry. Offsets are those of a token's first byte.
#[derive(Clone, Copy, Debug, PartialEq, Eq)]
pub enum WktError {
    /// A token that can't stand where it does; with the text's length where the text ends early.
    Syntax(u64),
    /// The word of a curve or a surface where a geometry's word is expected.
    Curve(u64),
    /// An x or y beyond 10^15 millionths either way.
    OutOfRange(u64),
    /// A collection nested in eight others.
    TooDeep,
    /// More than 1,000,000 vertices.
    TooMany,
    /// Want of memory.
    NoMemory,
}
