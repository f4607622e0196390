//! How much may be read.

/// How much may be read, in all.
#[derive(Clone, Copy, Debug, PartialEq, Eq)]
pub struct Room {
    /// Features.
    pub features: u32,
    /// Vertices of their geometries.
    pub vertices: u32,
    /// Texts of their attributes.
    pub values: u32,
}
