//! Notes on refused geometries.

use crate::wkt_error::WktError;

/// A record whose well-known text was refused, so that its feature has no geometry.
#[derive(Clone, Copy, Debug, PartialEq, Eq)]
pub struct Note {
    /// The record's number, which is its feature's id.
    pub row: u32,
    /// Why the text is no geometry.
    pub error: WktError,
}
