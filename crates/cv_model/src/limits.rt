//! Limits that several readers have.

/// The most bytes that a layer's file may have: 256 times 2^20.
pub const MOST_BYTES: u64 = 268_435_456;
