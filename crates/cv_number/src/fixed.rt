//! The value of a decimal.

/// A decimal in whole millionths.
#[derive(Clone, Copy, Debug, PartialEq, Eq)]
pub enum Fixed {
    /// From -10^15 to 10^15 millionths.
    Value(i64),
    /// Above 10^15 millionths.
    High,
    /// Below -10^15 millionths.
    Low,
    /// `nan`.
    NotNumber,
}
