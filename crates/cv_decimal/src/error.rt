//! Why a text is no decimal.

/// Why a text is no decimal.
#[derive(Clone, Copy, Debug, PartialEq, Eq)]
pub enum DecimalError {
    /// There is no byte.
    Empty,
    /// With the length of the text's longest front that begins a decimal.
    BadByte(u64),
}
