//! What stands between the fields of a record.

/// The byte between the fields of delimited text.
#[derive(Clone, Copy, Debug, PartialEq, Eq)]
pub enum Delimiter {
    /// `,`.
    Comma,
    /// `;`.
    Semicolon,
    /// A horizontal tab.
    Tab,
}
