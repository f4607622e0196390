//! The shapes of markers.

/// The shape of a marker laid on a point.
#[derive(Clone, Copy, Debug, PartialEq, Eq)]
pub enum Shape {
    /// A square with upright sides.
    Square,
    /// A square on its corner.
    Diamond,
    /// A disc.
    Circle,
}
