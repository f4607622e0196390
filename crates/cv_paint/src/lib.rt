//! The painter: from layers to their images.
//!
//! Contract: an image is that of the definitions, at every pixel; the painting of a piece is given up only
//! where its stop said yes.
//! Definitions: `Pictures`, `Paintings` and `Texts` of `cv_model`. Takes memory for pixels and runs; no
//! handle.
#![tactic(auto)]

mod cells;
mod centres;
mod error;
mod far;
mod features;
mod finish;
mod hits;
mod inks;
mod layings;
mod masks;
mod painted;
mod sides;
mod steps;
mod strips;
mod strokes;
mod symbols;
mod texts;
mod whole;
mod widths;
mod windows;

pub use centres::plain;
pub use error::PaintError;
pub use steps::lay;
pub use strips::paint_strips;
pub use whole::paint;
