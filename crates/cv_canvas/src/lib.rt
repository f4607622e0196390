//! Canvases: what a layer's colours are laid on, run by run, before its rows are finished.
//!
//! Contract: a run laid changes the pixels of the run, and no others, to the colour over what they had; a
//! row has the pixels that it was given. Definitions: `Canvas`, with those of each canvas beside it, and
//! `Colours` of `cv_model`. Takes memory when a canvas is made, and never afterwards; no handle.
#![tactic(auto)]

mod bits;
mod canvas;
mod counts;
mod cover;
mod mixing;
mod opaque;
mod pixels;
mod reciprocals;

pub use canvas::Canvas;
pub use counts::CountCanvas;
pub use cover::Cover;
pub use mixing::lay_on;
pub use opaque::OpaqueCanvas;
pub use pixels::PixelCanvas;

#[cfg(test)]
mod pixel_tests;
#[cfg(test)]
mod tests;
