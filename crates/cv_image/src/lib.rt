//! Images: the bytes of a picture.
//!
//! Contract: the bytes are those of the portable pixmap format, whole.
//! Definitions: `Rasters` of `cv_model`. Takes memory for the bytes; no handle.
#![tactic(auto)]

mod pixmap;

pub use pixmap::ppm;

#[cfg(test)]
mod tests;
