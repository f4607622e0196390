//! Blending of colours: one colour over another, and a layer's colour merged onto the picture.
//!
//! Contract: each call answers exactly what the definition of its name says, for all colours.
//! Definitions: `Colours` and `Blends` of `cv_model`. Takes no memory and no handle.
#![tactic(auto)]

mod merging;
mod modes;
mod source_over;

pub use merging::merge;
pub use source_over::over;

#[cfg(test)]
mod tests;
