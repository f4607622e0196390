//! Which symbol a text gives, and which colour a grid's cell.
//!
//! Contract: each call answers exactly what the definition of its name says, for all styles and ramps.
//! Definitions: `Styles` and `Ramps` of `cv_model`. Takes no memory and no handle.
#![tactic(auto)]

mod classes;
mod ramps;

pub use classes::symbol;
pub use ramps::ramp;

#[cfg(test)]
mod tests;
