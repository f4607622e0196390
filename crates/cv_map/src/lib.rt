//! Whole maps: a store's project, painted at a view and composed.
//!
//! Contract: the picture is the definitions' `picture` of the store's project, and the bytes are its pixmap.
//! Definitions: `Pictures` and `Rasters` of `cv_model`, `Stores` of `cv_store`. Takes memory for an image of
//! each slot and for the picture; no handle.
#![tactic(auto)]

mod picture;
mod slots;

pub use picture::{compose_input, paint, paint_bytes};

#[cfg(test)]
mod tests;
