//! The cache of a canvas: the images of its layers.
//!
//! Contract: a `LayerCache` is the list of its painted layers, the one that was used last first, with its
//! capacity. Definitions: `Caches`. `new`, `get` and `put` take memory; no handle is needed.
#![tactic(auto)]

mod cache;
mod held;
mod same;

pub use cache::LayerCache;
