//! Layers, what they are painted from, and their images.
//!
//! Contract: a layer is its core and its revision, an input the parts and stamps of `cv_model`, a painted
//! layer a painting, whose image is the one that the definitions say. Definitions: `Stamps`, `Boxes`,
//! `Stretches`, `Tables`, `Layers`, `Inputs`, `Strips`, in this order. The readers take no memory; no handle
//! is needed.
#![tactic(auto)]

mod boxes;
mod cells;
mod duplicate;
mod input;
pub mod laws;
mod layer;
mod packed;
mod painted;
mod places;
mod row;
mod stamp;
mod stretches;
mod strips;
mod table;

pub use boxes::box_of;
pub use cells::Cells;
pub use cv_model::NoMemory;
pub use duplicate::Duplicate;
pub use input::{LayerInput, Piece};
pub use layer::{Layer, LayerContents, SharedLayer};
pub use packed::CellChunks;
pub use painted::PaintedLayer;
pub use row::FeatureRow;
pub use stamp::{Stamp, Stamps};
pub use strips::{Rect, StripImages, Strips};
pub use table::Table;
