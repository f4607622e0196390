//! The store: the project at its present version, and all edits of it.
//!
//! Contract: a store is a project, a version and a revision for each layer; an edit is refused as the
//! definitions' verdict says, and what it makes is their step. Definitions: `Stores`, `Tallies`, `Answers`,
//! `Data`, `Adding`, `Laws`, `Opened`, in this order; `Maps`, what is said of its map of layers.
#![tactic(auto)]

mod adding;
mod apply;
mod copies;
mod data;
mod frames;
mod input;
pub mod laws;
mod layers;
mod opening;
mod room;
mod row;
mod store;
mod tally;

pub use cv_layer::NoMemory;
pub use store::Store;
