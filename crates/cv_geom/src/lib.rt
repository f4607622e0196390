//! Views of the map, the exact tests of geometries against pixel centres, and runs of pixels.
//!
//! Contract: each call answers exactly what the definition of its name says, under its conditions; `Steps`
//! counts what is visited; runs that are united lie in reading order, no pixel on two. Definitions: `Views`,
//! `Falls`, `Multiples`, `Spans` and `Runs` here; `Views`, `Polygons`, `Pens` and `Markers` of `cv_model`.
//! Laws: `ViewLaws`, `Tilings`, and those of `Spans` and `Runs`. `Runs` takes memory, no other call does;
//! no handle is needed.
#![tactic(auto)]

mod centres;
mod falls;
mod lengths;
mod markers;
mod measures;
mod multiples;
mod parity;
mod pens;
mod places;
mod range;
mod runs;
mod spans;
mod steps;
mod tilings;
mod view_laws;
mod views;

pub use centres::centre;
pub use falls::search;
pub use markers::marked;
pub use measures::{distance, distance_to, product};
pub use multiples::Multiples;
pub use parity::{inside, is_low, passes_right};
pub use pens::{begins_before, ends_behind, near, overlaps_upwards};
pub use places::{column_from, doubled_sides, row_under};
pub use runs::{Area, Run, Runs, runs_are_apart, runs_are_few};
pub use spans::runs_are_one;
pub use steps::Steps;
pub use tilings::{reverses_cross_alike, shared_edges_cancel, squares_unite, tiles_cover_once};
pub use view_laws::{centres_lie_within, pans_add, views_show_their_extent};
pub use views::{ViewError, pan, view_of, zoom};

#[cfg(test)]
mod tests;
