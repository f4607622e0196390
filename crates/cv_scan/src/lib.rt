//! The runs of pixels inside polygons: those of a row, and those of an area with each edge read once.
//!
//! Contract: the spans of a row are exactly the maximal runs of columns whose centres are inside, in
//! ascending order; the runs of an area have exactly its pixels whose centres are inside, none on two. At
//! most one step is counted for an edge and a row.
//! Definitions: `Reaches`, `Runs`, `Marks`, `Orders`, `Pairs`, `Planes`, `Held`, `Terms`, `Narrow`, `Blocks`
//! and `Fills` here; `Spans` and `Runs` of `cv_geom`; `Polygons` and `Views` of `cv_model`. Laws:
//! `edges_cross_the_first`, `runs_have_the_spans`.
//! `spans`, `spans_in` and `fill_runs` take memory; no handle is needed.
#![tactic(auto)]

mod blocks;
mod crossings;
mod fills;
mod followed;
mod held;
mod marks;
mod narrow;
mod orders;
mod pairs;
mod planes;
mod reaches;
mod row;
mod runs;
mod scratch;
mod terms;

pub use fills::{fill_runs, runs_have_the_spans};
pub use reaches::{edges_cross_the_first, reach};
pub use row::{spans, spans_in};
pub use scratch::Scratch;

#[cfg(test)]
mod tests;
