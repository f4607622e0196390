//! The runs of pixels that a pen and a marker hit: in a row, and in an area along rings, lines and points.
//!
//! Contract: a row's run is exactly the columns whose centres are hit, none where none is; the runs of an
//! area have exactly its pixels whose centres are hit, none on two. A segment or a point of a row is one
//! step. Definitions: `Strokes` and `Dots` here; `Spans` and `Runs` of `cv_geom`; `Pens`, `Markers` and
//! `Views` of `cv_model`. The calls over an area take memory; no handle is needed.
#![tactic(auto)]

mod between;
mod boxes;
mod dots;
mod outlines;
mod sides;
mod strokes;

pub use dots::{marker, marker_in};
pub use outlines::{line_runs, marker_runs, ring_runs};
pub use strokes::{stroke, stroke_in};

#[cfg(test)]
mod tests;
