//! The plain types of the map and the definitions that all contracts cite.
//!
//! Contract: each type keeps what its definition says, and is seen as a list, a number or a record of its
//! parts. Definitions, from positions to the picture of a project and to its edits: see `specs/Lib.antt`
//! for their order. Only `with_room`, `push`, `put`, `copy` and `Text::of` take memory; no handle is needed.
#![tactic(auto)]

mod blend;
mod cells;
mod classes;
mod colour;
mod delimiter;
mod edit;
mod extent;
mod feature;
mod geometry;
mod grid;
pub mod laws;
mod layer;
mod limits;
mod note;
mod pans;
mod position;
mod project;
mod ramp;
mod raster;
mod room;
mod sequence;
mod shape;
mod span;
mod style;
mod symbol;
mod text;
mod view;
mod wkt_error;

pub use blend::Blend;
pub use cells::CellList;
pub use classes::Classes;
pub use colour::{Rgb, Rgba};
pub use delimiter::Delimiter;
pub use edit::{Edit, EditError};
pub use extent::Extent;
pub use feature::{Feature, FeatureList, Values};
pub use geometry::{Geometry, Line};
pub use grid::{Cell, Grid};
pub use layer::{Join, LayerData, LayerFrame, NewLayer, Scales};
pub use limits::MOST_BYTES;
pub use note::Note;
pub use pans::pan_of;
pub use position::{Point, Point2, Polygon, Ring};
pub use project::{CanvasFile, CanvasList, CanvasSpec, LayerFile, LayerList, ProjectFile, Source};
pub use ramp::{Ramp, RampKind, Stop, StopList};
pub use raster::{Image, Picture, Pixels, RgbList, RgbaList};
pub use room::Room;
pub use sequence::Sequence;
pub use shape::Shape;
pub use span::{Span, Spans};
pub use style::{Class, ClassList, Field, Range, RangeList, Style};
pub use symbol::{Marker, Pen, Symbol};
pub use text::Text;
pub use view::View;
pub use wkt_error::WktError;

/// The answer of a call that has got no memory. It is the one answer whose cause contracts leave out, since
/// no caller can know it.
pub type NoMemory = std::alloc::AllocError;

#[cfg(test)]
mod tests;
