//! Edits of a project.

use crate::blend::Blend;
use crate::colour::Rgb;
use crate::feature::Feature;
use crate::geometry::Geometry;
use crate::grid::Cell;
use crate::layer::{Join, NewLayer, Scales};
use crate::style::Style;
use crate::text::Text;

/// A change of a project. Layers are named by their ids; places count from 0, the top.
#[derive(Drop)]
pub enum Edit {
    /// Puts a feature behind the others.
    AddFeature {
        layer: u32,
        feature: Feature,
    },
    /// Puts a feature in, so that it stands at the place `at`.
    InsertFeature {
        layer: u32,
        at: u32,
        feature: Feature,
    },
    /// Takes a feature out.
    RemoveFeature {
        layer: u32,
        id: u32,
    },
    /// Gives a feature another geometry, or none.
    SetGeometry {
        layer: u32,
        id: u32,
        geometry: Option<Geometry>,
    },
    /// Gives a feature another text in the first column of this name.
    SetAttribute {
        layer: u32,
        id: u32,
        column: Text,
        value: Text,
    },
    /// Changes a cell of a grid; row 0 is the northernmost.
    SetCell {
        layer: u32,
        row: u32,
        col: u32,
        cell: Cell,
    },
    /// Changes how a layer is drawn.
    SetStyle {
        layer: u32,
        style: Style,
    },
    /// Names another mask layer, or none.
    SetMask {
        layer: u32,
        mask: Option<u32>,
    },
    /// Names another join, or none.
    SetJoin {
        layer: u32,
        join: Option<Join>,
    },
    /// Puts a layer in, so that it stands at the place.
    AddLayer {
        place: u32,
        layer: NewLayer,
    },
    /// Takes a layer out.
    RemoveLayer {
        layer: u32,
    },
    /// Changes a layer's opacity.
    SetOpacity {
        layer: u32,
        opacity: u8,
    },
    /// Changes a layer's blend mode.
    SetBlend {
        layer: u32,
        blend: Blend,
    },
    /// Shows or hides a layer.
    SetVisible {
        layer: u32,
        visible: bool,
    },
    /// Changes the scales at which a layer is painted.
    SetScales {
        layer: u32,
        scales: Scales,
    },
    /// Takes a layer out and puts it in again, so that it stands at the place.
    MoveLayer {
        layer: u32,
        place: u32,
    },
    /// Changes the colour below all layers.
    SetBackground {
        colour: Rgb,
    },
}

/// Why an edit is refused. Where several causes hold, the first in this order is answered.
#[derive(Clone, Copy, Debug, PartialEq, Eq)]
pub enum EditError {
    /// The project hasn't the layer.
    UnknownLayer,
    /// The layer hasn't the feature.
    UnknownFeature,
    /// An edit of features on a grid, one of cells on a text layer, or a style that doesn't fit.
    WrongKind,
    /// The layer's or the feature's id is taken.
    DuplicateId,
    /// The project would pass a limit, or too many edits were accepted.
    Limit,
    /// A place, a row or a column that isn't there, or another number of values than of columns.
    BadPlace,
    /// Out of memory.
    NoMemory,
}
