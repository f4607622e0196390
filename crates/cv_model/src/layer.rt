//! Layers: what they hold, and how they are merged into the picture.

use crate::blend::Blend;
use crate::feature::FeatureList;
use crate::grid::Grid;
use crate::style::Style;
use crate::text::Text;
use std::marker::Model;

/// What a layer holds, as its reader answers it.
#[derive(Drop)]
pub enum LayerData {
    /// Features with their attributes: a text layer.
    Text(FeatureList),
    /// A grid.
    Grid(Grid),
}

/// The layer from which a style takes texts: a feature has those of the first feature there whose text in
/// the column `key` equals its own text in the column `local`.
#[derive(Drop)]
pub struct Join {
    /// The layer's id.
    pub layer: u32,
    /// The column of the layer that is drawn.
    pub local: Text,
    /// The column of the join layer.
    pub key: Text,
}

/// The least and the greatest number of units per pixel at which a layer is painted, in millionths from 0
/// to 10^15.
///
/// Where both are there, the least isn't above the greatest.
#[derive(Clone, Copy, Debug)]
pub struct Scales {
    /// No bound where it is absent.
    pub least: Option<i64>,
    /// No bound where it is absent.
    pub greatest: Option<i64>,
}

impl Model for Scales {
    ghost use Rattle.cv_model.specs.Scales.{ScaleBounds, AreScales};

    ghost Value = { ScaleBounds };

    ghost view = { λ s. record { least = s.least; greatest = s.greatest } };

    ghost invariant = { λ s. AreScales (record { least = s.least; greatest = s.greatest }) };

    ghost inverse = { λ s. record { least = s.least; greatest = s.greatest } };
}

/// A layer that is put into a project.
#[derive(Drop)]
pub struct NewLayer {
    /// The number that tells it from the project's other layers.
    pub id: u32,
    /// Its name.
    pub name: Text,
    /// What it holds.
    pub contents: LayerData,
    /// Whether it is painted.
    pub visible: bool,
    /// From 0 (nothing of it is seen) to 255 (as painted).
    pub opacity: u8,
    /// How its colours are blended onto what lies below.
    pub blend: Blend,
    /// The layer whose polygons it is painted in, if one is named.
    pub mask: Option<u32>,
    /// Where its style takes joined texts from, if it takes any.
    pub join: Option<Join>,
    /// How it is drawn.
    pub style: Style,
    /// The scales at which it is painted.
    pub scales: Scales,
}

/// What the composition must know of a layer, whatever it holds.
#[derive(Clone, Copy, Debug)]
pub struct LayerFrame {
    /// The layer's id.
    pub id: u32,
    /// Whether it is painted.
    pub visible: bool,
    /// From 0 (nothing of it is seen) to 255 (as painted).
    pub opacity: u8,
    /// How its colours are blended onto what lies below.
    pub blend: Blend,
    /// The scales at which it is painted.
    pub scales: Scales,
}
