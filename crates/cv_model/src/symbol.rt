//! How a feature is drawn.

ghost use Rattle.std.specs.Prelude.{◌≡◌, ◌≤◌};

use crate::colour::Rgba;
use crate::shape::Shape;
use std::marker::Model;

/// How a feature is drawn: up to three parts, laid in the order in which they stand here.
#[derive(Clone, Copy, Debug)]
pub struct Symbol {
    /// The colour laid on each pixel whose centre is inside a polygon.
    pub fill: Option<Rgba>,
    /// The pen that follows the edges of polygons, and then the segments of lines.
    pub pen: Option<Pen>,
    /// The marker on each point.
    pub marker: Option<Marker>,
}

/// A square pen, whose middle follows a segment.
#[derive(Clone, Copy, Debug)]
pub struct Pen {
    /// The colour that it lays.
    pub colour: Rgba,
    /// Its side in pixels, 1 to 64.
    pub width: u32,
}

impl Model for Pen {
    ghost use Rattle.cv_model.specs.Pens.{PenParts, IsPen};

    ghost Value = { PenParts };

    ghost view = { λ p. record { colour = p.colour; width = p.width } };

    ghost invariant = { λ p. IsPen (record { colour = p.colour; width = p.width }) };

    ghost inverse = { λ p. record { colour = p.colour; width = p.width } };
}

impl Pen {
    /// Its side in pixels.
    pub fn side(self) -> u32
        ensures width { result ≡ self.width }
        ensures least { 1 ≤ result }
        ensures most { result ≤ 64 }
    {
        self.width
    }
}

/// A marker round a point.
#[derive(Clone, Copy, Debug)]
pub struct Marker {
    /// Its shape.
    pub shape: Shape,
    /// The colour that it lays.
    pub colour: Rgba,
    /// Its side, diagonal or diameter in pixels, 1 to 256.
    pub size: u32,
}

impl Model for Marker {
    ghost use Rattle.cv_model.specs.Markers.{MarkerParts, IsMarker};

    ghost Value = { MarkerParts };

    ghost view = { λ m. record { shape = m.shape; colour = m.colour; size = m.size } };

    ghost invariant = { λ m. IsMarker (record { shape = m.shape; colour = m.colour; size = m.size }) };

    ghost inverse = { λ m. record { shape = m.shape; colour = m.colour; size = m.size } };
}

impl Marker {
    /// Its side, diagonal or diameter in pixels.
    pub fn side(self) -> u32
        ensures size { result ≡ self.size }
        ensures least { 1 ≤ result }
        ensures most { result ≤ 256 }
    {
        self.size
    }
}
