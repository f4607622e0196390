//! Points of geometries, and the rings and polygons made of them.

use crate::sequence::Sequence;
use std::marker::Model;

/// A point of a geometry, in millionths of a map unit, each coordinate from -10^15 to 10^15.
#[derive(Clone, Copy, Debug)]
pub struct Point {
    /// Eastwards.
    pub x: i64,
    /// Northwards.
    pub y: i64,
}

impl Model for Point {
    ghost use Rattle.cv_model.specs.Positions.{Position, IsPoint};

    ghost Value = { Position };

    ghost view = { λ p. record { x = p.x; y = p.y } };

    ghost invariant = { λ p. IsPoint (record { x = p.x; y = p.y }) };

    ghost inverse = { λ p. record { x = p.x; y = p.y } };
}

/// A position in doubled millionths of a map unit, each coordinate from -4·10^15 to 4·10^15.
///
/// All tests of geometries against pixel centres are done in this unit, in which a centre is whole.
#[derive(Clone, Copy, Debug)]
pub struct Point2 {
    /// Eastwards.
    pub x: i64,
    /// Northwards.
    pub y: i64,
}

impl Model for Point2 {
    ghost use Rattle.cv_model.specs.Positions.{Position, IsPoint2};

    ghost Value = { Position };

    ghost view = { λ p. record { x = p.x; y = p.y } };

    ghost invariant = { λ p. IsPoint2 (record { x = p.x; y = p.y }) };

    ghost inverse = { λ p. record { x = p.x; y = p.y } };
}

/// A ring: its points in order. The last is joined to the first, so a ring needn't repeat it.
pub type Ring = Sequence<Point>;

/// A polygon: its rings. What is inside is told by the parity of all their edges, so a ring within a ring
/// is a hole.
pub type Polygon = Sequence<Ring>;
