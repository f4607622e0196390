//! A rectangle of the map.

use std::marker::Model;

/// A rectangle of the map, in millionths of a map unit, each number from -10^15 to 10^15.
///
/// It may have no width or no height, and its edges may be exchanged: the call that makes a view of it
/// refuses such extents.
#[derive(Clone, Copy, Debug)]
pub struct Extent {
    /// The western edge.
    pub xmin: i64,
    /// The southern edge.
    pub ymin: i64,
    /// The eastern edge.
    pub xmax: i64,
    /// The northern edge.
    pub ymax: i64,
}

impl Model for Extent {
    ghost use Rattle.cv_model.specs.Positions.{Rectangle, IsExtent};

    ghost Value = { Rectangle };

    ghost view = { λ e. record { xmin = e.xmin; ymin = e.ymin; xmax = e.xmax; ymax = e.ymax } };

    ghost invariant = { λ e. IsExtent
        (record { xmin = e.xmin; ymin = e.ymin; xmax = e.xmax; ymax = e.ymax }) };

    ghost inverse = { λ e. record { xmin = e.xmin; ymin = e.ymin; xmax = e.xmax; ymax = e.ymax } };
}
