//! What a canvas shows: a grid of pixels on the map.

use std::marker::Model;

/// A grid of square pixels laid on the map, row 0 at the top.
///
/// Its edges `lx2`, `lx2 + 2·w·u`, `ty2` and `ty2 - 2·h·u` lie within -4·10^15 to 4·10^15 doubled millionths,
/// so every pixel centre is in range.
#[derive(Clone, Copy, Debug)]
pub struct View {
    /// The left edge, in doubled millionths of a map unit.
    pub lx2: i64,
    /// The top edge, in doubled millionths of a map unit.
    pub ty2: i64,
    /// The side of a pixel in millionths of a map unit, at least 1.
    pub u: i64,
    /// Pixels from left to right, at least 1.
    pub w: u32,
    /// Pixels from top to bottom, at least 1.
    pub h: u32,
}

impl Model for View {
    ghost use Rattle.cv_model.specs.Views.{PixelGrid, IsView};

    ghost Value = { PixelGrid };

    ghost view = { λ v. record { lx2 = v.lx2; ty2 = v.ty2; u = v.u; w = v.w; h = v.h } };

    ghost invariant = { λ v. IsView (record { lx2 = v.lx2; ty2 = v.ty2; u = v.u; w = v.w; h = v.h }) };

    ghost inverse = { λ v. record { lx2 = v.lx2; ty2 = v.ty2; u = v.u; w = v.w; h = v.h } };
}
