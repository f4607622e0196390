//! How long the sides of pens and markers are on the map.

ghost use Rattle.std.specs.Prelude.{◌≡◌, ◌≤◌, pos, ◌≤ℤ◌, ◌*ℤ◌};
ghost use Rattle.cv_model.specs.Pens.{IsRadius};
ghost use Rattle.cv_model.specs.Pictures.{half_side};

use cv_model::View;

/// Half the side of a pen or a marker of so many pixels, in doubled millionths.
pub fn half_side(view: &View, size: u32) -> i64
    requires least { 1 ≤ size }
    requires most { size ≤ 256 }
    ensures value { result ≡ half_side view.now size }
    ensures radius { IsRadius result }
{
    scaled(size, pixel_side(view))
}

/// The millionths of a pixel's side.
fn pixel_side(view: &View) -> i64
    ensures value { result ≡ view.now.u }
    ensures low { pos 0 ≤ℤ result }
    ensures high { result ≤ℤ pos 4000000000000000 }
{
    view.u
}

/// So many sides of `u` millionths.
fn scaled(size: u32, u: i64) -> i64
    requires most { size ≤ 256 }
    requires low { pos 0 ≤ℤ u }
    requires high { u ≤ℤ pos 4000000000000000 }
    ensures value { result ≡ pos size *ℤ u }
    ensures radius { IsRadius result }
{
    i64::from(size) * u
}
