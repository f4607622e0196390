//! The centres of pixels.

ghost use Rattle.std.specs.Prelude.{◌≡◌, ◌+◌, ◌*◌, ◌<◌, pos, ◌≤ℤ◌, ◌*ℤ◌};
ghost use Rattle.cv_model.specs.Views.{centre_of};

use cv_model::{Point2, View};

/// The centre of pixel `(i, j)` of a view, in doubled millionths; `(0, 0)` is the pixel at the top left.
pub fn centre(view: &View, i: u32, j: u32) -> Point2
    requires column { i < view.now.w }
    requires row { j < view.now.h }
    ensures { result ≡ centre_of view.now i j }
{
    Point2 {
        x: view.lx2 + offset(i, view.w, view.u),
        y: view.ty2 - offset(j, view.h, view.u),
    }
}

/// How far the centre of pixel `at` of a side lies from the edge before pixel 0, in doubled millionths.
fn offset(at: u32, pixels: u32, u: i64) -> i64
    requires within { at < pixels }
    requires side { pos 1 ≤ℤ u }
    requires span { (pos (2 * pixels) *ℤ u) ≤ℤ pos 8000000000000000 }
    ensures value { result ≡ pos (2 * at + 1) *ℤ u }
    ensures low { pos 0 ≤ℤ result }
    ensures high { result ≤ℤ (pos (2 * pixels) *ℤ u) }
{
    half_pixels(at) * u
}

/// Half pixels from the edge before pixel 0 to the centre of pixel `at`.
fn half_pixels(at: u32) -> i64
    ensures { result ≡ pos (2 * at + 1) }
{
    2 * i64::from(at) + 1
}
