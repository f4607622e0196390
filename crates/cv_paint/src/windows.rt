//! Rectangles of a view's pixels, as views of their own.

ghost use Rattle.std.specs.Prelude.{◌≡◌, ◌+◌, ◌*◌, ◌≤◌, pos, ◌+ℤ◌, ◌-ℤ◌, ◌*ℤ◌, ◌≤ℤ◌};
ghost use Rattle.cv_model.specs.Positions.{IsDoubled};
ghost use Rattle.cv_paint.specs.Windows.{LiesInView, window_of};

use cv_layer::Rect;
use cv_model::View;

/// Half pixels of so many pixels.
fn halves(pixels: u32) -> i64
    ensures { result ≡ pos (2 * pixels) }
{
    2 * i64::from(pixels)
}

/// How far so many pixels reach, in doubled millionths.
fn reach(pixels: u32, within: u32, u: i64) -> i64
    requires within { pixels ≤ within }
    requires side { pos 1 ≤ℤ u }
    requires span { (pos (2 * within) *ℤ u) ≤ℤ pos 8000000000000000 }
    ensures value { result ≡ pos (2 * pixels) *ℤ u }
    ensures low { pos 0 ≤ℤ result }
    ensures high { result ≤ℤ (pos (2 * within) *ℤ u) }
{
    halves(pixels) * u
}

/// The left edge of a column of a view.
fn left_of(view: &View, i: u32) -> i64
    requires { i ≤ view.now.w }
    ensures value { result ≡ view.now.lx2 +ℤ pos (2 * i) *ℤ view.now.u }
    ensures range { IsDoubled result }
{
    view.lx2 + reach(i, view.w, view.u)
}

/// The top edge of a row of a view.
fn top_of(view: &View, j: u32) -> i64
    requires { j ≤ view.now.h }
    ensures value { result ≡ view.now.ty2 -ℤ pos (2 * j) *ℤ view.now.u }
    ensures range { IsDoubled result }
{
    view.ty2 - reach(j, view.h, view.u)
}

/// The view whose pixels are those of a rectangle of another one, columns counted from its left and rows from
/// its top. Its pixels have the same side.
pub fn window(view: &View, r: Rect) -> View
    requires within { LiesInView view.now r }
    requires wide { 1 ≤ r.w }
    requires high { 1 ≤ r.h }
    ensures { result ≡ window_of view.now r }
{
    View {
        lx2: left_of(view, r.i),
        ty2: top_of(view, r.j),
        u: view.u,
        w: r.w,
        h: r.h,
    }
}
