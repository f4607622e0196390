//! The views whose edges are in range.

ghost use Rattle.std.specs.Prelude.{◌≡◌, ◌≤◌, ◌^◌, ◌&&◌, pos, ◌+ℤ◌, ◌-ℤ◌, ◌≤ℤ◌, unsigned_abs};
ghost use Rattle.cv_model.specs.Positions.{IsDoubled};
ghost use Rattle.cv_model.specs.Views.{IsView};
ghost use Rattle.cv_geom.specs.Views.{is_doubled, is_in_range, kept};

use crate::lengths::span;
use crate::views::ViewError;
use cv_model::View;

/// The view of these parts, if its edges are in range.
pub fn kept(lx2: i128, ty2: i128, u: i64, w: u32, h: u32) -> Result<View, ViewError>
    requires side { pos 1 ≤ℤ u }
    requires wide { 1 ≤ w }
    requires high { 1 ≤ h }
    ensures { result ≡ kept (record { lx2 = lx2; ty2 = ty2; u = u; w = w; h = h }) }
{
    if is_in_range(lx2, ty2, u, w, h) {
        Ok(made(lx2, ty2, u, w, h))
    } else {
        Err(ViewError::Range)
    }
}

/// The view of these parts.
fn made(lx2: i128, ty2: i128, u: i64, w: u32, h: u32) -> View
    requires { IsView (record { lx2 = lx2; ty2 = ty2; u = u; w = w; h = h }) }
    ensures { result ≡ record { lx2 = lx2; ty2 = ty2; u = u; w = w; h = h } }
{
    View {
        lx2: narrowed(lx2),
        ty2: narrowed(ty2),
        u,
        w,
        h,
    }
}

/// Whether all edges of the view of these parts are in range.
fn is_in_range(lx2: i128, ty2: i128, u: i64, w: u32, h: u32) -> bool
    ensures { result ≡ is_in_range (record { lx2 = lx2; ty2 = ty2; u = u; w = w; h = h }) }
{
    let across = fits_across(lx2, span(i64::from(w), u));
    let down = fits_down(ty2, span(i64::from(h), u));
    across && down
}

/// Whether a left edge and the right edge this far from it are in range.
fn fits_across(lx2: i128, across: i128) -> bool
    requires { unsigned_abs across ≤ 2 ^ 96 }
    ensures { result ≡ (is_doubled lx2 && is_doubled (lx2 +ℤ across)) }
{
    is_doubled(lx2) && is_doubled(lx2 + across)
}

/// Whether a top edge and the bottom edge this far from it are in range.
fn fits_down(ty2: i128, down: i128) -> bool
    requires { unsigned_abs down ≤ 2 ^ 96 }
    ensures { result ≡ (is_doubled ty2 && is_doubled (ty2 -ℤ down)) }
{
    is_doubled(ty2) && is_doubled(ty2 - down)
}

/// An edge in range, as the view keeps it.
fn narrowed(edge: i128) -> i64
    requires { IsDoubled edge }
    ensures { result ≡ edge }
{
    edge as i64
}

/// Whether a number is a coordinate in doubled millionths.
fn is_doubled(z: i128) -> bool
    ensures { result ≡ is_doubled z }
{
    -4_000_000_000_000_000 <= z && z <= 4_000_000_000_000_000
}
