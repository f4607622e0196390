//! Views: made of an extent and a size, moved, and scaled.

ghost use Rattle.std.specs.Prelude.{◌≡◌, ◌↔◌, ◌+◌, ◌≤◌, ◌<◌, ◌^◌, pos, ◌+ℤ◌, ◌-ℤ◌, ◌*ℤ◌, ◌≤ℤ◌, unsigned_abs};
ghost use Rattle.cv_model.specs.Positions.{IsCoordinate};
ghost use Rattle.cv_model.specs.Views.{natural, ceiling, rise, pixel_side, grid_of};
ghost use Rattle.cv_geom.specs.Views.{is_size, is_spread, kept, view_of, moved, pan, scaled_side, resized};
ghost use Rattle.cv_geom.specs.Views.{zoom, IsSize, IsNoSize, IsSpread, IsEmpty, LeavesRange, IsZoomPart};

use crate::lengths::{half_span, span};
use crate::range::kept;
use cv_model::{Extent, View};

/// Why there is no view.
#[derive(Clone, Copy, Debug, PartialEq, Eq)]
pub enum ViewError {
    /// A side is 0 or above 4,096 pixels, or there are more than 2,097,152 pixels.
    Size,
    /// The extent has no width or no height.
    Empty,
    /// An edge of the view lies outside -4·10^15 to 4·10^15 doubled millionths.
    Range,
}

/// The view of `w` by `h` square pixels with an extent in its middle, whose pixels are as small as
/// the extent allows.
pub fn view_of(extent: Extent, w: u32, h: u32) -> Result<View, ViewError>
    ensures answer { result ≡ view_of extent w h }
    ensures size { (result ≡ Err ViewError.Size) ↔ IsNoSize w h }
    ensures empty { (result ≡ Err ViewError.Empty) ↔ (IsSize w h × IsEmpty extent) }
    ensures range { (result ≡ Err ViewError.Range)
        ↔ (IsSize w h × (IsSpread extent × LeavesRange (grid_of extent w h))) }
{
    if !is_size(w, h) {
        return Err(ViewError::Size);
    }
    if !is_spread(extent) {
        return Err(ViewError::Empty);
    }
    laid_round(extent, w, h)
}

/// The view of `w` by `h` pixels with an extent in its middle.
fn laid_round(extent: Extent, w: u32, h: u32) -> Result<View, ViewError>
    requires wide { 1 ≤ w }
    requires high { 1 ≤ h }
    ensures { result ≡ kept (grid_of extent w h) }
{
    let u = pixel_side(extent, w, h);
    kept(
        left(extent, half_span(w, u)),
        top(extent, half_span(h, u)),
        u,
        w,
        h,
    )
}

/// A view moved by so many of its pixels: by `dx` eastwards and by `dy` southwards. Only its range
/// can refuse it.
pub fn pan(view: &View, dx: i32, dy: i32) -> Result<View, ViewError>
    ensures answer { result ≡ pan view.now dx dy }
    ensures range { (result ≡ Err ViewError.Range) ↔ LeavesRange (moved view.now dx dy) }
{
    kept(
        moved_left(view, dx),
        moved_top(view, dy),
        view.u,
        view.w,
        view.h,
    )
}

/// The left edge of a view moved eastwards by so many of its pixels.
fn moved_left(view: &View, dx: i32) -> i128
    ensures { result ≡ view.now.lx2 +ℤ pos 2 *ℤ dx *ℤ view.now.u }
{
    i128::from(view.lx2) + span(i64::from(dx), view.u)
}

/// The top edge of a view moved southwards by so many of its pixels.
fn moved_top(view: &View, dy: i32) -> i128
    ensures { result ≡ view.now.ty2 -ℤ pos 2 *ℤ dy *ℤ view.now.u }
{
    i128::from(view.ty2) - span(i64::from(dy), view.u)
}

/// A view with pixels `num / den` times as long, rounded upwards, round the same middle. Only its
/// range can refuse it.
pub fn zoom(view: &View, num: u32, den: u32) -> Result<View, ViewError>
    requires num_in { IsZoomPart num }
    requires den_in { IsZoomPart den }
    ensures answer { result ≡ zoom view.now num den }
    ensures range { (result ≡ Err ViewError.Range)
        ↔ LeavesRange (resized view.now (pos (scaled_side view.now.u num den))) }
{
    resized(view, scaled_side(view, num, den))
}

/// The view with pixels of this side round the same middle, if that stays in range.
fn resized(view: &View, u: i64) -> Result<View, ViewError>
    requires { pos 1 ≤ℤ u }
    ensures { result ≡ kept (resized view.now u) }
{
    kept(
        resized_left(view, u),
        resized_top(view, u),
        u,
        view.w,
        view.h,
    )
}

/// The left edge of a view with pixels of this side round the same middle.
fn resized_left(view: &View, u: i64) -> i128
    ensures { result ≡ view.now.lx2 +ℤ pos view.now.w *ℤ view.now.u -ℤ pos view.now.w *ℤ u }
{
    i128::from(view.lx2) + half_span(view.w, view.u) - half_span(view.w, u)
}

/// The top edge of a view with pixels of this side round the same middle.
fn resized_top(view: &View, u: i64) -> i128
    ensures { result ≡ view.now.ty2 -ℤ pos view.now.h *ℤ view.now.u +ℤ pos view.now.h *ℤ u }
{
    i128::from(view.ty2) - half_span(view.h, view.u) + half_span(view.h, u)
}

/// The side of a view's pixels, `num / den` times as long.
fn scaled_side(view: &View, num: u32, den: u32) -> i64
    requires num_in { IsZoomPart num }
    requires den_in { IsZoomPart den }
    ensures value { result ≡ pos (scaled_side view.now.u num den) }
    ensures side { pos 1 ≤ℤ result }
{
    1.max(ceiling(side(view) * u64::from(num), u64::from(den))) as i64
}

/// The side of a view's pixels.
fn side(view: &View) -> u64
    ensures value { result ≡ natural view.now.u }
    ensures bound { result ≤ 4000000000000000 }
{
    view.u as u64
}

/// Whether a view may have this many pixels from left to right and from top to bottom.
fn is_size(w: u32, h: u32) -> bool
    ensures { result ≡ is_size w h }
{
    1 <= w && w <= 4096 && 1 <= h && h <= 4096 && w * h <= 2_097_152
}

/// Whether an extent has a width and a height.
fn is_spread(extent: Extent) -> bool
    ensures { result ≡ is_spread extent }
{
    extent.xmin < extent.xmax && extent.ymin < extent.ymax
}

/// The side of a pixel at which so many of them span an extent.
fn pixel_side(extent: Extent, w: u32, h: u32) -> i64
    requires wide { 1 ≤ w }
    requires high { 1 ≤ h }
    ensures value { result ≡ pos (pixel_side extent w h) }
    ensures side { pos 1 ≤ℤ result }
{
    let across = share(extent.xmin, extent.xmax, w);
    let down = share(extent.ymin, extent.ymax, h);
    1.max(across.max(down)) as i64
}

/// How many millionths each of these pixels has to span, so that all of them reach from one
/// coordinate to another.
fn share(from: i64, to: i64, pixels: u32) -> u64
    requires from_in { IsCoordinate from }
    requires to_in { IsCoordinate to }
    requires some { 1 ≤ pixels }
    ensures value { result ≡ ceiling (rise from to) pixels }
    ensures bound { result < 2 ^ 60 }
{
    ceiling(rise(from, to), u64::from(pixels))
}

/// How far one coordinate lies above another, or 0.
fn rise(from: i64, to: i64) -> u64
    requires from_in { IsCoordinate from }
    requires to_in { IsCoordinate to }
    ensures value { result ≡ rise from to }
    ensures bound { result ≤ 2000000000000000 }
{
    if from < to { (to - from) as u64 } else { 0 }
}

/// A quotient, rounded upwards.
fn ceiling(n: u64, d: u64) -> u64
    requires some { 1 ≤ d }
    requires room { n + d < 2 ^ 63 }
    ensures value { result ≡ ceiling n d }
    ensures bound { result < n + d }
{
    (n + (d - 1)) / d
}

/// The left edge of a view with an extent in its middle, half of whose width is this.
fn left(extent: Extent, half: i128) -> i128
    requires { unsigned_abs half ≤ 2 ^ 96 }
    ensures { result ≡ extent.xmin +ℤ extent.xmax -ℤ half }
{
    i128::from(extent.xmin) + i128::from(extent.xmax) - half
}

/// The top edge of a view with an extent in its middle, half of whose height is this.
fn top(extent: Extent, half: i128) -> i128
    requires { unsigned_abs half ≤ 2 ^ 96 }
    ensures { result ≡ extent.ymin +ℤ extent.ymax +ℤ half }
{
    i128::from(extent.ymin) + i128::from(extent.ymax) + half
}
