//! A layer painted at a view.

ghost use Rattle.std.specs.Prelude.{◌≡◌, ◌<◌, ◌≤◌, OnOk, IfOk, IfErr};
ghost use Rattle.cv_model.specs.Pictures.{pixel};
ghost use Rattle.cv_model.specs.Rasters.{pixels_of};
ghost use Rattle.cv_paint.specs.Finish.{StopCause};
ghost use Rattle.cv_paint.specs.Windows.{LieInView, whole_strips};

use crate::error::PaintError;
use crate::strips::strips_painted;
use cv_geom::Steps;
use cv_layer::{LayerInput, PaintedLayer, Piece, Rect, Strips};
use cv_model::{Image, RgbaList, View};
use cv_outside::Stop;
use std::alloc::Global;
use std::marker::Brand;
use std::sync::ledger::{Blank, Ledger};

/// The one strip of all pixels of a view.
fn whole_of(view: &View) -> Strips
    ensures strips { result ≡ whole_strips view.now }
    ensures within { LieInView view.now result }
{
    Strips {
        first: Some(Rect {
            i: 0,
            j: 0,
            w: view.w,
            h: view.h,
        }),
        second: None,
    }
}

/// All pixels of a layer at a view, row by row from the top.
fn pixels_painted<S: Stop, L: Ledger>(
    alloc: Global,
    input: &LayerInput,
    view: &View,
    stop: &mut S,
    steps: &mut Steps<L>,
) -> Result<RgbaList, PaintError>
    ensures counts { S.yeses stop.old ≤ S.yeses stop.new }
    ensures ok { IfOk result
        (λ made. made ≡ pixels_of view.now.w view.now.h (pixel input.now.parts view.now)) }
    ensures quiet { OnOk result (S.yeses stop.new ≡ S.yeses stop.old) }
    ensures err { IfErr result (λ e. StopCause e (S.yeses stop.old) (S.yeses stop.new)) }
{
    let whole = whole_of(view);
    let pixels = strips_painted(alloc, input, view, &whole, stop, steps)?;
    Ok(pixels)
}

/// The layer of a piece painted at its view, by runs of pixels: all of it as one strip.
///
/// The image has the view's pixels, row by row from the top; the view's edges are in doubled millionths of a
/// map unit, the side of its pixels in millionths. What lies on a pixel is decided at its centre, the first
/// feature below the later ones, and of each feature the fill, the pen and the marker in this order. Blend
/// mode, opacity and range of scales of the layer change nothing here: they matter where images are put
/// together.
///
/// The stop is asked before each row is finished, and now and then while features are laid or a join layer or
/// a mask layer is read; after a yes nothing more is painted. Errors: `Stopped` at a yes, `NoMemory` where
/// memory is wanting; the piece stays as it is at both. Source: this project's own rules; colours are laid by
/// W3C Compositing and Blending Level 1, source-over.
pub fn paint<S: Stop>(
    alloc: Global,
    piece: &Piece,
    stop: &mut S,
) -> Result<PaintedLayer, PaintError>
    ensures counts { S.yeses stop.old ≤ S.yeses stop.new }
    ensures ok { IfOk result
        (λ painted. painted ≡ record { input = piece.now.input; view = piece.now.view }) }
    ensures quiet { OnOk result (S.yeses stop.new ≡ S.yeses stop.old) }
    ensures err { IfErr result (λ e. StopCause e (S.yeses stop.old) (S.yeses stop.new)) }
{
    paint_counted::<S, Brand>(alloc, piece, stop, Blank::new(1))
}

/// The same, with a count of steps that nobody reads.
fn paint_counted<S: Stop, L: Ledger>(
    alloc: Global,
    piece: &Piece,
    stop: &mut S,
    blank: Blank,
) -> Result<PaintedLayer, PaintError>
    requires name { blank.name ≡ L.name }
    requires parts { blank.parts ≡ L.parts }
    requires some { 0 < L.parts }
    ensures counts { S.yeses stop.old ≤ S.yeses stop.new }
    ensures ok { IfOk result
        (λ painted. painted ≡ record { input = piece.now.input; view = piece.now.view }) }
    ensures quiet { OnOk result (S.yeses stop.new ≡ S.yeses stop.old) }
    ensures err { IfErr result (λ e. StopCause e (S.yeses stop.old) (S.yeses stop.new)) }
{
    let mut steps = Steps::<L>::of(blank);
    let view = piece.view;
    let pixels = pixels_painted(alloc, piece.input.value(), &view, stop, &mut steps)?;
    let input = piece.input.clone()?;
    let image = Image::of(view.w, view.h, pixels);
    Ok(PaintedLayer::of(input, view, image))
}
