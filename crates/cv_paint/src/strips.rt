//! Strips of a layer, painted.

ghost use Rattle.std.specs.Prelude.{◌≡◌, ◌+◌, ◌*◌, ◌≤◌, ◌++◌, [], OnOk, IfOk, IfErr, IfSome, true, false};
ghost use Rattle.std.specs.Option.{option_map_or};
ghost use Rattle.cv_model.specs.Pictures.{pixel};
ghost use Rattle.cv_layer.specs.Strips.{rect_pixels, strip_pixels};
ghost use Rattle.cv_paint.specs.Finish.{StopCause};
ghost use Rattle.cv_paint.specs.Costs.{most_steps, rect_cost};
ghost use Rattle.cv_paint.specs.Windows.{LiesInView, LieInView};

use crate::error::PaintError;
use crate::painted::paint_view;
use crate::symbols::Symbols;
use crate::windows::window;
use cv_geom::Steps;
use cv_layer::{LayerInput, Piece, Rect, StripImages, Strips};
use cv_model::{RgbaList, View};
use cv_outside::Stop;
use std::alloc::Global;
use std::sync::ledger::Ledger;

/// Whether a rectangle has pixels.
fn has_pixels(rect: Rect) -> bool
    ensures some { result ≡ true → (1 ≤ rect.w) × (1 ≤ rect.h) }
    ensures none { result ≡ false → rect.w * rect.h ≡ 0 }
{
    rect.w > 0 && rect.h > 0
}

/// Puts the pixels of a rectangle of a layer at a view behind others, row by row from its top.
fn paint_rect<S: Stop, L: Ledger>(
    alloc: Global,
    symbols: &Symbols,
    view: &View,
    rect: Rect,
    stop: &mut S,
    steps: &mut Steps<L>,
    pixels: &mut RgbaList,
) -> Result<(), PaintError>
    requires { LiesInView view.now rect }
    ensures counts { S.yeses stop.old ≤ S.yeses stop.new }
    ensures ok { OnOk result
        (pixels.new ≡ pixels.old ++ rect_pixels (pixel symbols.now view.now) rect) }
    ensures quiet { OnOk result (S.yeses stop.new ≡ S.yeses stop.old) }
    ensures err { IfErr result (λ e. StopCause e (S.yeses stop.old) (S.yeses stop.new)) }
    ensures cost { steps.new ≤ steps.old + rect_cost symbols.now rect }
{
    if !has_pixels(rect) {
        return Ok(());
    }
    let part = window(view, rect);
    paint_view(alloc, symbols, &part, stop, steps, pixels)?;
    Ok(())
}

/// The same, of a rectangle that may not be there.
fn paint_some<S: Stop, L: Ledger>(
    alloc: Global,
    symbols: &Symbols,
    view: &View,
    rect: Option<Rect>,
    stop: &mut S,
    steps: &mut Steps<L>,
    pixels: &mut RgbaList,
) -> Result<(), PaintError>
    requires { IfSome rect (LiesInView view.now) }
    ensures counts { S.yeses stop.old ≤ S.yeses stop.new }
    ensures ok { OnOk result (pixels.new ≡ pixels.old
        ++ option_map_or (rect_pixels (pixel symbols.now view.now)) rect []) }
    ensures quiet { OnOk result (S.yeses stop.new ≡ S.yeses stop.old) }
    ensures err { IfErr result (λ e. StopCause e (S.yeses stop.old) (S.yeses stop.new)) }
    ensures cost { steps.new ≤ steps.old + option_map_or (rect_cost symbols.now) rect 0 }
{
    match rect {
        Some(rect) => paint_rect(alloc, symbols, view, rect, stop, steps, pixels),
        None => Ok(()),
    }
}

/// How many pixels a rectangle has.
fn size_of(rect: Option<Rect>) -> u64 {
    match rect {
        Some(rect) => u64::from(rect.w) * u64::from(rect.h),
        None => 0,
    }
}

/// The pixels of strips of a layer at a view: the first strip's, row by row from its top, and then the
/// second's.
pub fn strips_painted<S: Stop, L: Ledger>(
    alloc: Global,
    input: &LayerInput,
    view: &View,
    strips: &Strips,
    stop: &mut S,
    steps: &mut Steps<L>,
) -> Result<RgbaList, PaintError>
    requires { LieInView view.now strips.now }
    ensures counts { S.yeses stop.old ≤ S.yeses stop.new }
    ensures ok { IfOk result (λ made. made ≡ strip_pixels (pixel input.now.parts view.now) strips.now) }
    ensures quiet { OnOk result (S.yeses stop.new ≡ S.yeses stop.old) }
    ensures err { IfErr result (λ e. StopCause e (S.yeses stop.old) (S.yeses stop.new)) }
    ensures cost { steps.new ≤ steps.old + most_steps input.now.parts strips.now }
{
    let (first, second) = (strips.first, strips.second);
    let room = size_of(first).saturating_add(size_of(second));
    let mut pixels = RgbaList::with_room(alloc, room)?;
    let symbols = Symbols::of(alloc, input, stop)?;
    paint_some(alloc, &symbols, view, first, stop, steps, &mut pixels)?;
    paint_some(alloc, &symbols, view, second, stop, steps, &mut pixels)?;
    Ok(pixels)
}

/// Strips of the layer of a piece, painted at its view by runs of pixels: the same pixels that `paint` gives
/// there. Those of the first strip come first, row by row from its top, and then those of the second; a strip
/// is counted in the view's columns and rows, from the top left.
///
/// The stop is asked before each row of each strip is finished, and now and then while features are laid or a
/// join layer or a mask layer is read; after a yes nothing more is painted. A step is an edge, a segment or a
/// point visited for one row, or one stroke, mask test or grid cell laid on one pixel; steps are counted at
/// an error too. Errors: `Stopped` at a yes, `NoMemory` where memory is wanting; the piece stays as it is at
/// both. Source: this project's own rules; colours are laid by W3C Compositing and Blending Level 1,
/// source-over.
pub fn paint_strips<S: Stop, L: Ledger>(
    alloc: Global,
    piece: &Piece,
    strips: &Strips,
    stop: &mut S,
    steps: &mut Steps<L>,
) -> Result<StripImages, PaintError>
    requires { LieInView piece.now.view strips.now }
    ensures counts { S.yeses stop.old ≤ S.yeses stop.new }
    ensures ok { IfOk result (λ painted. painted ≡ record {
      painting = record { input = piece.now.input; view = piece.now.view };
      strips = strips.now;
    }) }
    ensures quiet { OnOk result (S.yeses stop.new ≡ S.yeses stop.old) }
    ensures err { IfErr result (λ e. StopCause e (S.yeses stop.old) (S.yeses stop.new)) }
    ensures cost { steps.new ≤ steps.old + most_steps piece.now.input.parts strips.now }
{
    let view = piece.view;
    let pixels = strips_painted(alloc, piece.input.value(), &view, strips, stop, steps)?;
    let input = piece.input.clone()?;
    Ok(StripImages::of(input, view, *strips, pixels))
}
