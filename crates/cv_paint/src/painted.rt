//! The pixels of a layer at a view.

ghost use Rattle.std.specs.Prelude.{◌≡◌, ◌+◌, ◌≤◌, ◌++◌, OnOk, IfOk, IfErr, true};
ghost use Rattle.cv_model.specs.Colours.{transparent};
ghost use Rattle.cv_model.specs.Rasters.{pixels_of};
ghost use Rattle.cv_model.specs.Pictures.{pixel};
ghost use Rattle.cv_layer.specs.Layers.{contents_seen};
ghost use Rattle.cv_paint.specs.Finish.{IsMaskOf, StopCause};
ghost use Rattle.cv_paint.specs.Inks.{is_ink_of};
ghost use Rattle.cv_paint.specs.Layings.{IsSized, TakesLayer};
ghost use Rattle.cv_paint.specs.Masks.{IsMask, IsCoverOf};
ghost use Rattle.cv_paint.specs.Costs.{contents_cost, mask_cost, view_cost};
ghost use Rattle.cv_paint.specs.Scenes.{scene_pixels, scene_cost};

use crate::error::PaintError;
use crate::features::lay_table;
use crate::finish::{put_cells, put_rows};
use crate::inks::ink_of;
use crate::layings::Workspace;
use crate::masks::cover_table;
use crate::symbols::Symbols;
use cv_canvas::{Canvas, CountCanvas, Cover, OpaqueCanvas, PixelCanvas};
use cv_geom::Steps;
use cv_layer::{LayerContents, LayerInput, Table};
use cv_model::{Rgba, RgbaList, View};
use cv_outside::Stop;
use std::alloc::Global;
use std::sync::ledger::Ledger;

/// What a mask layer with these contents shows.
fn cover_of<S: Stop, L: Ledger>(
    alloc: Global,
    contents: &LayerContents,
    view: &View,
    work: &mut Workspace,
    stop: &mut S,
    steps: &mut Steps<L>,
) -> Result<Cover, PaintError>
    ensures counts { S.yeses stop.old ≤ S.yeses stop.new }
    ensures ok { IfOk result (IsCoverOf view.now (contents_seen contents.now)) }
    ensures quiet { OnOk result (S.yeses stop.new ≡ S.yeses stop.old) }
    ensures err { IfErr result (λ e. StopCause e (S.yeses stop.old) (S.yeses stop.new)) }
    ensures cost { steps.new ≤ steps.old + contents_cost view.now (contents_seen contents.now) }
{
    let mut cover = Cover::new(alloc, view.w, view.h)?;
    match contents {
        LayerContents::Text(table) => {
            cover_table(&mut cover, table, view, work, stop, steps)?;
            Ok(cover)
        }
        LayerContents::Grid(_) => Ok(cover),
    }
}

/// The mask of a layer, if it has one.
fn mask_of<S: Stop, L: Ledger>(
    alloc: Global,
    input: &LayerInput,
    view: &View,
    work: &mut Workspace,
    stop: &mut S,
    steps: &mut Steps<L>,
) -> Result<Option<Cover>, PaintError>
    ensures counts { S.yeses stop.old ≤ S.yeses stop.new }
    ensures ok { IfOk result (IsMask view.now input.now.parts.mask) }
    ensures quiet { OnOk result (S.yeses stop.new ≡ S.yeses stop.old) }
    ensures err { IfErr result (λ e. StopCause e (S.yeses stop.old) (S.yeses stop.new)) }
    ensures cost { steps.new ≤ steps.old + mask_cost view.now input.now.parts.mask }
{
    match input.mask() {
        Some(layer) => {
            let cover = cover_of(alloc, layer.contents(), view, work, stop, steps)?;
            Ok(Some(cover))
        }
        None => Ok(None),
    }
}

/// A text layer at a view: its features, what each is drawn with, and what its mask shows.
#[derive(Drop)]
struct Scene<'a> {
    table: &'a Table,
    symbols: &'a Symbols<'a>,
    mask: &'a Option<Cover>,
    view: &'a View,
}

/// Puts the pixels of a text layer, as a mask shows them, behind others, row by row from the top, by a canvas
/// on which nothing lies yet.
fn paint_on<C: Canvas, S: Stop, L: Ledger>(
    alloc: Global,
    canvas: &mut C,
    scene: &Scene,
    work: &mut Workspace,
    stop: &mut S,
    steps: &mut Steps<L>,
    pixels: &mut RgbaList,
) -> Result<(), PaintError>
    requires size { IsSized scene.now.view.now (C.frame canvas.old) }
    requires ink { TakesLayer (C.frame canvas.old).ink scene.now.symbols.now }
    requires clear { C.at canvas.old ≡ (λ i j. transparent) }
    requires mask { IsMaskOf scene.now.view.now scene.now.mask.now }
    ensures counts { S.yeses stop.old ≤ S.yeses stop.new }
    ensures ok { OnOk result (pixels.new ≡ pixels.old ++ scene_pixels scene.now) }
    ensures quiet { OnOk result (S.yeses stop.new ≡ S.yeses stop.old) }
    ensures err { IfErr result (λ e. StopCause e (S.yeses stop.old) (S.yeses stop.new)) }
    ensures cost { steps.new ≤ steps.old + scene_cost scene.now }
{
    let (mask, view) = (scene.mask, scene.view);
    lay_table(canvas, scene.table, scene.symbols, view, work, stop, steps)?;
    put_rows(alloc, &*canvas, mask, view, stop, steps, pixels)?;
    Ok(())
}

/// The same, where all strokes have one colour.
fn paint_ink<S: Stop, L: Ledger>(
    alloc: Global,
    ink: Rgba,
    scene: &Scene,
    work: &mut Workspace,
    stop: &mut S,
    steps: &mut Steps<L>,
    pixels: &mut RgbaList,
) -> Result<(), PaintError>
    requires ink { is_ink_of ink scene.now.symbols.now.own.style ≡ true }
    requires mask { IsMaskOf scene.now.view.now scene.now.mask.now }
    ensures counts { S.yeses stop.old ≤ S.yeses stop.new }
    ensures ok { OnOk result (pixels.new ≡ pixels.old ++ scene_pixels scene.now) }
    ensures quiet { OnOk result (S.yeses stop.new ≡ S.yeses stop.old) }
    ensures err { IfErr result (λ e. StopCause e (S.yeses stop.old) (S.yeses stop.new)) }
    ensures cost { steps.new ≤ steps.old + scene_cost scene.now }
{
    let view = scene.view;
    if ink.a == 255 {
        let mut canvas = OpaqueCanvas::new(alloc, view.w, view.h, ink)?;
        paint_on(alloc, &mut canvas, scene, work, stop, steps, pixels)
    } else {
        let mut canvas = CountCanvas::new(alloc, view.w, view.h, ink)?;
        paint_on(alloc, &mut canvas, scene, work, stop, steps, pixels)
    }
}

/// Puts the pixels of a text layer, as a mask shows them, behind others, row by row from the top.
fn paint_scene<S: Stop, L: Ledger>(
    alloc: Global,
    scene: &Scene,
    work: &mut Workspace,
    stop: &mut S,
    steps: &mut Steps<L>,
    pixels: &mut RgbaList,
) -> Result<(), PaintError>
    requires { IsMaskOf scene.now.view.now scene.now.mask.now }
    ensures counts { S.yeses stop.old ≤ S.yeses stop.new }
    ensures ok { OnOk result (pixels.new ≡ pixels.old ++ scene_pixels scene.now) }
    ensures quiet { OnOk result (S.yeses stop.new ≡ S.yeses stop.old) }
    ensures err { IfErr result (λ e. StopCause e (S.yeses stop.old) (S.yeses stop.new)) }
    ensures cost { steps.new ≤ steps.old + scene_cost scene.now }
{
    let view = scene.view;
    let layer = scene.symbols.input().layer();
    match ink_of(layer.style()) {
        Some(ink) => paint_ink(alloc, ink, scene, work, stop, steps, pixels),
        None => {
            let mut canvas = PixelCanvas::new(alloc, view.w, view.h)?;
            paint_on(alloc, &mut canvas, scene, work, stop, steps, pixels)
        }
    }
}

/// Puts the pixels of a layer at a view behind others, row by row from the top.
pub fn paint_view<S: Stop, L: Ledger>(
    alloc: Global,
    symbols: &Symbols,
    view: &View,
    stop: &mut S,
    steps: &mut Steps<L>,
    pixels: &mut RgbaList,
) -> Result<(), PaintError>
    ensures counts { S.yeses stop.old ≤ S.yeses stop.new }
    ensures ok { OnOk result
        (pixels.new ≡ pixels.old ++ pixels_of view.now.w view.now.h (pixel symbols.now view.now)) }
    ensures quiet { OnOk result (S.yeses stop.new ≡ S.yeses stop.old) }
    ensures err { IfErr result (λ e. StopCause e (S.yeses stop.old) (S.yeses stop.new)) }
    ensures cost { steps.new ≤ steps.old + view_cost view.now symbols.now }
{
    let input = symbols.input();
    let mut work = Workspace::new(alloc);
    let mask = mask_of(alloc, input, view, &mut work, stop, steps)?;
    let layer = input.layer();
    match layer.contents() {
        LayerContents::Text(table) => {
            let scene = Scene {
                table,
                symbols,
                mask: &mask,
                view,
            };
            paint_scene(alloc, &scene, &mut work, stop, steps, pixels)?;
            Ok(())
        }
        LayerContents::Grid(cells) => {
            put_cells(
                alloc,
                cells,
                layer.style(),
                &mask,
                view,
                stop,
                steps,
                pixels,
            )?;
            Ok(())
        }
    }
}
