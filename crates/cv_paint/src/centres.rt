//! Painting a piece by testing every feature at every pixel centre: the definitions as a program.

ghost use Rattle.std.specs.Prelude.{◌≡◌, ◌<◌, ◌≤◌, ◌++◌, OnOk, IfOk, IfErr};
ghost use Rattle.std.specs.List.{flat_map, list_any};
ghost use Rattle.std.specs.Option.{option_copied};
ghost use Rattle.cv_model.specs.Views.{centre_of};
ghost use Rattle.cv_model.specs.Colours.{laid, laid_on};
ghost use Rattle.cv_model.specs.Rasters.{row_of, pixels_of};
ghost use Rattle.cv_model.specs.Pictures.{feature_strokes, is_feature_at, shows, is_shown, painted, pixel};
ghost use Rattle.cv_layer.specs.Layers.{contents_seen};
ghost use Rattle.cv_paint.specs.Finish.{StopCause};

use crate::cells::cell_colour;
use crate::error::PaintError;
use crate::hits::is_covered;
use crate::strokes::with_strokes;
use crate::texts::feature_symbol;
use cv_geom::centre;
use cv_layer::{FeatureRow, LayerContents, LayerInput, PaintedLayer, Piece, Table};
use cv_model::{Image, NoMemory, Point2, Rgba, RgbaList, View};
use cv_outside::Stop;
use std::alloc::Global;

/// A pixel on which nothing lies.
const CLEAR: Rgba = Rgba {
    r: 0,
    g: 0,
    b: 0,
    a: 0,
};

/// A pixel with the strokes of a layer's feature on it.
fn with_row(pixel: Rgba, row: &FeatureRow, input: &LayerInput, view: &View, p: Point2) -> Rgba
    ensures { result ≡ laid_on pixel (feature_strokes input.now.parts view.now p row.now) }
{
    let Some(symbol) = feature_symbol(input, row) else {
        return pixel;
    };
    match row.geometry() {
        Some(geometry) => with_strokes(pixel, geometry, symbol, view, p),
        None => pixel,
    }
}

/// A pixel with the strokes of some of a layer's features on it, in their order.
#[tactic(auto, using(crate::proofs::LayLemmas::laid_more))]
fn with_rows(pixel: Rgba, rows: &[FeatureRow], input: &LayerInput, view: &View, p: Point2) -> Rgba
    ensures { result ≡ laid_on pixel (flat_map (feature_strokes input.now.parts view.now p) rows.now) }
{
    let mut pixel = pixel;
    for row in rows {
        pixel = with_row(pixel, row, input, view, p);
    }
    pixel
}

/// The strokes of a table's features at a centre, laid in their order.
fn table_pixel(table: &Table, input: &LayerInput, view: &View, p: Point2) -> Rgba
    ensures { result ≡ laid (flat_map (feature_strokes input.now.parts view.now p) table.now.features) }
{
    let rows = table.rows();
    let mut pixel = CLEAR;
    let mut at = 0;
    while at < rows.len() {
        let run = rows.run_from(at);
        pixel = with_rows(pixel, run, input, view, p);
        at += run.len() as u64;
    }
    pixel
}

/// Whether some polygon of a feature has a position inside.
fn is_feature_at(row: &FeatureRow, p: Point2) -> bool
    ensures { result ≡ is_feature_at p row.now }
{
    match row.geometry() {
        Some(geometry) => is_covered(geometry, p),
        None => false,
    }
}

/// Whether some polygon of some of these features has a position inside.
fn is_some_at(rows: &[FeatureRow], p: Point2) -> bool
    ensures { result ≡ list_any (is_feature_at p) rows.now }
{
    rows.iter().any(|row| is_feature_at(row, p))
}

/// Whether some polygon of a table's features has a position inside.
fn is_table_at(table: &Table, p: Point2) -> bool
    ensures { result ≡ list_any (is_feature_at p) table.now.features }
{
    let rows = table.rows();
    let mut at = 0;
    while at < rows.len() {
        let run = rows.run_from(at);
        if is_some_at(run, p) {
            return true;
        }
        at += run.len() as u64;
    }
    false
}

/// Whether a mask layer with these contents shows a position.
fn shows(contents: &LayerContents, p: Point2) -> bool
    ensures { result ≡ shows p (contents_seen contents.now) }
{
    match contents {
        LayerContents::Text(table) => is_table_at(table, p),
        LayerContents::Grid(_) => false,
    }
}

/// Whether a layer's mask shows a position, if the layer has one.
fn is_shown(input: &LayerInput, p: Point2) -> bool
    ensures { result ≡ is_shown p input.now.parts.mask }
{
    match input.mask() {
        Some(layer) => shows(layer.contents(), p),
        None => true,
    }
}

/// What a layer's contents paint at a centre.
fn painted(contents: &LayerContents, input: &LayerInput, view: &View, p: Point2) -> Rgba
    ensures { result ≡ painted (contents_seen contents.now) input.now.parts view.now p }
{
    match contents {
        LayerContents::Text(table) => table_pixel(table, input, view, p),
        LayerContents::Grid(cells) => cell_colour(cells, input.layer().style(), p),
    }
}

/// A layer's pixel in a column and a row of a view.
#[tactic(auto, unfolding(cv_model::specs::Pictures::pixel))]
fn pixel(input: &LayerInput, view: &View, i: u32, j: u32) -> Rgba
    requires column { i < view.now.w }
    requires row { j < view.now.h }
    ensures { result ≡ pixel input.now.parts view.now i j }
{
    let p = centre(view, i, j);
    if is_shown(input, p) {
        painted(input.layer().contents(), input, view, p)
    } else {
        CLEAR
    }
}

/// Puts the pixels of a layer's row behind others.
#[tactic(auto, using(cv_model::proofs::Rows::row_more))]
fn put_row(pixels: &mut RgbaList, input: &LayerInput, view: &View, j: u32) -> Result<(), NoMemory>
    requires row { j < view.now.h }
    ensures { OnOk result
        (pixels.new ≡ pixels.old ++ row_of view.now.w (pixel input.now.parts view.now) j) }
{
    for i in 0..view.w {
        pixels.put(pixel(input, view, i, j))?;
    }
    Ok(())
}

/// Puts the pixels of a layer behind others, row by row from the top. The stop is asked before each row.
fn put_rows<S: Stop>(
    pixels: &mut RgbaList,
    input: &LayerInput,
    view: &View,
    stop: &mut S,
) -> Result<(), PaintError>
    ensures counts { S.yeses stop.old ≤ S.yeses stop.new }
    ensures ok { OnOk result
        (pixels.new ≡ pixels.old ++ pixels_of view.now.w view.now.h (pixel input.now.parts view.now)) }
    ensures quiet { OnOk result (S.yeses stop.new ≡ S.yeses stop.old) }
    ensures err { IfErr result (λ e. StopCause e (S.yeses stop.old) (S.yeses stop.new)) }
{
    for j in 0..view.h {
        if stop.poll() {
            return Err(PaintError::Stopped);
        }
        put_row(pixels, input, view, j)?;
    }
    Ok(())
}

/// The layer of a piece painted at its view, each feature tested at each pixel's centre: what `paint` gives,
/// more slowly.
///
/// It is there to be read and to be compared with, and each of its calls says what a definition says. The
/// image has the view's pixels, row by row from the top.
///
/// The stop is asked before each row; after a yes nothing more is painted. Errors: `Stopped` at a yes,
/// `NoMemory` where memory is wanting; the piece stays as it is at both. Source: this project's own rules;
/// colours are laid by W3C Compositing and Blending Level 1, source-over.
pub fn plain<S: Stop>(
    alloc: Global,
    piece: &Piece,
    stop: &mut S,
) -> Result<PaintedLayer, PaintError>
    ensures counts { S.yeses stop.old ≤ S.yeses stop.new }
    ensures ok { IfOk result
        (λ painted. painted ≡ record { input = piece.now.input; view = piece.now.view }) }
    ensures quiet { OnOk result (S.yeses stop.new ≡ S.yeses stop.old) }
    ensures err { IfErr result (λ e. StopCause e (S.yeses stop.old) (S.yeses stop.new)) }
{
    let view = piece.view;
    let mut pixels = RgbaList::with_room(alloc, u64::from(view.w) * u64::from(view.h))?;
    put_rows(&mut pixels, piece.input.value(), &view, stop)?;
    let input = piece.input.clone()?;
    let image = Image::of(view.w, view.h, pixels);
    Ok(PaintedLayer::of(input, view, image))
}
