//! Layers from texts. A pixel is a map unit each way, and the bottom left one lies at the origin.

ghost use Rattle.std.specs.Prelude.{◌≡◌, false, None, IfOk};
ghost use Rattle.cv_model.specs.ProjectFiles.{is_ramp};

use cv_dtext::{TextOptions, read};
use cv_geom::view_of;
use cv_layer::{Layer, LayerInput, Piece, SharedLayer};
use cv_model::{
    Delimiter, Extent, FeatureList, Join, LayerData, Pen, Ramp, Rgba, Room, Style, Symbol, Text,
    View,
};
use std::alloc::{AllocError, Global};
use std::test::Fail;

const WIDE: Room = Room {
    features: 100,
    vertices: 1000,
    values: 100,
};

/// A symbol of a fill alone.
pub fn fill(colour: Rgba) -> Symbol {
    Symbol {
        fill: Some(colour),
        pen: None,
        marker: None,
    }
}

/// A symbol of a pen of one pixel alone.
pub fn pen(colour: Rgba) -> Symbol {
    Symbol {
        fill: None,
        pen: Some(Pen { colour, width: 1 }),
        marker: None,
    }
}

/// The features in a text, whose fields stand between semicolons and whose geometries in the column `wkt`.
fn features(alloc: Global, text: &str) -> Result<FeatureList, Fail> {
    let options = TextOptions {
        delimiter: Delimiter::Semicolon,
        geometry: Text::of(alloc, "wkt")?,
        room: WIDE,
    };
    let bytes = text.as_bytes();
    if bytes.len() > 10_000 {
        return Err(Fail::from(AllocError));
    }
    Ok(read(alloc, bytes, &options)?)
}

/// The layer of the features in a text.
pub fn layer(
    alloc: Global,
    id: u32,
    text: &str,
    style: Style,
    mask: Option<u32>,
    join: Option<Join>,
) -> Result<SharedLayer, Fail>
    requires { is_ramp style ≡ false }
    ensures id { IfOk result (λ made. made.core.id ≡ id) }
    ensures mask { IfOk result (λ made. made.core.mask ≡ mask) }
    ensures join { IfOk result (λ made. made.core.join ≡ join) }
{
    let contents = LayerData::Text(features(alloc, text)?);
    let layer = Layer::of(alloc, id, style, mask, join, contents, 1)?;
    match SharedLayer::of(alloc, layer) {
        Ok(shared) => Ok(shared),
        Err(refused) => Err(Fail::from(refused.1)),
    }
}

/// The layer of the features in a text, drawn alike.
pub fn single(
    alloc: Global,
    id: u32,
    text: &str,
    symbol: Symbol,
    mask: Option<u32>,
) -> Result<SharedLayer, Fail>
    ensures id { IfOk result (λ made. made.core.id ≡ id) }
    ensures mask { IfOk result (λ made. made.core.mask ≡ mask) }
    ensures join { IfOk result (λ made. made.core.join ≡ None) }
{
    layer(alloc, id, text, Style::Single(symbol), mask, None)
}

/// The layer of the grid in a text, coloured by a ramp.
pub fn grid(
    alloc: Global,
    id: u32,
    text: &str,
    ramp: Ramp,
    mask: Option<u32>,
) -> Result<SharedLayer, Fail>
    ensures id { IfOk result (λ made. made.core.id ≡ id) }
    ensures mask { IfOk result (λ made. made.core.mask ≡ mask) }
    ensures join { IfOk result (λ made. made.core.join ≡ None) }
{
    let bytes = text.as_bytes();
    if bytes.len() > 10_000 {
        return Err(Fail::from(AllocError));
    }
    let contents = LayerData::Grid(cv_grid::read(alloc, bytes, 1000)?);
    let layer = Layer::of(alloc, id, Style::Ramp(ramp), mask, None, contents, 1)?;
    match SharedLayer::of(alloc, layer) {
        Ok(shared) => Ok(shared),
        Err(refused) => Err(Fail::from(refused.1)),
    }
}

/// The view of so many map units, a pixel each.
fn units(across: u16, upwards: u16) -> Result<View, Fail> {
    let extent = Extent {
        xmin: 0,
        ymin: 0,
        xmax: i64::from(across) * 1_000_000,
        ymax: i64::from(upwards) * 1_000_000,
    };
    Ok(view_of(extent, u32::from(across), u32::from(upwards))?)
}

/// What is to be painted of an input, at the view of so many map units.
pub fn piece(alloc: Global, input: LayerInput, across: u16, upwards: u16) -> Result<Piece, Fail> {
    let view = units(across, upwards)?;
    match cv_chunks::Shared::of(alloc, input) {
        Ok(input) => Ok(Piece {
            job: 1,
            slot: 0,
            input,
            view,
        }),
        Err(refused) => Err(Fail::from(refused.1)),
    }
}
