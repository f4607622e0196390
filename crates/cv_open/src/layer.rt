//! What the file of a layer says.

ghost use Rattle.std.specs.Prelude.{◌≡◌, ◌≤◌, length, IfOk, IfSome, List, ℕ};
ghost use Rattle.cv_outside.specs.Seen.{shelf_seen, ShelfStands};
ghost use Rattle.cv_open.specs.Opened.{text_data, grid_data, data_of, layer_of, layered, name_of, layer_read};
ghost use Rattle.cv_open.specs.Readings.{IsReadAs, IsSaid, StandsFor};
ghost use Rattle.cv_open.specs.Rooms.{most_bytes};

use crate::ends::{DataError, End, Which};
use crate::files::fetch;
use crate::room::Left;
use cv_dtext::{TextError, TextOptions};
use cv_grid::GridError;
use cv_model::{Delimiter, LayerData, MOST_BYTES, NoMemory, Source, Text};
use cv_outside::Shelf;
use std::alloc::{AllocError, Global};

/// The data of a layer, and what is left of the room behind it.
#[derive(Drop)]
pub struct Layered {
    /// The data.
    pub contents: LayerData,
    /// What later layers may have.
    pub left: Left,
}

/// The features of a delimited text, or why it is refused.
fn text_data(
    alloc: Global,
    delimiter: Delimiter,
    geometry: &Text,
    left: &Left,
    bytes: &[u8],
) -> Result<Result<LayerData, DataError>, NoMemory>
    requires { length bytes.now ≤ MOST_BYTES }
    ensures { IfOk result (λ d. d ≡ text_data delimiter geometry.now left.now bytes.now) }
{
    let geometry = Text::of(alloc, geometry.as_str())?;
    let options = TextOptions {
        delimiter,
        geometry,
        room: left.room,
    };
    match cv_dtext::read(alloc, bytes, &options) {
        Ok(table) => Ok(Ok(LayerData::Text(table))),
        Err(TextError::NoMemory) => Err(AllocError),
        Err(error) => Ok(Err(DataError::Text(error))),
    }
}

/// The grid of a text, or why it is refused.
fn grid_data(
    alloc: Global,
    left: &Left,
    bytes: &[u8],
) -> Result<Result<LayerData, DataError>, NoMemory>
    requires { length bytes.now ≤ MOST_BYTES }
    ensures { IfOk result (λ d. d ≡ grid_data left.now bytes.now) }
{
    match cv_grid::read(alloc, bytes, left.most_cells()) {
        Ok(grid) => Ok(Ok(LayerData::Grid(grid))),
        Err(GridError::NoMemory) => Err(AllocError),
        Err(error) => Ok(Err(DataError::Grid(error))),
    }
}

/// What the bytes of a source say, as far as there is room, or why they are refused.
fn data_of(
    alloc: Global,
    source: &Source,
    left: &Left,
    bytes: &[u8],
) -> Result<Result<LayerData, DataError>, NoMemory>
    requires { length bytes.now ≤ MOST_BYTES }
    ensures { IfOk result (λ d. d ≡ data_of source.now left.now bytes.now) }
{
    match source {
        Source::Text {
            file: _,
            delimiter,
            geometry,
        } => text_data(alloc, *delimiter, geometry, left, bytes),
        Source::Grid { file: _ } => grid_data(alloc, left, bytes),
    }
}

/// The name of a source's file.
fn name_of(source: &Source) -> &str
    ensures { result.now ≡ name_of source.now }
{
    match source {
        Source::Text { file, .. } => file.as_str(),
        Source::Grid { file } => file.as_str(),
    }
}

/// The layer at a place, and what is left behind its bytes, of which there are so many; or why they are
/// refused.
fn with_left(
    place: u32,
    left: &Left,
    bytes: u64,
    said: Result<LayerData, DataError>,
) -> Result<Layered, End>
    ensures { result ≡ layered place left.now bytes said }
{
    match said {
        Ok(contents) => {
            let left = left.behind(bytes, &contents);
            Ok(Layered { contents, left })
        }
        Err(error) => Err(End::BadData(place, error)),
    }
}

/// What the bytes of the layer at a place say; where there are none, they are too many.
fn said_of(
    alloc: Global,
    place: u32,
    left: &Left,
    source: &Source,
    got: Option<Vec<u8>>,
) -> Result<Layered, End>
    requires { IfSome got (λ bytes. length bytes.items ≤ most_bytes left.now) }
    ensures { (bytes : List ℕ) → StandsFor (most_bytes left.now) got bytes
        → IsSaid (layered place left.now (length bytes) (layer_of source.now left.now bytes)) result }
{
    let bytes = match got {
        Some(bytes) => bytes,
        None => return Err(End::BadData(place, DataError::TooLong)),
    };
    let text = bytes.as_slice();
    match data_of(alloc, source, left, text) {
        Ok(said) => with_left(place, left, text.len() as u64, said),
        Err(_) => Err(End::NoMemory),
    }
}

/// Reads the layer at a place, once.
pub fn read_layer<F: Shelf>(
    alloc: Global,
    shelf: &mut F,
    place: u32,
    left: &Left,
    source: &Source,
) -> Result<Layered, End>
    ensures stands { ShelfStands (shelf_seen F.Shelf shelf.old) (shelf_seen F.Shelf shelf.new) }
    ensures read { IsReadAs (layer_read place left.now source.now) result
        (shelf_seen F.Shelf shelf.old) (shelf_seen F.Shelf shelf.new) }
{
    match fetch(
        alloc,
        shelf,
        Which::Layer(place),
        name_of(source),
        left.most_bytes(),
    ) {
        Ok(got) => said_of(alloc, place, left, source, got),
        Err(end) => Err(end),
    }
}
