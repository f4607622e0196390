//! How much may be read of a layer.

ghost use Rattle.std.specs.Prelude.{◌≡◌, ◌-◌, length, sum_by};
ghost use Rattle.cv_open.specs.Rooms.{all_left, most_bytes, most_cells, vertices_in, vertices_in_all};
ghost use Rattle.cv_open.specs.Rooms.{values_in_all, room_behind, left_behind};
ghost use Rattle.cv_model.specs.Geometries.{counted};

use cv_model::{Feature, FeatureList, Grid, LayerData, MOST_BYTES, Room};

/// What the layers before left of all that a project's layers may have together.
#[derive(Clone, Copy, Debug)]
pub struct Left {
    /// Features, vertices and values.
    pub room: Room,
    /// Cells of grids.
    pub cells: u32,
    /// Bytes of files.
    pub bytes: u64,
}

/// A count with as many taken away as there are, or all.
fn less(count: u32, by: u64) -> u32
    ensures { result ≡ count - by }
{
    u64::from(count).saturating_sub(by) as u32
}

/// How many vertices a feature has, up to 2^64-1.
fn vertices_in(feature: &Feature) -> u64
    ensures { result ≡ counted (vertices_in feature.now) }
{
    match &feature.geometry {
        Some(geometry) => geometry.vertices(),
        None => 0,
    }
}

/// How many vertices these features have together, up to 2^64-1.
fn vertices_of(features: &[Feature]) -> u64
    ensures { result ≡ counted (sum_by vertices_in features.now) }
{
    let mut vertices: u64 = 0;
    for feature in features {
        vertices = vertices.saturating_add(vertices_in(feature));
    }
    vertices
}

/// How many vertices all features have, up to 2^64-1.
pub fn vertices_in_all(table: &FeatureList) -> u64
    ensures { result ≡ vertices_in_all table.now }
{
    vertices_of(table.features())
}

/// How many values all features have, up to 2^64-1.
fn values_in_all(table: &FeatureList) -> u64
    ensures { result ≡ values_in_all table.now }
{
    let features = table.features().len() as u64;
    features.saturating_mul(table.columns().len() as u64)
}

/// What is left of the room behind these features.
fn room_behind(room: &Room, table: &FeatureList) -> Room
    ensures { result ≡ room_behind room.now table.now }
{
    Room {
        features: less(room.features, table.features().len() as u64),
        vertices: less(room.vertices, vertices_in_all(table)),
        values: less(room.values, values_in_all(table)),
    }
}

impl Left {
    /// What all layers of a project may have together.
    pub fn all() -> Left
        ensures { result ≡ all_left }
    {
        let room = Room {
            features: 1_000_000,
            vertices: 4_000_000,
            values: 16_000_000,
        };
        Left {
            room,
            cells: 64_000_000,
            bytes: 536_870_912,
        }
    }

    /// How many bytes the next file may have.
    pub fn most_bytes(&self) -> u64
        ensures { result ≡ most_bytes self.now }
    {
        MOST_BYTES.min(self.bytes)
    }

    /// How many cells the next grid may have.
    pub fn most_cells(&self) -> u32
        ensures { result ≡ most_cells self.now }
    {
        16_000_000.min(self.cells)
    }

    /// What is left behind a layer that was read from so many bytes.
    pub fn behind(&self, bytes: u64, contents: &LayerData) -> Left
        ensures { result ≡ left_behind self.now bytes contents.now }
    {
        let bytes = self.bytes.saturating_sub(bytes);
        match contents {
            LayerData::Text(table) => Left {
                room: room_behind(&self.room, table),
                cells: self.cells,
                bytes,
            },
            LayerData::Grid(grid) => Left {
                room: self.room,
                cells: less(self.cells, cells_in(grid)),
                bytes,
            },
        }
    }
}

/// How many cells a grid has.
fn cells_in(grid: &Grid) -> u64
    ensures { result ≡ length grid.now.cells }
{
    grid.cells().len()
}
