//! Counts of what layers hold, as the limits ask for them.

ghost use Rattle.std.specs.Prelude.{◌≡◌, ◌+◌, ◌≤◌, IfOk, length, sum_by, true};
ghost use Rattle.std.specs.Option.{option_copied, option_map_or};
ghost use Rattle.cv_model.specs.Geometries.{counted, vertices_of};
ghost use Rattle.cv_model.specs.Edits.{feature_vertices};
ghost use Rattle.cv_layer.specs.Layers.{contents_seen};
ghost use Rattle.cv_store.specs.Tallies.{tally_of, passes, IsPartOf, IsExchanged};
ghost use Rattle.cv_store.specs.Tallies.{feature_tally, vertex_tally, no_tally};

use cv_layer::{LayerContents, NoMemory};
use cv_model::{Feature, Geometry};
use std::alloc::AllocError;

/// How many features, vertices, attribute values and cells there are.
#[derive(Clone, Copy, Debug)]
pub struct Tally {
    pub features: u64,
    pub vertices: u64,
    pub values: u64,
    pub cells: u64,
}

/// What a layer holds, counted. Its counts are kept with it.
pub fn tally_of(contents: &LayerContents) -> Tally
    ensures { result ≡ tally_of (contents_seen contents.now) }
{
    match contents {
        LayerContents::Text(table) => Tally {
            features: table.rows().len(),
            vertices: table.vertices(),
            values: table.values(),
            cells: 0,
        },
        LayerContents::Grid(cells) => Tally {
            features: 0,
            vertices: 0,
            values: 0,
            cells: cells.cells().len(),
        },
    }
}

/// No counts.
pub const NONE: Tally = Tally {
    features: 0,
    vertices: 0,
    values: 0,
    cells: 0,
};

/// The vertices of a geometry, if there is one. The count stops at 2^64-1.
fn vertices_in(geometry: Option<&Geometry>) -> u64
    ensures { result ≡ counted (option_map_or vertices_of (option_copied geometry.entry) 0) }
{
    match geometry {
        Some(geometry) => geometry.vertices(),
        None => 0,
    }
}

/// The vertices of a geometry alone, if there is one, counted up to 2^64-1.
pub fn geometry_tally(geometry: Option<&Geometry>) -> Tally
    ensures { result ≡ vertex_tally (option_map_or vertices_of (option_copied geometry.entry) 0) }
{
    Tally {
        features: 0,
        vertices: vertices_in(geometry),
        values: 0,
        cells: 0,
    }
}

/// A feature, counted; its vertices up to 2^64-1.
pub fn feature_tally(feature: &Feature) -> Tally
    ensures { result ≡ feature_tally feature.now }
{
    Tally {
        features: 1,
        vertices: vertices_in(feature.geometry.as_ref()),
        values: feature.values.len(),
        cells: 0,
    }
}

/// A count with another one in place of a part of it. One that 64 bits don't hold is want of memory, which
/// no such count fits.
fn exchanged(whole: u64, part: u64, other: u64) -> Result<u64, NoMemory>
    requires { part ≤ whole }
    ensures { IfOk result (λ made. made + part ≡ whole + other) }
{
    (whole - part).checked_add(other).ok_or(AllocError)
}

impl Tally {
    /// The counts with others in place of a part of them.
    pub fn exchanged(self, part: Tally, other: Tally) -> Result<Tally, NoMemory>
        requires { IsPartOf part self }
        ensures { IfOk result (IsExchanged self part other) }
    {
        Ok(Tally {
            features: exchanged(self.features, part.features, other.features)?,
            vertices: exchanged(self.vertices, part.vertices, other.vertices)?,
            values: exchanged(self.values, part.values, other.values)?,
            cells: exchanged(self.cells, part.cells, other.cells)?,
        })
    }

    /// The counts without a part of them.
    pub fn less(self, part: Tally) -> Tally
        requires { IsPartOf part self }
        ensures { IsExchanged self part no_tally result }
    {
        Tally {
            features: self.features - part.features,
            vertices: self.vertices - part.vertices,
            values: self.values - part.values,
            cells: self.cells - part.cells,
        }
    }
}
