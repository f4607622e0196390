//! The cell of a record's geometry.

ghost use Rattle.std.specs.Prelude.{◌≡◌, IfOk};
ghost use Rattle.std.specs.List.{list_all};
ghost use Rattle.cv_model.specs.Geometries.{counted};
ghost use Rattle.cv_reading.specs.Space.{is_space};
ghost use Rattle.cv_dtext.specs.Cell.{cell_of, geometry_in, vertices_in, note_on};

use cv_model::{Geometry, NoMemory, Note, WktError};
use cv_reading::is_space;
use std::alloc::{AllocError, Global};

/// What the cell of a geometry says.
#[derive(Drop)]
pub enum Cell {
    /// Nothing.
    Empty,
    /// A geometry.
    Geometry(Geometry),
    /// A text that is no geometry.
    Refused(WktError),
}

/// Whether a cell is empty or white.
fn is_blank(bytes: &[u8]) -> bool
    ensures { result ≡ list_all is_space bytes.now }
{
    bytes.iter().all(|byte| is_space(*byte))
}

/// What a cell says, as the grammar of well-known text has it.
#[tactic(auto, unfolding(crate::specs::Cell::cell_of))]
pub fn read_cell(alloc: Global, bytes: &[u8]) -> Result<Cell, NoMemory>
    ensures { IfOk result (λ cell. cell ≡ cell_of bytes.now) }
{
    if is_blank(bytes) {
        return Ok(Cell::Empty);
    }
    match cv_wkt::read(alloc, bytes) {
        Ok(geometry) => Ok(Cell::Geometry(geometry)),
        Err(WktError::NoMemory) => Err(AllocError),
        Err(error) => Ok(Cell::Refused(error)),
    }
}

impl Cell {
    /// How many vertices its geometry has, up to 2^64-1.
    pub fn vertices(&self) -> u64
        ensures { result ≡ counted (vertices_in self.now) }
    {
        match self {
            Cell::Geometry(geometry) => geometry.vertices(),
            _ => 0,
        }
    }

    /// The note on it as the cell of the record of this number, where its text is refused.
    pub fn note(&self, number: u32) -> Option<Note>
        ensures { result ≡ note_on number self.now }
    {
        match self {
            Cell::Refused(error) => Some(Note {
                row: number,
                error: *error,
            }),
            _ => None,
        }
    }

    /// Its geometry.
    pub fn into_geometry(self) -> Option<Geometry>
        ensures { result ≡ geometry_in self }
    {
        match self {
            Cell::Geometry(geometry) => Some(geometry),
            _ => None,
        }
    }
}
