//! A project is opened: its file is read, and then all its layers.

ghost use Rattle.std.specs.Prelude.{◌≤◌, length, codes, Err, IfOk, List, [], ℕ};
ghost use Rattle.cv_model.specs.Openings.{CanOpen};
ghost use Rattle.cv_model.specs.ProjectFiles.{IsInForm};
ghost use Rattle.cv_outside.specs.Seen.{shelf_seen, ShelfStands};
ghost use Rattle.cv_open.specs.Opened.{most_project, project_in, project_of, as_project, project_read};
ghost use Rattle.cv_open.specs.Opened.{layers_read, layers_of, opened};
ghost use Rattle.cv_open.specs.Readings.{IsReadAs, IsSaid, StandsFor};
ghost use Rattle.cv_open.specs.Rooms.{all_left};

use crate::ends::{End, Which};
use crate::files::fetch;
use crate::layer::read_layer;
use crate::room::Left;
use cv_model::{LayerData, LayerFile, ProjectFile, Sequence, Text};
use cv_outside::Shelf;
use cv_project::ProjectError;
use std::alloc::Global;

/// The most bytes that a project's file may have: 16 times 2^20.
const MOST_PROJECT: u64 = 16_777_216;

/// A project with the data of its layers, in the order of its file.
#[derive(Drop)]
pub struct Opened {
    /// The project's file.
    pub file: ProjectFile,
    /// The data of each layer.
    pub contents: Sequence<LayerData>,
}

/// Why a project's file that is too long is refused.
fn too_long(alloc: Global) -> End
    ensures { IsSaid (as_project (Err (ProjectError.Limit (codes "file")))) (Err result) }
{
    match Text::of(alloc, "file") {
        Ok(path) => End::BadProject(ProjectError::Limit(path)),
        Err(_) => End::NoMemory,
    }
}

/// The project that bytes say.
fn project_in(alloc: Global, bytes: &[u8]) -> Result<ProjectFile, End>
    ensures said { IsSaid (as_project (project_in bytes.now)) result }
    ensures form { IfOk result IsInForm }
{
    match cv_project::read(alloc, bytes) {
        Ok(file) => Ok(file),
        Err(ProjectError::NoMemory) => Err(End::NoMemory),
        Err(error) => Err(End::BadProject(error)),
    }
}

/// The project that bytes say; where there are none, they are too many.
fn project_of(alloc: Global, got: Option<Vec<u8>>) -> Result<ProjectFile, End>
    ensures said { (bytes : List ℕ) → StandsFor most_project got bytes
        → IsSaid (as_project (project_of bytes)) result }
    ensures form { IfOk result IsInForm }
{
    match got {
        Some(bytes) => project_in(alloc, bytes.as_slice()),
        None => Err(too_long(alloc)),
    }
}

/// Reads the project's file, once.
pub(crate) fn read_project<F: Shelf>(
    alloc: Global,
    shelf: &mut F,
    name: &str,
) -> Result<ProjectFile, End>
    ensures stands { ShelfStands (shelf_seen F.Shelf shelf.old) (shelf_seen F.Shelf shelf.new) }
    ensures read { IsReadAs (project_read name.now) result
        (shelf_seen F.Shelf shelf.old) (shelf_seen F.Shelf shelf.new) }
    ensures form { IfOk result IsInForm }
{
    match fetch(alloc, shelf, Which::Project, name, MOST_PROJECT) {
        Ok(got) => project_of(alloc, got),
        Err(end) => Err(end),
    }
}

/// Reads all layers, in this order.
fn read_layers<F: Shelf>(
    alloc: Global,
    shelf: &mut F,
    layers: &[LayerFile],
) -> Result<Sequence<LayerData>, End>
    requires { length layers.now ≤ 32 }
    ensures stands { ShelfStands (shelf_seen F.Shelf shelf.old) (shelf_seen F.Shelf shelf.new) }
    ensures read { IsReadAs (layers_read 0 all_left [] layers.now) result
        (shelf_seen F.Shelf shelf.old) (shelf_seen F.Shelf shelf.new) }
{
    let mut left = Left::all();
    let mut contents = Sequence::new(alloc);
    let mut place = 0;
    for layer in layers {
        match read_layer(alloc, shelf, place, &left, &layer.source) {
            Ok(read) => {
                left = read.left;
                if contents.put(read.contents).is_err() {
                    return Err(End::NoMemory);
                }
            }
            Err(end) => return Err(end),
        }
        place += 1;
    }
    Ok(contents)
}

/// Reads the layers of a project.
#[tactic(auto, using(crate::proofs::ReadingLemmas::stands_on))]
pub(crate) fn with_layers<F: Shelf>(
    alloc: Global,
    shelf: &mut F,
    file: ProjectFile,
) -> Result<Opened, End>
    requires { IsInForm file }
    ensures stands { ShelfStands (shelf_seen F.Shelf shelf.old) (shelf_seen F.Shelf shelf.new) }
    ensures read { IsReadAs (layers_of file) result
        (shelf_seen F.Shelf shelf.old) (shelf_seen F.Shelf shelf.new) }
    ensures form { IfOk result (λ opened. IsInForm opened.file) }
    ensures can { IfOk result (λ opened. CanOpen opened.file opened.contents) }
{
    match read_layers(alloc, shelf, file.layers()) {
        Ok(contents) => Ok(Opened { file, contents }),
        Err(end) => Err(end),
    }
}

/// Reads a project and all its layers: the project's file first, and then one for each layer in the order of
/// the file, also where two layers name the same. What is answered is in form and passes no limit, so that it
/// can be opened.
#[tactic(auto, using(crate::proofs::ReadingLemmas::stands_on))]
pub fn open<F: Shelf>(alloc: Global, shelf: &mut F, name: &str) -> Result<Opened, End>
    ensures stands { ShelfStands (shelf_seen F.Shelf shelf.old) (shelf_seen F.Shelf shelf.new) }
    ensures read { IsReadAs (opened name.now) result
        (shelf_seen F.Shelf shelf.old) (shelf_seen F.Shelf shelf.new) }
    ensures form { IfOk result (λ opened. IsInForm opened.file) }
    ensures can { IfOk result (λ opened. CanOpen opened.file opened.contents) }
{
    match read_project(alloc, shelf, name) {
        Ok(file) => with_layers(alloc, shelf, file),
        Err(end) => Err(end),
    }
}
