//! A project is opened for one of its canvases, which is to be painted.

ghost use Rattle.std.specs.Prelude.{◌≡◌, ◌++◌, Ok, Err, Some, IfOk, slice_get};
ghost use Rattle.cv_model.specs.Openings.{CanOpen, first_view};
ghost use Rattle.cv_model.specs.ProjectFiles.{IsInForm, IsCanvas, IsSize, IsShown};
ghost use Rattle.cv_model.specs.Views.{PixelGrid, grid_of};
ghost use Rattle.cv_outside.specs.Seen.{shelf_seen, ShelfStands};
ghost use Rattle.cv_open.specs.Canvases.{canvas_path, lacking, canvas_view, view_in, layers_at, layers_for};
ghost use Rattle.cv_open.specs.Canvases.{shown};
ghost use Rattle.cv_open.specs.Readings.{IsReadAs, IsSaid};

use crate::ends::End;
use crate::opening::{Opened, read_project, with_layers};
use cv_model::{CanvasFile, Extent, NoMemory, ProjectFile, Text, View};
use cv_outside::Shelf;
use cv_project::ProjectError;
use std::alloc::Global;

/// An opened project, and the view of it that is to be painted.
#[derive(Drop)]
pub struct Shown {
    /// The project with the data of its layers.
    pub opened: Opened,
    /// What the canvas shows at first.
    pub view: View,
}

/// The path of a canvas, or of a field behind it.
fn path_of(alloc: Global, canvas: u32, field: &str) -> Result<Text, NoMemory>
    ensures { IfOk result (λ path. path ≡ canvas_path canvas ++ field.now) }
{
    let mut text = String::new(alloc);
    write!(text, "canvases[{canvas}]{field}")?;
    Text::of(alloc, text.as_str())
}

/// Why a canvas can't be painted: it isn't there, or the field behind it.
fn lacking(alloc: Global, canvas: u32, field: &str) -> End
    ensures { IsSaid {X = PixelGrid} (lacking (canvas_path canvas ++ field.now)) (Err result) }
{
    match path_of(alloc, canvas, field) {
        Ok(path) => End::BadProject(ProjectError::Missing(path)),
        Err(_) => End::NoMemory,
    }
}

/// The view of an extent that a size can show.
fn view_round(extent: Extent, w: u32, h: u32) -> View
    requires size { IsSize w h }
    requires shown { IsShown w h extent }
    ensures { result ≡ grid_of extent w h }
{
    match cv_geom::view_of(extent, w, h) {
        Ok(view) => view,
        Err(_) => unreachable!(),
    }
}

/// What a canvas shows at first.
fn canvas_view(alloc: Global, number: u32, canvas: &CanvasFile) -> Result<View, End>
    requires { IsCanvas canvas.now }
    ensures { IsSaid (canvas_view number (Some canvas.now)) result }
{
    match canvas.extent {
        Some(extent) => Ok(view_round(extent, canvas.width, canvas.height)),
        None => Err(lacking(alloc, number, ".extent")),
    }
}

/// What the canvas of this number shows at first.
fn view_in(alloc: Global, file: &ProjectFile, canvas: u32) -> Result<View, End>
    requires { IsInForm file.now }
    ensures { IsSaid (view_in file.now canvas) result }
{
    match file.canvases().get(canvas as usize) {
        Some(found) => canvas_view(alloc, canvas, found),
        None => Err(lacking(alloc, canvas, "")),
    }
}

/// Reads the layers of a project that is painted at a view.
fn with_view<F: Shelf>(
    alloc: Global,
    shelf: &mut F,
    file: ProjectFile,
    view: View,
) -> Result<Shown, End>
    requires { IsInForm file }
    ensures stands { ShelfStands (shelf_seen F.Shelf shelf.old) (shelf_seen F.Shelf shelf.new) }
    ensures read { IsReadAs (layers_at file view) result
        (shelf_seen F.Shelf shelf.old) (shelf_seen F.Shelf shelf.new) }
    ensures can { IfOk result (λ shown. CanOpen shown.opened.file shown.opened.contents) }
{
    match with_layers(alloc, shelf, file) {
        Ok(opened) => Ok(Shown { opened, view }),
        Err(end) => Err(end),
    }
}

/// Finds the view of the canvas, and then reads the layers of a project.
fn with_canvas<F: Shelf>(
    alloc: Global,
    shelf: &mut F,
    file: ProjectFile,
    canvas: u32,
) -> Result<Shown, End>
    requires { IsInForm file }
    ensures stands { ShelfStands (shelf_seen F.Shelf shelf.old) (shelf_seen F.Shelf shelf.new) }
    ensures read { IsReadAs (layers_for canvas file) result
        (shelf_seen F.Shelf shelf.old) (shelf_seen F.Shelf shelf.new) }
    ensures can { IfOk result (λ shown. CanOpen shown.opened.file shown.opened.contents) }
{
    match view_in(alloc, &file, canvas) {
        Ok(view) => with_view(alloc, shelf, file, view),
        Err(end) => Err(end),
    }
}

/// Reads a project, and then all its layers, where it has the canvas of this number and the canvas an extent;
/// else it is refused before any layer is read. A file is read once for each layer that names it.
#[tactic(auto, using(crate::proofs::ReadingLemmas::stands_on))]
pub fn open_canvas<F: Shelf>(
    alloc: Global,
    shelf: &mut F,
    name: &str,
    canvas: u32,
) -> Result<Shown, End>
    ensures stands { ShelfStands (shelf_seen F.Shelf shelf.old) (shelf_seen F.Shelf shelf.new) }
    ensures read { IsReadAs (shown name.now canvas) result
        (shelf_seen F.Shelf shelf.old) (shelf_seen F.Shelf shelf.new) }
    ensures can { IfOk result (λ shown. CanOpen shown.opened.file shown.opened.contents) }
{
    match read_project(alloc, shelf, name) {
        Ok(file) => with_canvas(alloc, shelf, file, canvas),
        Err(end) => Err(end),
    }
}
