//! The name of a layer whose data were refused.

ghost use Rattle.std.specs.Prelude.{◌≡◌, ℕ, List, Some, IsTrue, IfSome, option_map, slice_get};
ghost use Rattle.canvas.specs.Lines.{IsNameAt};

use cv_model::{ProjectFile, Text};
use cv_outside::{Shelf, read_file};
use std::alloc::Global;

/// The most bytes of a project's file.
const MOST_PROJECT: u64 = 16_777_216;

/// The name of the layer at a place of a project. None where it has no such layer, or for want of memory.
fn name_in(alloc: Global, file: &ProjectFile, place: u32) -> Option<Text>
    ensures { IfSome result (λ name.
        option_map (λ layer. layer.name) (slice_get file.now.layers place) ≡ Some name) }
{
    match file.layers().get(place as usize) {
        Some(layer) => Text::of(alloc, layer.name.as_str()).ok(),
        None => None,
    }
}

/// The same of the project that bytes say. None also where they say none.
fn name_at(alloc: Global, bytes: &[u8], place: u32) -> Option<Text>
    ensures { IfSome result (IsNameAt bytes.now place) }
{
    match cv_project::read(alloc, bytes) {
        Ok(file) => name_in(alloc, &file, place),
        Err(_) => None,
    }
}

/// The name of the layer at a place, from 0, of a project, whose file is read once more. None where that
/// fails, where the file has no such layer by now, or for want of memory.
pub fn layer_name<F: Shelf>(alloc: Global, shelf: &mut F, project: &str, place: u32) -> Option<Text>
    ensures { IfSome result (λ name. (bytes : List ℕ)
        × (IsTrue (F.tells shelf.old) → F.file_at shelf.old project.now ≡ Some bytes)
        × IsNameAt bytes place name) }
{
    match read_file(alloc, shelf, project, MOST_PROJECT) {
        Ok(bytes) => name_at(alloc, bytes.as_slice(), place),
        Err(_) => None,
    }
}
