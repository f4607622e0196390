//! The canvases of a project's file: how large they are, and what they show at first.

ghost use Rattle.std.specs.Prelude.{◌≡◌, map, IfOk};
ghost use Rattle.std.specs.List.{All};
ghost use Rattle.cv_model.specs.Openings.{canvas_of_file, first_view};
ghost use Rattle.cv_model.specs.ProjectFiles.{IsCanvas};

use cv_geom::view_of;
use cv_model::{CanvasFile, CanvasSpec, NoMemory, View};
use std::alloc::Global;

/// The most layer images that a canvas keeps.
const MOST_IMAGES: u64 = 64;

/// How a canvas is made: its size, and how many layer images its cache may hold.
fn canvas_of_file(canvas: &CanvasFile) -> CanvasSpec
    requires { IsCanvas canvas.now }
    ensures { result ≡ canvas_of_file canvas.now }
{
    let (w, h) = (canvas.width, canvas.height);
    let bytes = 4 * (u64::from(w) * u64::from(h));
    let capacity = MOST_IMAGES.min(canvas.cache / bytes) as u32;
    CanvasSpec { w, h, capacity }
}

/// What a canvas shows at first: the view of its extent, if it has one.
fn first_view(canvas: &CanvasFile) -> Option<View>
    requires { IsCanvas canvas.now }
    ensures { result ≡ first_view canvas.now }
{
    view_of(canvas.extent?, canvas.width, canvas.height).ok()
}

/// How the canvases of a file are made.
pub(crate) fn specs_of(alloc: Global, canvases: &[CanvasFile]) -> Result<Vec<CanvasSpec>, NoMemory>
    requires { All IsCanvas canvases.now }
    ensures { IfOk result (λ specs. specs.items ≡ map canvas_of_file canvases.now) }
{
    let mut specs = Vec::new(alloc);
    for canvas in canvases {
        specs.push(canvas_of_file(canvas))?;
    }
    Ok(specs)
}

/// What the canvases of a file show at first.
pub(crate) fn first_views(
    alloc: Global,
    canvases: &[CanvasFile],
) -> Result<Vec<Option<View>>, NoMemory>
    requires { All IsCanvas canvases.now }
    ensures { IfOk result (λ views. views.items ≡ map first_view canvases.now) }
{
    let mut views = Vec::new(alloc);
    for canvas in canvases {
        views.push(first_view(canvas))?;
    }
    Ok(views)
}
