//! The picture of a store's project, and its bytes.

ghost use Rattle.std.specs.Prelude.{◌≡◌, IfOk};
ghost use Rattle.cv_model.specs.Paintings.{composed};
ghost use Rattle.cv_model.specs.Pictures.{picture};
ghost use Rattle.cv_model.specs.Rasters.{ppm_of};
ghost use Rattle.cv_store.specs.Stores.{project_of};

use crate::slots::paint_slots;
use cv_compose::{ComposeInput, Composed, Frame, compose};
use cv_model::{NoMemory, View};
use cv_store::Store;
use std::alloc::Global;

/// What the picture of a store's project at a view is composed of: an image of each layer that is visible and
/// painted at the view's scale, bottom first.
pub fn compose_input(alloc: Global, store: &Store, view: &View) -> Result<ComposeInput, NoMemory>
    ensures { IfOk result (λ made. composed made ≡ picture (project_of store.now) view.now) }
{
    let (slots, layers) = paint_slots(alloc, store, view)?;
    let frame = Frame::of(view.w, view.h, store.background(), slots);
    Ok(ComposeInput::of(frame, layers))
}

/// The picture of a store's project at a view, with what it is composed of.
pub fn paint(alloc: Global, store: &Store, view: &View) -> Result<Composed, NoMemory>
    ensures { IfOk result (λ made. composed made ≡ picture (project_of store.now) view.now) }
{
    let input = compose_input(alloc, store, view)?;
    compose(alloc, input)
}

/// The bytes of that picture in the portable pixmap format.
pub fn paint_bytes(alloc: Global, store: &Store, view: &View) -> Result<Vec<u8>, NoMemory>
    ensures { IfOk result (λ bytes. bytes.items ≡ ppm_of (picture (project_of store.now) view.now)) }
{
    let made = paint(alloc, store, view)?;
    cv_image::ppm(alloc, made.picture())
}
