//! The slots of a store's project at a view, each painted.

ghost use Rattle.std.specs.Prelude.{◌≡◌, [], Some, None, true, map, slice_get, option_map, option_and_then};
ghost use Rattle.std.specs.Prelude.{IfOk};
ghost use Rattle.std.specs.Prelude.{if◌then◌else◌};
ghost use Rattle.cv_model.specs.Layers.{is_slot, slots};
ghost use Rattle.cv_model.specs.Paintings.{slot_frame};
ghost use Rattle.cv_model.specs.Scales.{holds_scale};
ghost use Rattle.cv_compose.specs.Laws.{ArePlacesOf};
ghost use Rattle.cv_store.specs.Stores.{project_of, layer_of, frame_of, input_in};

use cv_chunks::Shared;
use cv_compose::{Slot, SlotImages, SlotList};
use cv_layer::{PaintedLayer, Piece};
use cv_model::{LayerFrame, NoMemory, Scales, View};
use cv_outside::Never;
use cv_paint::PaintError;
use cv_store::Store;
use std::alloc::{AllocError, Global};

/// Whether bounds hold so many millionths of a map unit to a pixel.
fn holds(scales: Scales, u: i64) -> bool
    ensures { result ≡ holds_scale scales u }
{
    let above = match scales.least {
        Some(least) => least <= u,
        None => true,
    };
    let below = match scales.greatest {
        Some(greatest) => u <= greatest,
        None => true,
    };
    above && below
}

/// How the layer at a place is merged, 0 being the top, where it is a slot: visible, and painted at the scale
/// of the view.
fn slot_at(store: &Store, at: u32, view: &View) -> Option<LayerFrame>
    ensures { result ≡ option_and_then
        (λ layer. if is_slot view.now layer then Some (frame_of layer) else None)
        (slice_get (map layer_of store.now.layers) at) }
{
    match store.place(at) {
        Some(frame) if frame.visible && holds(frame.scales, view.u) => Some(frame),
        _ => None,
    }
}

/// How a slot is merged.
fn slot_of(frame: LayerFrame) -> Slot
    ensures { result ≡ record { id = frame.id; opacity = frame.opacity; blend = frame.blend } }
{
    Slot {
        id: frame.id,
        opacity: frame.opacity,
        blend: frame.blend,
    }
}

/// The layer with an id painted at a view, or none where the project hasn't the layer.
fn paint_layer(
    alloc: Global,
    store: &Store,
    id: u32,
    slot: u32,
    view: &View,
) -> Result<Option<Shared<PaintedLayer>>, NoMemory>
    ensures { IfOk result (λ made. made
        ≡ option_map (λ input. record { input = input; view = view.now }) (input_in store.now id)) }
{
    let Some(input) = store.input(id)? else {
        return Ok(None);
    };
    let piece = Piece {
        job: 0,
        slot,
        input,
        view: *view,
    };
    let painted = match cv_paint::paint(alloc, &piece, &mut Never) {
        Ok(painted) => painted,
        Err(PaintError::NoMemory) => return Err(AllocError),
        Err(PaintError::Stopped) => unreachable!(),
    };
    match Shared::of(alloc, painted) {
        Ok(shared) => Ok(Some(shared)),
        Err(refused) => Err(refused.1),
    }
}

/// The slots of a store's project at a view, bottom first, and their images.
pub fn paint_slots(
    alloc: Global,
    store: &Store,
    view: &View,
) -> Result<(SlotList, SlotImages), NoMemory>
    ensures slots { IfOk result
        (λ made. made.0 ≡ map slot_frame (slots (project_of store.now) view.now)) }
    ensures layers { IfOk result (λ made. ArePlacesOf (project_of store.now) view.now (λ k. true) 0
        (slots (project_of store.now) view.now) made.1) }
{
    let (mut slots, mut layers) = (SlotList::new(alloc), SlotImages::new(alloc));
    let mut at = store.len();
    while at > 0 {
        at -= 1;
        let Some(frame) = slot_at(store, at, view) else {
            continue;
        };
        let image = paint_layer(alloc, store, frame.id, layers.len() as u32, view)?;
        slots.put(slot_of(frame))?;
        layers.put(image)?;
    }
    Ok((slots, layers))
}
