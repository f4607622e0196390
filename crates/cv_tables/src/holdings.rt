//! What is held of a job without end.

ghost use Rattle.std.specs.Prelude.{◌≡◌, ◌<◌, length, map, slice_get, Some, IfOk, set};
ghost use Rattle.std.specs.Option.{option_copied, option_map_or};
ghost use Rattle.cv_model.specs.Edits.{touched};
ghost use Rattle.cv_tables.specs.Rows.{HoldingParts};

use cv_chunks::Shared;
use cv_compose::{Frame, Slot, SlotImages, SlotList};
use cv_layer::{LayerInput, NoMemory, PaintedLayer};
use std::alloc::Global;
use std::marker::Model;

/// The frame of a job's picture, the inputs of its slots, and the images of those that are ready, seen as
/// these.
#[derive(Drop)]
pub(crate) struct Holdings {
    frame: Frame,
    inputs: Vec<Shared<LayerInput>>,
    images: Vec<Option<Shared<PaintedLayer>>>,
}

impl Model for Holdings {
    ghost use Rattle.cv_tables.specs.Rows.{HoldingParts};

    ghost Value = { HoldingParts };

    ghost view = { λ h. record { frame = h.frame; inputs = h.inputs.items; images = h.images.items } };
}

/// Slots, once more.
fn copied_slots(alloc: Global, slots: &[Slot]) -> Result<SlotList, NoMemory>
    ensures { IfOk result (λ made. made ≡ slots.now) }
{
    let mut made = SlotList::with_room(alloc, slots.len() as u64)?;
    for slot in slots {
        made.put(*slot)?;
    }
    Ok(made)
}

/// A frame, once more.
fn copied_frame(alloc: Global, frame: &Frame) -> Result<Frame, NoMemory>
    ensures { IfOk result (λ made. made ≡ frame.now) }
{
    let slots = copied_slots(alloc, frame.slots().as_slice())?;
    Ok(Frame::of(frame.width(), frame.height(), frame.background(), slots))
}

/// An image, held once more.
fn shared_image(
    image: &Option<Shared<PaintedLayer>>,
) -> Result<Option<Shared<PaintedLayer>>, NoMemory>
    ensures { IfOk result (λ made. made ≡ image.now) }
{
    match image {
        Some(image) => Ok(Some(image.clone()?)),
        None => Ok(None),
    }
}

/// Images, held once more.
fn shared_images(
    alloc: Global,
    images: &[Option<Shared<PaintedLayer>>],
) -> Result<SlotImages, NoMemory>
    ensures { IfOk result (λ made. made ≡ images.now) }
{
    let mut made = SlotImages::with_room(alloc, images.len() as u64)?;
    for image in images {
        made.put(shared_image(image)?)?;
    }
    Ok(made)
}

impl Holdings {
    /// The holdings of these parts.
    pub(crate) fn of(
        frame: Frame,
        inputs: Vec<Shared<LayerInput>>,
        images: Vec<Option<Shared<PaintedLayer>>>,
    ) -> Holdings
        ensures { result ≡ record { frame = frame; inputs = inputs.items; images = images.items } }
    {
        Holdings {
            frame,
            inputs,
            images,
        }
    }

    /// What a slot is painted from.
    pub(crate) fn input(&self, at: usize) -> Option<&Shared<LayerInput>>
        ensures { option_copied result ≡ slice_get self.now.inputs at }
    {
        self.inputs.get(at)
    }

    /// What the slots are painted from.
    pub(crate) fn inputs(&self) -> &[Shared<LayerInput>]
        ensures { result.now ≡ self.now.inputs }
    {
        self.inputs.as_slice()
    }

    /// Holds the image of a slot.
    pub(crate) fn set_image(&mut self, at: usize, image: Shared<PaintedLayer>)
        requires { at < length self.old.images }
        ensures { self.new ≡ record self.old { images = (set self.old.images at (Some image)) } }
    {
        let place = &mut self.images[at];
        *place = Some(image);
    }

    /// The frame, once more.
    pub(crate) fn frame(&self, alloc: Global) -> Result<Frame, NoMemory>
        ensures { IfOk result (λ made. made ≡ self.now.frame) }
    {
        copied_frame(alloc, &self.frame)
    }

    /// The images, held once more.
    pub(crate) fn images(&self, alloc: Global) -> Result<SlotImages, NoMemory>
        ensures { IfOk result (λ made. made ≡ self.now.images) }
    {
        shared_images(alloc, self.images.as_slice())
    }
}
