//! What a composition is made on.

ghost use Rattle.std.specs.Prelude.{◌≡◌};

use cv_model::{Blend, Rgb, Sequence};
use std::marker::Model;

/// How a slot is merged.
#[derive(Clone, Copy, Debug)]
pub struct Slot {
    /// Its layer's id.
    pub id: u32,
    /// From 0 (nothing of the layer is seen) to 255 (as painted).
    pub opacity: u8,
    /// How the layer's colours are blended onto what lies below.
    pub blend: Blend,
}

impl Model for Slot {
    ghost use Rattle.cv_model.specs.Paintings.{SlotFrame};

    ghost Value = { SlotFrame };

    ghost view = { λ s. record { id = s.id; opacity = s.opacity; blend = s.blend } };

    ghost inverse = { λ s. record { id = s.id; opacity = s.opacity; blend = s.blend } };
}

/// The slots of a picture, bottom first.
pub type SlotList = Sequence<Slot>;

/// What a composition is made on: its width and height in pixels, the colour below all slots, and the slots,
/// bottom first.
#[derive(Drop)]
pub struct Frame {
    width: u32,
    height: u32,
    background: Rgb,
    slots: SlotList,
}

impl Model for Frame {
    ghost use Rattle.cv_model.specs.Paintings.{FrameParts};

    ghost Value = { FrameParts };

    ghost view = { λ f. record {
      width = f.width;
      height = f.height;
      background = f.background;
      slots = f.slots;
    } };
}

impl Frame {
    /// The frame of these parts. Takes no memory.
    pub fn of(width: u32, height: u32, background: Rgb, slots: SlotList) -> Frame
        ensures { result ≡ record {
          width = width;
          height = height;
          background = background;
          slots = slots;
        } }
    {
        Frame {
            width,
            height,
            background,
            slots,
        }
    }

    /// Pixels from left to right.
    pub fn width(&self) -> u32
        ensures { result ≡ self.now.width }
    {
        self.width
    }

    /// Pixels from top to bottom.
    pub fn height(&self) -> u32
        ensures { result ≡ self.now.height }
    {
        self.height
    }

    /// The colour below all slots.
    pub fn background(&self) -> Rgb
        ensures { result ≡ self.now.background }
    {
        self.background
    }

    /// The slots, bottom first.
    pub fn slots(&self) -> &SlotList
        ensures { result.now ≡ self.now.slots }
    {
        &self.slots
    }
}
