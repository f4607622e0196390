//! What a picture is composed of.

ghost use Rattle.std.specs.Prelude.{◌≡◌};
ghost use Rattle.cv_compose.specs.Inputs.{IsComposition};

use crate::frame::Frame;
use cv_chunks::Shared;
use cv_layer::PaintedLayer;
use cv_model::Sequence;
use std::marker::Model;

/// The painted layers of a picture's slots, bottom first: none where a slot isn't there.
pub type SlotImages = Sequence<Option<Shared<PaintedLayer>>>;

/// A frame with a place for each of its slots: the painted layer, or none.
///
/// Each painted layer that is there is of its slot's layer, and all are at one view, whose size is the
/// frame's.
#[derive(Drop)]
pub struct ComposeInput {
    frame: Frame,
    layers: SlotImages,
}

impl Model for ComposeInput {
    ghost use Rattle.cv_model.specs.Paintings.{Composition};
    ghost use Rattle.cv_compose.specs.Inputs.{IsComposition};

    ghost Value = { Composition };

    ghost view = { λ c. record { frame = c.frame; paintings = c.layers } };

    ghost invariant = { λ c. IsComposition (record { frame = c.frame; paintings = c.layers }) };
}

impl ComposeInput {
    /// The input of these parts. Takes no memory.
    pub fn of(frame: Frame, layers: SlotImages) -> ComposeInput
        requires { IsComposition (record { frame = frame; paintings = layers }) }
        ensures { result ≡ record { frame = frame; paintings = layers } }
    {
        ComposeInput { frame, layers }
    }

    /// What it is composed on.
    pub fn frame(&self) -> &Frame
        ensures frame { result.now ≡ self.now.frame }
        ensures kept { IsComposition self.now }
    {
        &self.frame
    }

    /// The painted layers of the slots, bottom first.
    pub fn layers(&self) -> &SlotImages
        ensures { result.now ≡ self.now.paintings }
    {
        &self.layers
    }
}
