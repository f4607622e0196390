//! A layer painted at a view.

ghost use Rattle.std.specs.Prelude.{◌≡◌};
ghost use Rattle.cv_model.specs.Paintings.{image_of};

use crate::input::LayerInput;
use cv_chunks::Shared;
use cv_model::{Image, View};
use std::marker::Model;

/// A layer painted at a view, seen as its input and that view. Its image is the one that the definitions
/// give these two.
#[derive(Drop)]
pub struct PaintedLayer {
    input: Shared<LayerInput>,
    view: View,
    image: Image,
}

impl Model for PaintedLayer {
    ghost use Rattle.std.specs.Prelude.{◌≡◌};
    ghost use Rattle.cv_model.specs.Paintings.{Painting, image_of};

    ghost Value = { Painting };

    ghost view = { λ p. record { input = p.input; view = p.view } };

    ghost invariant = { λ p. p.image ≡ image_of (record { input = p.input; view = p.view }) };
}

impl PaintedLayer {
    /// A layer with its image, which is that of the input at the view. Takes no memory.
    pub fn of(input: Shared<LayerInput>, view: View, image: Image) -> PaintedLayer
        requires { image ≡ image_of (record { input = input; view = view }) }
        ensures { result ≡ record { input = input; view = view } }
    {
        PaintedLayer { input, view, image }
    }

    /// What it was painted from.
    pub fn input(&self) -> &Shared<LayerInput>
        ensures { result.now ≡ self.now.input }
    {
        &self.input
    }

    /// Where it is seen.
    pub fn view(&self) -> View
        ensures { result ≡ self.now.view }
    {
        self.view
    }

    /// Its image.
    pub fn image(&self) -> &Image
        ensures { result.now ≡ image_of self.now }
    {
        &self.image
    }
}
