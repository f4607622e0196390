//! Rectangles of an image that are painted anew.

ghost use Rattle.std.specs.Prelude.{◌≡◌};
ghost use Rattle.cv_layer.specs.Strips.{strip_image_of};

use crate::input::LayerInput;
use cv_chunks::Shared;
use cv_model::{RgbaList, View};
use std::marker::Model;

/// A rectangle of pixels.
#[derive(Clone, Copy, Debug, PartialEq, Eq)]
pub struct Rect {
    /// Its leftmost column.
    pub i: u32,
    /// Its topmost row.
    pub j: u32,
    /// Its columns.
    pub w: u32,
    /// Its rows.
    pub h: u32,
}

/// Up to two rectangles, which share no pixel: each lies wholly to one side of the other.
#[derive(Clone, Copy, Debug)]
pub struct Strips {
    /// The first, if there is one.
    pub first: Option<Rect>,
    /// The second, if there is one.
    pub second: Option<Rect>,
}

impl Model for Strips {
    ghost use Rattle.cv_layer.specs.Strips.{StripPair, AreStrips};

    ghost Value = { StripPair };

    ghost view = { λ s. record { first = s.first; second = s.second } };

    ghost invariant = { λ s. AreStrips (record { first = s.first; second = s.second }) };

    ghost inverse = { λ s. record { first = s.first; second = s.second } };
}

/// Strips of a layer painted at a view, seen as the input, the view and the strips. Their pixels are those
/// that the definitions give these.
#[derive(Drop)]
pub struct StripImages {
    input: Shared<LayerInput>,
    view: View,
    strips: Strips,
    pixels: RgbaList,
}

impl Model for StripImages {
    ghost use Rattle.std.specs.Prelude.{◌≡◌};
    ghost use Rattle.cv_layer.specs.Strips.{StripPainting, strip_image_of};

    ghost Value = { StripPainting };

    ghost view = { λ s. record { painting = record { input = s.input; view = s.view }; strips = s.strips } };

    ghost invariant = { λ s. s.pixels ≡ strip_image_of
        (record { painting = record { input = s.input; view = s.view }; strips = s.strips }) };
}

impl StripImages {
    /// Strips with their pixels, which are those of the input at the view: the first strip's, row by row
    /// from its top, and then the second's. Takes no memory.
    pub fn of(
        input: Shared<LayerInput>,
        view: View,
        strips: Strips,
        pixels: RgbaList,
    ) -> StripImages
        requires { pixels ≡ strip_image_of
            (record { painting = record { input = input; view = view }; strips = strips }) }
        ensures { result ≡
            record { painting = record { input = input; view = view }; strips = strips } }
    {
        StripImages {
            input,
            view,
            strips,
            pixels,
        }
    }

    /// What they were painted from.
    pub fn input(&self) -> &Shared<LayerInput>
        ensures { result.now ≡ self.now.painting.input }
    {
        &self.input
    }

    /// The view whose strips they are.
    pub fn view(&self) -> View
        ensures { result ≡ self.now.painting.view }
    {
        self.view
    }

    /// Where they lie in the view.
    pub fn strips(&self) -> Strips
        ensures { result ≡ self.now.strips }
    {
        self.strips
    }

    /// The first strip's pixels, row by row from its top, and then the second's.
    pub fn pixels(&self) -> &RgbaList
        ensures { result.now ≡ strip_image_of self.now }
    {
        &self.pixels
    }
}
