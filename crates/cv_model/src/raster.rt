//! Finished images.

ghost use Rattle.std.specs.Prelude.{◌≡◌, ◌≤◌, ◌+◌, ◌*◌, ◌++◌, length, take, drop};

use crate::colour::{Rgb, Rgba};
use crate::sequence::Sequence;
use std::marker::Model;

/// Pixels of a picture, row by row from the top.
pub type RgbList = Sequence<Rgb>;

/// Pixels of a layer image, row by row from the top.
pub type RgbaList = Sequence<Rgba>;

/// An image without transparency.
pub type Picture = Pixels<Rgb>;

/// A layer's image. Its colours are not premultiplied.
pub type Image = Pixels<Rgba>;

/// An image, seen as its width, its height and its pixels row by row from the top.
/// There are as many pixels as width times height.
#[derive(Drop)]
pub struct Pixels<T> {
    width: u32,
    height: u32,
    pixels: Sequence<T>,
}

impl<T> Model for Pixels<T> {
    ghost use Rattle.cv_model.specs.Rasters.{Raster, IsRaster};

    ghost Value = { Raster T };

    ghost view = { λ p. record { width = p.width; height = p.height; pixels = p.pixels } };

    ghost invariant = { λ p. IsRaster {A = T}
        (record { width = p.width; height = p.height; pixels = p.pixels }) };
}

impl<T> Pixels<T> {
    ghost use Rattle.cv_model.specs.Rasters.{IsRaster};

    /// The image of these parts.
    pub fn of(width: u32, height: u32, pixels: Sequence<T>) -> Self
        requires { length pixels ≡ width * height }
        ensures { result ≡ record { width = width; height = height; pixels = pixels } }
    {
        Pixels {
            width,
            height,
            pixels,
        }
    }

    /// Pixels from left to right.
    pub fn width(&self) -> u32
        ensures { result ≡ self.now.width }
    {
        self.width
    }

    /// Pixels from top to bottom.
    pub fn height(&self) -> u32
        ensures { result ≡ self.now.height }
    {
        self.height
    }

    /// Writes these pixels in the places from `at` on, counted row by row from the top.
    pub fn copy_in(&mut self, at: u64, pixels: &[T])
    where
        T: Copy,
        requires within { at + length pixels.now ≤ length self.old.pixels }
        ensures size { (self.new.width ≡ self.old.width) × (self.new.height ≡ self.old.height) }
        ensures pixels { self.new.pixels ≡ take at self.old.pixels ++ pixels.now
            ++ drop (at + length pixels.now) self.old.pixels }
    {
        self.pixels.copy_in(at, pixels);
    }

    /// The pixels, row by row from the top.
    pub fn pixels(&self) -> &Sequence<T>
        ensures pixels { result.now ≡ self.now.pixels }
        ensures whole { IsRaster self.now }
    {
        &self.pixels
    }
}
