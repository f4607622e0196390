//! A canvas of pixels, which takes any colours.

ghost use Rattle.std.specs.Prelude.{◌≡◌, IfOk};
ghost use Rattle.cv_model.specs.Colours.{transparent};

use crate::canvas::{CLEAR, Canvas};
use crate::mixing::lay_with;
use crate::reciprocals::Reciprocals;
use cv_geom::Run;
use cv_model::{NoMemory, Rgba};
use std::alloc::Global;
use std::marker::Model;

/// A canvas that keeps each pixel, row by row from the top, and takes any colours.
#[derive(Drop)]
pub struct PixelCanvas {
    width: u32,
    height: u32,
    pixels: Vec<Rgba>,
    /// For the alpha that was mixed last.
    reciprocals: Reciprocals,
}

impl Model for PixelCanvas {
    ghost use Rattle.cv_model.specs.declared.colour.Rgba.{Rgba};
    ghost use Rattle.cv_model.specs.Rasters.{Raster, IsRaster};

    ghost Value = { Raster Rgba };

    ghost view = { λ c. record { width = c.width; height = c.height; pixels = c.pixels.items } };

    ghost invariant = { λ c. IsRaster {A = Rgba}
        (record { width = c.width; height = c.height; pixels = c.pixels.items }) };
}

impl PixelCanvas {
    ghost use Rattle.cv_canvas.specs.Pixels.{pixel_in};

    /// A canvas of so many pixels across and down on which nothing lies. It takes four bytes for each pixel.
    /// The one error is want of memory.
    pub fn new(alloc: Global, width: u32, height: u32) -> Result<PixelCanvas, NoMemory>
        ensures width { IfOk result (λ made. made.width ≡ width) }
        ensures height { IfOk result (λ made. made.height ≡ height) }
        ensures clear { IfOk result (λ made. pixel_in made ≡ (λ i j. transparent)) }
    {
        let pixels = vec![in alloc; CLEAR; width as usize * height as usize]?;
        Ok(PixelCanvas {
            width,
            height,
            pixels,
            reciprocals: Reciprocals::new(0),
        })
    }
}

impl Canvas for PixelCanvas {
    ghost use Rattle.std.specs.Prelude.{None};
    ghost use Rattle.cv_canvas.specs.Pixels.{pixel_in};

    ghost frame = { λ canvas. record { width = canvas.width; height = canvas.height; ink = None } };

    ghost at = { pixel_in };

    fn lay(&mut self, run: Run, colour: Rgba) {
        let start = run.row as usize * self.width as usize;
        let (from, end) = (start + run.from as usize, start + run.end as usize);
        lay_with(&mut self.pixels[from..end], colour, &mut self.reciprocals);
    }

    fn row(&self, row: u32, into: &mut [Rgba]) {
        let start = row as usize * self.width as usize;
        into.copy_from_slice(&self.pixels[start..start + self.width as usize]);
    }
}
