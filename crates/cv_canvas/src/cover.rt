//! A raster that tells of each pixel whether it is covered.

ghost use Rattle.std.specs.Prelude.{◌≡◌, ◌<◌, true, false, IfOk};
ghost use Rattle.cv_canvas.specs.Canvas.{changed};

use crate::bits::Bits;
use cv_geom::Run;
use cv_model::NoMemory;
use std::alloc::Global;
use std::marker::Model;

/// Which pixels of a raster are covered: a bit for each, row by row from the top. Columns count from the
/// left, rows from the top, both from 0.
#[derive(Drop)]
pub struct Cover {
    width: u32,
    height: u32,
    covered: Bits,
}

impl Model for Cover {
    ghost use Rattle.std.specs.Prelude.{Bool};
    ghost use Rattle.cv_model.specs.Rasters.{Raster, IsRaster};

    ghost Value = { Raster Bool };

    ghost view = { λ c. record { width = c.width; height = c.height; pixels = c.covered } };

    ghost invariant = { λ c. IsRaster {A = Bool}
        (record { width = c.width; height = c.height; pixels = c.covered }) };
}

impl Cover {
    ghost use Rattle.cv_geom.specs.Runs.{IsWithin};
    ghost use Rattle.cv_canvas.specs.Cover.{is_covered_in};

    /// A raster of so many pixels across and down of which nothing is covered. It takes a bit for each pixel.
    /// The one error is want of memory.
    pub fn new(alloc: Global, width: u32, height: u32) -> Result<Cover, NoMemory>
        ensures width { IfOk result (λ made. made.width ≡ width) }
        ensures height { IfOk result (λ made. made.height ≡ height) }
        ensures clear { IfOk result (λ made. is_covered_in made ≡ (λ i j. false)) }
    {
        let covered = Bits::new(alloc, width as usize * height as usize)?;
        Ok(Cover {
            width,
            height,
            covered,
        })
    }

    /// How many pixels a row has, as it was made.
    pub fn width(&self) -> u32
        ensures { result ≡ self.now.width }
    {
        self.width
    }

    /// Covers the pixels of a run, also those that are covered already; the others stay. A run may be empty.
    pub fn cover(&mut self, run: Run)
        requires { IsWithin self.old.width self.old.height run }
        ensures width { self.new.width ≡ self.old.width }
        ensures height { self.new.height ≡ self.old.height }
        ensures covered { is_covered_in self.new ≡ changed (λ _. true) (is_covered_in self.old) run }
    {
        let start = run.row as usize * self.width as usize;
        self.covered
            .set(start + run.from as usize, start + run.end as usize);
    }

    /// Whether the pixel in a column and a row is covered.
    pub fn is_covered(&self, column: u32, row: u32) -> bool
        requires column { column < self.now.width }
        requires row { row < self.now.height }
        ensures { result ≡ is_covered_in self.now column row }
    {
        self.covered
            .is_set(row as usize * self.width as usize + column as usize)
    }
}
