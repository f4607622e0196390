//! A canvas that takes one opaque colour.

ghost use Rattle.std.specs.Prelude.{◌≡◌, ◌<◌, IfOk, map, length};
ghost use Rattle.cv_model.specs.Colours.{transparent};
ghost use Rattle.cv_model.specs.Rasters.{row_of};
ghost use Rattle.cv_canvas.specs.Cover.{is_covered_in};
ghost use Rattle.cv_canvas.specs.Opaque.{inked};

use crate::canvas::{CLEAR, Canvas};
use crate::cover::Cover;
use cv_geom::Run;
use cv_model::{NoMemory, Rgba};
use std::alloc::Global;
use std::marker::Model;

/// A canvas that takes one opaque colour, and keeps of each pixel whether the colour lies there: a bit for
/// each, row by row from the top. How often it lies there changes nothing.
#[derive(Drop)]
pub struct OpaqueCanvas {
    colour: Rgba,
    cover: Cover,
}

impl Model for OpaqueCanvas {
    ghost use Rattle.std.specs.Prelude.{◌≡◌};
    ghost use Rattle.cv_canvas.specs.Opaque.{Inked};

    ghost Value = { Inked };

    ghost view = { λ c. record { colour = c.colour; cover = c.cover } };

    ghost invariant = { λ c. c.colour.a ≡ 255 };
}

impl OpaqueCanvas {
    ghost use Rattle.cv_canvas.specs.Opaque.{inked_in};

    /// A canvas of so many pixels across and down on which nothing lies. It takes a bit for each pixel. The
    /// one error is want of memory.
    pub fn new(
        alloc: Global,
        width: u32,
        height: u32,
        colour: Rgba,
    ) -> Result<OpaqueCanvas, NoMemory>
        requires { colour.a ≡ 255 }
        ensures width { IfOk result (λ made. made.cover.width ≡ width) }
        ensures height { IfOk result (λ made. made.cover.height ≡ height) }
        ensures colour { IfOk result (λ made. made.colour ≡ colour) }
        ensures clear { IfOk result (λ made. inked_in made ≡ (λ i j. transparent)) }
    {
        let cover = Cover::new(alloc, width, height)?;
        Ok(OpaqueCanvas { colour, cover })
    }
}

impl Canvas for OpaqueCanvas {
    ghost use Rattle.std.specs.Prelude.{Some};
    ghost use Rattle.cv_canvas.specs.Opaque.{inked_in};

    ghost frame = { λ canvas. record {
      width = canvas.cover.width;
      height = canvas.cover.height;
      ink = Some canvas.colour;
    } };

    ghost at = { inked_in };

    fn lay(&mut self, run: Run, _colour: Rgba) {
        self.cover.cover(run);
    }

    fn row(&self, row: u32, into: &mut [Rgba]) {
        ink(self.colour, &self.cover, row, into);
    }
}

/// Puts a colour where it lies in a row, and a clear one elsewhere, into a list in place of what it held.
fn ink(colour: Rgba, cover: &Cover, row: u32, into: &mut [Rgba])
    requires row { row < cover.now.height }
    requires length { length into.old ≡ cover.now.width }
    ensures { into.new ≡ map (inked colour) (row_of cover.now.width (is_covered_in cover.now) row) }
{
    for i in 0..cover.width() {
        into[i as usize] = inked(colour, cover.is_covered(i, row));
    }
}

/// A colour where it lies, else a clear one.
fn inked(colour: Rgba, is_covered: bool) -> Rgba
    ensures { result ≡ inked colour is_covered }
{
    if is_covered { colour } else { CLEAR }
}
