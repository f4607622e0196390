//! What every canvas does.

ghost use Rattle.std.specs.Prelude.{◌≡◌, ◌<◌, ℕ, length};
ghost use Rattle.cv_model.specs.declared.colour.Rgba.{Rgba};
ghost use Rattle.cv_model.specs.Rasters.{row_of};
ghost use Rattle.cv_canvas.specs.Canvas.{CanvasFrame, LiesOn, IsInk, with_run};

use cv_geom::Run;
use cv_model::Rgba;

/// A pixel on which nothing lies.
pub const CLEAR: Rgba = Rgba {
    r: 0,
    g: 0,
    b: 0,
    a: 0,
};

/// A raster of pixels on which runs of colours are laid, each over what lies there. Columns count from the
/// left, rows from the top, both from 0.
///
/// A call takes no memory and can't fail. Source: W3C Compositing and Blending Level 1, source-over, in whole
/// numbers; colours aren't premultiplied.
pub trait Canvas {
    /// Its size in pixels, which stays, and the one colour that it takes, if it takes one alone.
    ghost frame: { Self → CanvasFrame };

    /// The pixel in a column and a row, in this order.
    ghost at: { Self → ℕ → ℕ → Rgba };

    /// Lays a colour on the pixels of a run, over what lies there; the others stay. A run may be empty.
    fn lay(&mut self, run: Run, colour: Rgba)
        requires run { LiesOn (frame self.old) run }
        requires ink { IsInk (frame self.old).ink colour }
        ensures frame { frame self.new ≡ frame self.old }
        ensures laid { at self.new ≡ with_run colour (at self.old) run };

    /// Puts the pixels of a row, from left to right, into a list in place of what it held. Rows may be asked
    /// for in any order, and more than once.
    fn row(&self, row: u32, into: &mut [Rgba])
        requires row { row < (frame self.now).height }
        requires length { length into.old ≡ (frame self.now).width }
        ensures { into.new ≡ row_of (frame self.now).width (at self.now) row };
}
