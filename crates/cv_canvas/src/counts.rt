//! A canvas that takes one colour, and counts.

ghost use Rattle.std.specs.Prelude.{◌≡◌, ◌<◌, IfOk, map, length};
ghost use Rattle.cv_model.specs.Colours.{transparent};
ghost use Rattle.cv_canvas.specs.Counts.{IsTable, laid_times, once_more};

use crate::canvas::{CLEAR, Canvas};
use cv_blend::over;
use cv_geom::Run;
use cv_model::{NoMemory, Rgba};
use std::alloc::Global;
use std::marker::Model;

/// A canvas that takes one colour, of any alpha, and counts how often it lies on each pixel. From the 255th
/// time on a colour over itself changes nothing, so that a count needs no more than a byte.
///
/// The counts are kept row by row from the top. A row is coloured by a table of the colour laid never, once
/// and so on, which is made by source-over when the canvas is.
#[derive(Drop)]
pub struct CountCanvas {
    width: u32,
    height: u32,
    colour: Rgba,
    /// The colour laid never, once, twice and so on.
    colours: Vec<Rgba>,
    counts: Vec<u8>,
}

impl Model for CountCanvas {
    ghost use Rattle.cv_model.specs.Rasters.{IsRaster};
    ghost use Rattle.cv_canvas.specs.Counts.{Counted, IsCounted};

    ghost Value = { Counted };

    ghost view = { λ c. record {
      width = c.width;
      height = c.height;
      colour = c.colour;
      counts = c.counts.items;
    } };

    ghost invariant = { λ c. IsCounted c.width c.height c.colour c.colours.items c.counts.items };
}

impl CountCanvas {
    ghost use Rattle.cv_canvas.specs.Counts.{counted_in};

    /// A canvas of so many pixels across and down on which nothing lies. It takes a byte for each pixel and
    /// 1,024 for the table. The one error is want of memory.
    pub fn new(
        alloc: Global,
        width: u32,
        height: u32,
        colour: Rgba,
    ) -> Result<CountCanvas, NoMemory>
        ensures width { IfOk result (λ made. made.width ≡ width) }
        ensures height { IfOk result (λ made. made.height ≡ height) }
        ensures colour { IfOk result (λ made. made.colour ≡ colour) }
        ensures clear { IfOk result (λ made. counted_in made ≡ (λ i j. transparent)) }
    {
        let colours = table(alloc, colour)?;
        let counts = vec![in alloc; 0; width as usize * height as usize]?;
        Ok(CountCanvas {
            width,
            height,
            colour,
            colours,
            counts,
        })
    }

    /// The colour laid so many times.
    fn times(&self, count: u8) -> Rgba
        ensures { result ≡ laid_times self.now.colour count }
    {
        self.colours[count as usize]
    }

    /// Puts the colour, laid so many times each, into a list in place of what it held.
    fn coloured(&self, counts: &[u8], into: &mut [Rgba])
        requires { length into.old ≡ length counts.now }
        ensures { into.new ≡ map (laid_times self.now.colour) counts.now }
    {
        for i in 0..into.len() {
            into[i] = self.times(counts[i]);
        }
    }
}

impl Canvas for CountCanvas {
    ghost use Rattle.std.specs.Prelude.{Some};
    ghost use Rattle.cv_canvas.specs.Counts.{counted_in};

    ghost frame = { λ canvas. record {
      width = canvas.width;
      height = canvas.height;
      ink = Some canvas.colour;
    } };

    ghost at = { counted_in };

    fn lay(&mut self, run: Run, _colour: Rgba) {
        let start = run.row as usize * self.width as usize;
        let (from, end) = (start + run.from as usize, start + run.end as usize);
        count(&mut self.counts[from..end]);
    }

    fn row(&self, row: u32, into: &mut [Rgba]) {
        let start = row as usize * self.width as usize;
        self.coloured(&self.counts[start..start + self.width as usize], into);
    }
}

/// Counts one time more, up to 255.
fn count(counts: &mut [u8])
    ensures { counts.new ≡ map once_more counts.old }
{
    for count in counts.iter_mut() {
        *count = count.saturating_add(1);
    }
}

/// A colour laid never, once, twice and so on, up to 255 times.
fn table(alloc: Global, colour: Rgba) -> Result<Vec<Rgba>, NoMemory>
    ensures { IfOk result (λ made. IsTable colour made.items) }
{
    let mut colours = Vec::new(alloc);
    let mut last = CLEAR;
    for _count in 0..256u32 {
        colours.push(last)?;
        last = over(colour, last);
    }
    Ok(colours)
}
