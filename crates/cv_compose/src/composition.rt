//! Composition of a picture, run by run.

ghost use Rattle.std.specs.Prelude.{◌≡◌, ◌≤◌, ◌+◌, ◌-◌, ◌*◌, length, replicate, IfOk};
ghost use Rattle.std.specs.List.{All, between};
ghost use Rattle.cv_model.specs.Paintings.{composed};
ghost use Rattle.cv_compose.specs.Planes.{colours};
ghost use Rattle.cv_compose.specs.Runs.{merged_slots, HasPixels};

use crate::frame::Slot;
use crate::input::ComposeInput;
use crate::runs::{RUN, merge_slot};
use crate::tables::Table;
use cv_chunks::Shared;
use cv_layer::PaintedLayer;
use cv_model::{Blend, NoMemory, Picture, Rgb, RgbList};
use std::alloc::Global;
use std::marker::Model;

const BLACK: Rgb = Rgb { r: 0, g: 0, b: 0 };

/// A picture with what it is composed of, seen as that. The picture is the one that the definitions give it.
#[derive(Drop)]
pub struct Composed {
    input: ComposeInput,
    picture: Picture,
}

impl Model for Composed {
    ghost use Rattle.std.specs.Prelude.{◌≡◌};
    ghost use Rattle.cv_model.specs.Paintings.{Composition, composed};

    ghost Value = { Composition };

    ghost view = { λ c. c.input };

    ghost invariant = { λ c. c.picture ≡ composed c.input };
}

impl Composed {
    /// What the picture is composed of.
    pub fn input(&self) -> &ComposeInput
        ensures { result.now ≡ self.now }
    {
        &self.input
    }

    /// The picture.
    pub fn picture(&self) -> &Picture
        ensures { result.now ≡ composed self.now }
    {
        &self.picture
    }
}

/// Merges the runs of the slots' layers from `start` to `end`, bottom first, onto colours, which are given by
/// their planes.
#[tactic(auto, using(crate::proofs::CompositionLemmas::slots_step))]
fn merge_slots(
    r: &mut [u8],
    g: &mut [u8],
    b: &mut [u8],
    slots: &[Slot],
    layers: &[Option<Shared<PaintedLayer>>],
    start: usize,
    end: usize,
    tables: &[Table],
)
    requires order { start ≤ end }
    requires few { end ≤ start + 1024 }
    requires places { length layers.now ≡ length slots.now }
    requires pixels { All (HasPixels end) layers.now }
    requires red { length r.now ≡ end - start }
    requires green { length g.now ≡ end - start }
    requires blue { length b.now ≡ end - start }
    ensures { colours r.new g.new b.new
        ≡ merged_slots start end (colours r.old g.old b.old) slots.now layers.now }
{
    for (k, layer) in layers.iter().enumerate() {
        merge_slot(r, g, b, slots[k], layer, start, end, tables);
    }
}

/// Gives pixels the colours of three planes.
#[tactic(auto, using(crate::proofs::PlaneLemmas::colours_step))]
fn set_colours(pixels: &mut [Rgb], r: &[u8], g: &[u8], b: &[u8])
    requires red { length r.now ≡ length pixels.now }
    requires green { length g.now ≡ length pixels.now }
    requires blue { length b.now ≡ length pixels.now }
    ensures { pixels.new ≡ colours r.now g.now b.now }
{
    for (k, pixel) in pixels.iter_mut().enumerate() {
        *pixel = Rgb {
            r: r[k],
            g: g[k],
            b: b[k],
        };
    }
}

/// Gives all of a plane one channel.
fn fill(plane: &mut [u8], channel: u8)
    ensures { plane.new ≡ replicate (length plane.new) channel }
{
    plane.fill(channel);
}

/// Gives pixels the colours of the picture's run from `start` to `end`.
fn set_run(pixels: &mut [Rgb], input: &ComposeInput, start: usize, end: usize, tables: &[Table])
    requires order { start ≤ end }
    requires few { end ≤ start + 1024 }
    requires size { length pixels.now ≡ end - start }
    requires within { end ≤ input.now.frame.width * input.now.frame.height }
    ensures { pixels.new ≡ between start end (composed input.now).pixels }
{
    let (frame, layers) = (input.frame(), input.layers().as_slice());
    let background = frame.background();
    let (mut r, mut g, mut b) = ([0; RUN], [0; RUN], [0; RUN]);
    let r = &mut r[..end - start];
    let g = &mut g[..end - start];
    let b = &mut b[..end - start];
    fill(r, background.r);
    fill(g, background.g);
    fill(b, background.b);
    merge_slots(
        r,
        g,
        b,
        frame.slots().as_slice(),
        layers,
        start,
        end,
        tables,
    );
    set_colours(pixels, r, g, b);
}

/// The tables of the modes that divide, where a slot has one.
fn tables_of(alloc: Global, slots: &[Slot]) -> Result<Vec<Table>, NoMemory> {
    let mut tables = Vec::new(alloc);
    for mode in [Blend::ColorDodge, Blend::ColorBurn] {
        if slots.iter().any(|slot| slot.blend == mode) {
            tables.push(Table::of(alloc, mode)?)?;
        }
    }
    Ok(tables)
}

/// Writes the picture of the slots that are there over another of its size.
fn write_picture(picture: &mut Picture, input: &ComposeInput, tables: &[Table])
    requires width { picture.now.width ≡ input.now.frame.width }
    requires height { picture.now.height ≡ input.now.frame.height }
    ensures { picture.new ≡ composed input.now }
{
    let size = picture.pixels().len() as usize;
    let mut start = 0;
    while start < size {
        let end = start.saturating_add(RUN).min(size);
        let mut run = [BLACK; RUN];
        let run = &mut run[..end - start];
        set_run(run, input, start, end, tables);
        picture.copy_in(start as u64, run);
        start = end;
    }
}

/// A black picture of this size.
fn black(alloc: Global, width: u32, height: u32) -> Result<Picture, NoMemory>
    ensures { IfOk result (λ made. (made.width ≡ width) × (made.height ≡ height)) }
{
    let size = u64::from(width) * u64::from(height);
    let mut pixels = RgbList::with_room(alloc, size)?;
    while pixels.len() < size {
        pixels.put(BLACK)?;
    }
    Ok(Picture::of(width, height, pixels))
}

/// The picture of the slots that are there, merged in order, bottom first, onto the background.
///
/// Source: the rules of W3C Compositing and Blending Level 1 over an opaque backdrop, in whole numbers.
pub fn compose(alloc: Global, input: ComposeInput) -> Result<Composed, NoMemory>
    ensures { IfOk result (λ made. made ≡ input) }
{
    let frame = input.frame();
    let tables = tables_of(alloc, frame.slots().as_slice())?;
    let mut picture = black(alloc, frame.width(), frame.height())?;
    write_picture(&mut picture, &input, tables.as_slice());
    Ok(Composed { input, picture })
}

/// Writes the picture that `compose` gives over another of its size. Takes no memory, so that the modes that
/// divide do so at each pixel.
pub fn compose_into(input: &ComposeInput, picture: &mut Picture)
    requires width { picture.now.width ≡ input.now.frame.width }
    requires height { picture.now.height ≡ input.now.frame.height }
    ensures { picture.new ≡ composed input.now }
{
    write_picture(picture, input, &[]);
}
