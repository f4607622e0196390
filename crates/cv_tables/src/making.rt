//! How a job is made.

ghost use Rattle.std.specs.Prelude.{◌≡◌, ◌&&◌, IfOk, OnOk, map, Some, true};
ghost use Rattle.cv_model.specs.Layers.{slots, has_layer};
ghost use Rattle.cv_model.specs.Scales.{holds_scale};
ghost use Rattle.cv_store.specs.Stores.{project_of, layer_of, input_in};
ghost use Rattle.cv_tables.specs.Rows.{new_row, gathered_none, gathered_more, IsGathered};

use crate::holdings::Holdings;
use crate::row::JobRow;
use cv_chunks::Shared;
use cv_compose::{Frame, SlotList};
use cv_event::{Slot, Standing};
use cv_layer::{LayerInput, NoMemory, PaintedLayer};
use cv_model::{LayerFrame, Scales, View};
use cv_store::Store;
use std::alloc::Global;
use std::marker::Model;

/// Whether scales hold so many millionths of a map unit to a pixel.
fn holds_scale(scales: Scales, u: i64) -> bool
    ensures { result ≡ holds_scale scales u }
{
    let above = match scales.least {
        Some(least) => least <= u,
        None => true,
    };
    let below = match scales.greatest {
        Some(greatest) => u <= greatest,
        None => true,
    };
    above && below
}

/// The units per pixel of a view.
fn unit(view: View) -> i64
    ensures { result ≡ view.u }
{
    view.u
}

/// Whether a layer is a slot at a view.
fn is_slot(frame: LayerFrame, view: View) -> bool
    ensures { result ≡ (frame.visible && holds_scale frame.scales view.u) }
{
    frame.visible && holds_scale(frame.scales, unit(view))
}

/// What is gathered for the slots of a job, bottom first: each slot with its frame, its input and, where one
/// was kept, its image.
#[derive(Drop)]
struct Gathered {
    slots: Vec<Slot>,
    frames: SlotList,
    inputs: Vec<Shared<LayerInput>>,
    images: Vec<Option<Shared<PaintedLayer>>>,
}

impl Model for Gathered {
    ghost use Rattle.cv_tables.specs.Rows.{GatheredParts};

    ghost Value = { GatheredParts };

    ghost view = { λ g. record {
      slots = g.slots.items;
      frames = g.frames;
      inputs = g.inputs.items;
      images = g.images.items;
    } };
}

/// The input of a layer of a store.
fn input_of(store: &Store, layer: u32) -> Result<Shared<LayerInput>, NoMemory>
    requires { has_layer layer (map layer_of store.now.layers) ≡ true }
    ensures { IfOk result (λ input. input_in store.now layer ≡ Some input) }
{
    match store.input(layer)? {
        Some(input) => Ok(input),
        None => unreachable!(),
    }
}

impl Gathered {
    /// Nothing.
    fn new(alloc: Global) -> Gathered
        ensures { result ≡ gathered_none }
    {
        Gathered {
            slots: Vec::new(alloc),
            frames: SlotList::new(alloc),
            inputs: Vec::new(alloc),
            images: Vec::new(alloc),
        }
    }

    /// Puts a slot behind the others.
    fn put(&mut self, frame: LayerFrame, input: Shared<LayerInput>) -> Result<(), NoMemory>
        ensures { OnOk result (self.new ≡ gathered_more self.old frame input) }
    {
        self.slots.push(Slot {
            layer: frame.id,
            standing: Standing::Open,
            touched: false,
        })?;
        self.frames.put(cv_compose::Slot {
            id: frame.id,
            opacity: frame.opacity,
            blend: frame.blend,
        })?;
        self.inputs.push(input)?;
        self.images.push(None)?;
        Ok(())
    }
}

/// What is gathered of a store for the slots of a job at a view.
fn gather(alloc: Global, store: &Store, view: View) -> Result<Gathered, NoMemory>
    ensures { IfOk result (λ made. IsGathered store.now (slots (project_of store.now) view) made) }
{
    let mut made = Gathered::new(alloc);
    let mut at = store.len();
    while at > 0 {
        at -= 1;
        let Some(frame) = store.place(at) else {
            unreachable!()
        };
        if is_slot(frame, view) {
            made.put(frame, input_of(store, frame.id)?)?;
        }
    }
    Ok(made)
}

/// A job on a canvas, of a store at a view.
pub(crate) fn started(
    alloc: Global,
    canvas: u32,
    store: &Store,
    view: View,
) -> Result<JobRow, NoMemory>
    ensures { IfOk result (λ row. row ≡ new_row canvas store.now view) }
{
    let Gathered {
        slots,
        frames,
        inputs,
        images,
    } = gather(alloc, store, view)?;
    let _ = store.len();
    let frame = Frame::of(width(view), height(view), store.background(), frames);
    Ok(JobRow::of(
        canvas,
        store,
        view,
        slots,
        Holdings::of(frame, inputs, images),
    ))
}

/// The pixels of a view from left to right.
fn width(view: View) -> u32
    ensures { result ≡ view.w }
{
    view.w
}

/// The pixels of a view from top to bottom.
fn height(view: View) -> u32
    ensures { result ≡ view.h }
{
    view.h
}
