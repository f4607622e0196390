//! A job.

ghost use Rattle.std.specs.Prelude.{◌≡◌, ◌≤◌, length, slice_get, map, IfOk, Some, None, IsSomeAnd, false};
ghost use Rattle.std.specs.Option.{option_copied};
ghost use Rattle.cv_event.specs.declared.entry.How.{How};
ghost use Rattle.cv_event.specs.declared.slot.Standing.TheVariants.{Ready};
ghost use Rattle.cv_event.specs.Legality.{is_ready, open_task, ready_bits};
ghost use Rattle.cv_model.specs.Paintings.{frame_of};
ghost use Rattle.cv_store.specs.Stores.{project_of};
ghost use Rattle.cv_tables.specs.Rows.{Row, job_of, row_stands, row_composed, row_ended, row_edited};
ghost use Rattle.cv_tables.specs.Rows.{painting_of, input_at, input_of, compose_of, weight, WhileLive};
ghost use Rattle.cv_tables.specs.Rows.{HoldsAll};
ghost use Rattle.cv_tables.specs.Rows.{slots_named, slot_named, slots_edited, end_weight, IsRow};

use crate::holdings::Holdings;
use crate::named::{depends_on, touched};
use crate::slots::{all_ready, missed, open_slot, ready_bits, stand};
use cv_chunks::Shared;
use cv_compose::ComposeInput;
use cv_event::{How, Slot, Standing, Task};
use cv_layer::{LayerInput, NoMemory, PaintedLayer};
use cv_model::{Edit, View};
use cv_store::Store;
use std::alloc::Global;
use std::marker::Model;
use std::snapshot::Snapshot;

/// A job, seen as its canvas, the store as it was at its start, its view, its slots from the bottom, the
/// caller that composes its picture, and how it ended.
///
/// While it has no end it holds the inputs of its slots and the images of those that are ready.
#[derive(Drop)]
pub struct JobRow {
    canvas: u32,
    store: Snapshot<Store>,
    view: View,
    slots: Vec<Slot>,
    composer: Option<u32>,
    ended: Option<How>,
    held: Option<Holdings>,
}

impl Model for JobRow {
    ghost use Rattle.cv_tables.specs.Rows.{Row, IsRow};

    ghost Value = { Row };

    ghost view = { λ r. record {
      canvas = r.canvas;
      store = r.store.value;
      view = r.view;
      slots = r.slots.items;
      composer = r.composer;
      ended = r.ended;
    } };

    ghost invariant = { λ r. IsRow
        (record {
          canvas = r.canvas;
          store = r.store.value;
          view = r.view;
          slots = r.slots.items;
          composer = r.composer;
          ended = r.ended;
        })
        r.held };
}

/// A slot, touched where an edit touches a layer on which its input depends.
fn touched_slot(slot: Slot, input: &LayerInput, edit: &Edit) -> Slot
    ensures { result ≡ slot_named edit.now slot input.now }
{
    Slot {
        layer: slot.layer,
        standing: slot.standing,
        touched: slot.touched || depends_on(input.layer(), touched(edit)),
    }
}

/// Touches the slots whose inputs depend on the layer that an edit touches.
fn touch_slots(slots: &mut Vec<Slot>, inputs: &[Shared<LayerInput>], edit: &Edit)
    requires { length inputs.now ≡ length slots.old.items }
    ensures { slots.new.items ≡ slots_named edit.now slots.old.items inputs.now }
{
    let mut at = 0;
    while at < slots.len() {
        slots[at] = touched_slot(slots[at], inputs[at].value(), edit);
        at += 1;
    }
}

/// One where there is no end, and nothing where there is one.
fn end_weight(ended: Option<How>) -> u64
    ensures value { result ≡ end_weight ended }
    ensures small { result ≤ 1 }
{
    match ended {
        None => 1,
        Some(_) => 0,
    }
}

impl JobRow {
    /// A job that is started: of a store at a view, with its slots from the bottom, none of which was looked
    /// at, and all that it holds.
    pub(crate) fn of(
        canvas: u32,
        store: &Store,
        view: View,
        slots: Vec<Slot>,
        held: Holdings,
    ) -> JobRow
        requires { IsRow
            (record {
              canvas = canvas;
              store = store.now;
              view = view;
              slots = slots.items;
              composer = None;
              ended = None;
            })
            (Some held) }
        ensures { result ≡ record {
          canvas = canvas;
          store = store.now;
          view = view;
          slots = slots.items;
          composer = None;
          ended = None;
        } }
    {
        JobRow {
            canvas,
            store: Snapshot::of(store),
            view,
            slots,
            composer: None,
            ended: None,
            held: Some(held),
        }
    }

    /// Its canvas.
    pub fn canvas(&self) -> u32
        ensures { result ≡ self.now.canvas }
    {
        self.canvas
    }

    /// Its view.
    pub fn view(&self) -> View
        ensures { result ≡ self.now.view }
    {
        self.view
    }

    /// The caller that composes its picture, if there is one.
    pub fn composer(&self) -> Option<u32>
        ensures { result ≡ self.now.composer }
    {
        self.composer
    }

    /// How it ended, if it has an end.
    pub fn ended(&self) -> Option<How>
        ensures { result ≡ self.now.ended }
    {
        self.ended
    }

    /// A slot, of which the bottom one is 0.
    pub fn slot(&self, at: u32) -> Option<Slot>
        ensures { result ≡ slice_get self.now.slots at }
    {
        self.slots.get(at as usize).copied()
    }

    /// What a slot of a job without end is painted from. It was taken at the job's start.
    pub fn input(&self, at: u32) -> Option<&Shared<LayerInput>>
        ensures { self.now.ended ≡ None → option_copied result ≡ input_at self.now at }
    {
        match &self.held {
            Some(held) => held.input(at as usize),
            None => None,
        }
    }

    /// The ready slots as a number: bit k is set where slot k is ready.
    pub fn ready_bits(&self) -> u32
        ensures { result ≡ ready_bits self.now.slots }
    {
        ready_bits(self.slots.as_slice())
    }

    /// What the picture of the ready slots of a job without end is composed of.
    pub fn composing(&self, alloc: Global) -> Result<ComposeInput, NoMemory>
        requires { self.now.ended ≡ None }
        ensures { IfOk result (λ made. made ≡ compose_of self.now) }
    {
        let Some(held) = &self.held else {
            unreachable!()
        };
        let frame = held.frame(alloc)?;
        let images = held.images(alloc)?;
        Ok(ComposeInput::of(frame, images))
    }

    /// Its open task, where it has this number.
    pub(crate) fn open_task(&self, job: u32) -> Option<Task>
        ensures { result ≡ open_task job (job_of self.now) }
    {
        if self.ended.is_some() {
            return None;
        }
        match open_slot(self.slots.as_slice()) {
            Some(at) => Some(Task::Look(job, at)),
            None => {
                if all_ready(self.slots.as_slice()) && self.composer.is_none() {
                    Some(Task::Compose(job))
                } else {
                    None
                }
            }
        }
    }

    /// How many entries of the journal are owed to it: its end, and a delivery for each slot that is being
    /// painted.
    pub(crate) fn weight(&self) -> u64
        ensures weight { result ≡ weight self.now }
        ensures short { length self.now.slots ≤ 32 }
    {
        end_weight(self.ended) + missed(self.slots.as_slice())
    }

    /// Ends it, if it has no end, and gives up what it holds.
    pub(crate) fn end(&mut self, how: How)
        ensures { self.new ≡ row_ended how self.old }
    {
        self.ended = self.ended.or(Some(how));
        self.held = None;
    }

    /// Lets a caller compose its picture.
    pub(crate) fn compose(&mut self, who: u32)
        ensures { self.new ≡ row_composed who self.old }
    {
        self.composer = Some(who);
    }

    /// Lets a slot stand otherwise, with no image.
    pub(crate) fn stand(&mut self, at: u32, standing: Standing)
        requires old { IsSomeAnd (slice_get self.old.slots at) (λ slot. is_ready slot.standing ≡ false) }
        requires new { is_ready standing ≡ false }
        ensures { self.new ≡ row_stands at standing self.old }
    {
        stand(&mut self.slots, at as usize, standing);
    }

    /// Gives a slot of a job without end its image.
    pub(crate) fn ready(&mut self, at: u32, painted: Shared<PaintedLayer>)
        requires live { self.old.ended ≡ None }
        requires painted { IsSomeAnd (slice_get self.old.slots at)
            (λ slot. painting_of self.old.store self.old.view slot ≡ Some painted) }
        ensures { self.new ≡ row_stands at Ready self.old }
    {
        let Some(held) = &mut self.held else {
            unreachable!()
        };
        held.set_image(at as usize, painted);
        stand(&mut self.slots, at as usize, Standing::Ready);
    }

    /// Touches its slots that depend on the layer that an edit touches, while it has no end.
    pub(crate) fn touch(&mut self, edit: &Edit)
        ensures { self.new ≡ row_edited edit.now self.old }
    {
        match self.ended {
            Some(_) => {}
            None => self.touch_live(edit),
        }
    }

    fn touch_live(&mut self, edit: &Edit)
        requires { self.old.ended ≡ None }
        ensures { self.new ≡
            record self.old { slots = (slots_edited self.old.store edit.now self.old.slots) } }
    {
        let Some(held) = &self.held else {
            unreachable!()
        };
        touch_slots(&mut self.slots, held.inputs(), edit);
    }
}
