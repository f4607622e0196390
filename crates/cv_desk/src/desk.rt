//! The desk.

ghost use Rattle.std.specs.Prelude.{◌≡◌, ◌≤◌, ◌<◌, ◌+◌, ◌==◌, ◌&&◌, not, false, length, slice_get};
ghost use Rattle.std.specs.Prelude.{Some, None, IfOk, IfErr, OnOk, OnErr, IsSome, IsSomeAnd};
ghost use Rattle.std.specs.Option.{option_map_or};
ghost use Rattle.cv_model.specs.Views.{IsView};
ghost use Rattle.cv_event.specs.declared.entry.Act.TheVariants as act;
ghost use Rattle.cv_event.specs.declared.entry.Fate.TheVariants.{Kept, Dropped};
ghost use Rattle.cv_event.specs.declared.slot.Slot.{Slot};
ghost use Rattle.cv_event.specs.declared.slot.Standing.TheVariants.{Missed};
ghost use Rattle.cv_event.specs.States.{Canvas, job_in, view_on};
ghost use Rattle.cv_event.specs.Legality.{OfJob, ready_bits, shows, fate_of};
ghost use Rattle.cv_tables.specs.Rows.{Row, HasSlot, IsPaintingOf, job_of, owed, row_in, whole_of};
ghost use Rattle.cv_desk.specs.Desks.{state, Notes, Stays};
ghost use Rattle.cv_desk.specs.Laws.{IsKnown};
ghost use Rattle.cv_desk.specs.Answers.{StartAnswer, StartLeaves, ViewAnswer, ViewLeaves, FitsCanvas};
ghost use Rattle.cv_desk.specs.Answers.{EndAnswer};

use crate::errors::{EndError, SetViewError, StartError, UnknownJob};
use cv_chunks::Shared;
use cv_compose::Composed;
use cv_event::{Act, Entry, Fate, How, Journal};
use cv_layer::{NoMemory, PaintedLayer};
use cv_model::{CanvasSpec, View};
use cv_store::Store;
use cv_tables::{CanvasTable, JobTable};
use std::alloc::Global;
use std::marker::Model;
use std::snapshot::Snapshot;

/// A store, canvases and jobs with the journal of what was done to them.
///
/// It keeps that the journal is legal, that the tables are those of the state after it, that revisions are
/// those of its edits, that each cached layer is of the present project, that what a canvas has published is
/// of the job of that number, and that a place is set aside for each entry that is owed.
#[derive(Drop)]
pub struct Desk {
    pub(crate) alloc: Global,
    pub(crate) opened: Snapshot<Store>,
    pub(crate) blank: Snapshot<CanvasTable>,
    pub(crate) store: Store,
    pub(crate) canvases: CanvasTable,
    pub(crate) jobs: JobTable,
    pub(crate) journal: Journal,
}

impl Model for Desk {
    ghost use Rattle.std.specs.Prelude.{map};
    ghost use Rattle.cv_store.specs.Stores.{project_of};
    ghost use Rattle.cv_tables.specs.Tabs.{Tab};
    ghost use Rattle.cv_desk.specs.Desks.{History, IsDesk};

    ghost Value = { History };

    ghost view = { λ d. record {
      opening = record {
        project = project_of d.opened.value;
        canvases = map (λ (tab : Tab). tab.spec) d.blank.value;
      };
      journal = d.journal.entries;
      spare = d.journal.spare;
      tables = record { store = d.store; tabs = d.canvases; rows = d.jobs };
    } };

    ghost invariant = { λ d. IsDesk (record {
      opening = record {
        project = project_of d.opened.value;
        canvases = map (λ (tab : Tab). tab.spec) d.blank.value;
      };
      journal = d.journal.entries;
      spare = d.journal.spare;
      tables = record { store = d.store; tabs = d.canvases; rows = d.jobs };
    }) };
}

/// Whether a view is of a canvas's size.
fn is_of_size(view: View, spec: CanvasSpec) -> bool
    ensures value { result ≡ ((view.w == spec.w) && (view.h == spec.h)) }
    ensures kept { IsView view }
{
    view.w == spec.w && view.h == spec.h
}

impl Desk {
    /// Sets places of the journal aside: those that are owed, and so many more.
    pub(crate) fn reserve(&mut self, more: u64) -> Result<(), NoMemory>
        ensures stays { Stays self.old self.new }
        ensures ok { OnOk result (owed self.old.tables.rows + more ≤ self.new.spare) }
    {
        let Some(places) = self.jobs.due().checked_add(more) else {
            return Err(std::alloc::AllocError);
        };
        self.journal.reserve(places)
    }

    /// Puts a job's cancel behind the journal.
    pub(crate) fn note_cancel(&mut self, who: u32, job: u32)
        requires { OfJob (state self.old) job (λ j. j.ended ≡ None) }
        ensures { Notes self.old self.new who (act.Cancel job) }
    {
        self.jobs.end(job, How::Cancelled);
        self.journal.push(Entry {
            caller: who,
            act: Act::Cancel(job),
        });
    }

    /// Cancels a job. Takes no memory.
    pub fn cancel(&mut self, who: u32, job: u32) -> Result<(), EndError>
        ensures answer { EndAnswer (state self.old) job result }
        ensures ok { OnOk result (Notes self.old self.new who (act.Cancel job)) }
        ensures err { OnErr result (self.new ≡ self.old) }
    {
        let Some(row) = self.jobs.get(job) else {
            return Err(EndError::UnknownJob);
        };
        match row.ended() {
            Some(how) => Err(EndError::Ended(how)),
            None => {
                self.note_cancel(who, job);
                Ok(())
            }
        }
    }

    /// Puts the end of a job that got no memory behind the journal.
    pub(crate) fn note_fail(&mut self, who: u32, job: u32)
        requires { OfJob (state self.old) job (λ j. j.ended ≡ None) }
        ensures { Notes self.old self.new who (act.Fail job) }
    {
        self.jobs.end(job, How::NoMemory);
        self.journal.push(Entry {
            caller: who,
            act: Act::Fail(job),
        });
    }

    /// Ends a job, a task of which got no memory. Takes no memory.
    pub fn fail(&mut self, who: u32, job: u32) -> Result<(), EndError>
        ensures answer { EndAnswer (state self.old) job result }
        ensures ok { OnOk result (Notes self.old self.new who (act.Fail job)) }
        ensures err { OnErr result (self.new ≡ self.old) }
    {
        let Some(row) = self.jobs.get(job) else {
            return Err(EndError::UnknownJob);
        };
        match row.ended() {
            Some(how) => Err(EndError::Ended(how)),
            None => {
                self.note_fail(who, job);
                Ok(())
            }
        }
    }

    /// Puts a view behind the journal, at a place set aside.
    pub(crate) fn note_view(&mut self, who: u32, canvas: u32, view: View)
        requires room { owed self.old.tables.rows + 1 ≤ self.old.spare }
        requires fits { FitsCanvas (state self.old) canvas view }
        ensures { Notes self.old self.new who (act.View canvas view) }
    {
        self.canvases.set_view(canvas, view);
        self.journal.push(Entry {
            caller: who,
            act: Act::View(canvas, view),
        });
    }

    /// Gives a canvas a view of its size. Where that is no pan of the present one, its cache is emptied.
    /// A refusal leaves the desk as it was; want of memory may leave more places set aside.
    pub fn set_view(&mut self, who: u32, canvas: u32, view: View) -> Result<(), SetViewError>
        ensures answer { ViewAnswer (state self.old) canvas view result }
        ensures ok { OnOk result (Notes self.old self.new who (act.View canvas view)) }
        ensures err { OnErr result (Stays self.old self.new) }
        ensures left { IfErr result (ViewLeaves self.old self.new) }
    {
        let Some(row) = self.canvases.get(canvas) else {
            return Err(SetViewError::UnknownCanvas);
        };
        if !is_of_size(view, row.spec()) {
            return Err(SetViewError::Size);
        }
        match self.reserve(1) {
            Ok(()) => {}
            Err(_) => return Err(SetViewError::NoMemory),
        }
        self.note_view(who, canvas, view);
        Ok(())
    }

    /// Starts a job of the present project at a canvas's present view, and cancels the canvas's other jobs.
    /// Answers its number. A refusal leaves the desk as it was; want of memory may leave more places set
    /// aside.
    pub fn start(&mut self, who: u32, canvas: u32) -> Result<u32, StartError>
        ensures answer { StartAnswer (state self.old) canvas result }
        ensures ok { IfOk result (λ job. Notes self.old self.new who (act.Start canvas job)) }
        ensures err { OnErr result (Stays self.old self.new) }
        ensures left { IfErr result (StartLeaves self.old self.new) }
    {
        let Some(row) = self.canvases.get(canvas) else {
            return Err(StartError::UnknownCanvas);
        };
        let Some(view) = row.view() else {
            return Err(StartError::NoView);
        };
        if self.jobs.len() == u32::MAX {
            return Err(StartError::TooManyJobs);
        }
        match self.reserve(2) {
            Ok(()) => {}
            Err(_) => return Err(StartError::NoMemory),
        }
        self.note_start(who, canvas, view)
    }

    /// Starts a job, where there is a number and places are set aside.
    pub(crate) fn note_start(
        &mut self,
        who: u32,
        canvas: u32,
        view: View,
    ) -> Result<u32, StartError>
        requires room { owed self.old.tables.rows + 2 ≤ self.old.spare }
        requires view { view_on (state self.old) canvas ≡ Some view }
        requires few { length self.old.tables.rows < 4294967295 }
        ensures answer { StartAnswer (state self.old) canvas result }
        ensures ok { IfOk result (λ job. Notes self.old self.new who (act.Start canvas job)) }
        ensures err { OnErr result (self.new ≡ self.old) }
    {
        // It says that the ids of the store's layers differ.
        let _ = self.store.len();
        match self.jobs.start(self.alloc, canvas, &self.store, view) {
            Ok(job) => {
                self.journal.push(Entry {
                    caller: who,
                    act: Act::Start(canvas, job),
                });
                Ok(job)
            }
            Err(_) => Err(StartError::NoMemory),
        }
    }

    /// How a job ended, if it has an end. Takes no memory.
    pub fn ended(&self, job: u32) -> Result<Option<How>, UnknownJob>
        ensures ok { IfOk result (λ end. OfJob (state self.now) job (λ j. end ≡ j.ended)) }
        ensures err { OnErr result (job_in (state self.now).jobs job ≡ None) }
    {
        match self.jobs.get(job) {
            Some(row) => Ok(row.ended()),
            None => Err(UnknownJob),
        }
    }

    /// The present view of a canvas. There is none where the canvas is unknown or has got none. Takes no
    /// memory.
    pub fn view(&self, canvas: u32) -> Option<View>
        ensures { result ≡ view_on (state self.now) canvas }
    {
        match self.canvases.get(canvas) {
            Some(row) => row.view(),
            None => None,
        }
    }

    /// The journal. Takes no memory.
    pub fn journal(&self) -> &Journal
        ensures entries { result.now.entries ≡ self.now.journal }
        ensures spare { result.now.spare ≡ self.now.spare }
    {
        &self.journal
    }

    /// What holds of a desk, whatever was called before: its journal is legal, and each cached layer, slot
    /// and published picture is what the definitions name. It does nothing.
    pub fn known(&self)
        ensures { IsKnown self.now }
    {
        let _ = &self.alloc;
    }

    /// The journal alone, with its places set aside. Takes no memory.
    pub fn into_journal(self) -> Journal
        ensures entries { result.entries ≡ self.journal }
        ensures spare { result.spare ≡ self.spare }
    {
        let Desk { journal, .. } = self;
        journal
    }
}

impl Desk {
    /// Whether a canvas's present view is this.
    pub(crate) fn shows(&self, canvas: u32, view: View) -> bool
        ensures { result ≡ option_map_or (λ k. shows k view)
            (slice_get (state self.now).canvases canvas) false }
    {
        match self.canvases.get(canvas) {
            Some(row) => row.shows(view),
            None => false,
        }
    }

    /// Whether a canvas has a capacity.
    pub(crate) fn keeps(&self, canvas: u32) -> bool
        ensures { result ≡ option_map_or (λ (k : Canvas). not (k.spec.capacity == 0))
            (slice_get (state self.now).canvases canvas) false }
    {
        match self.canvases.get(canvas) {
            Some(row) => row.spec().capacity != 0,
            None => false,
        }
    }

    /// What becomes of an image that is delivered for a slot.
    pub(crate) fn fate(&self, job: u32, slot: u32) -> Fate
        ensures { (row : Row) (x : Slot) → row_in self.now.tables.rows job ≡ Some row
            → slice_get row.slots slot ≡ Some x → result ≡ fate_of (state self.now) (job_of row) x }
    {
        let Some(row) = self.jobs.get(job) else {
            return Fate::Dropped;
        };
        let Some(at) = row.slot(slot) else {
            return Fate::Dropped;
        };
        if row.ended().is_some() {
            return Fate::Dropped;
        }
        if self.shows(row.canvas(), row.view()) && !at.touched && self.keeps(row.canvas()) {
            Fate::Stored
        } else {
            Fate::Kept
        }
    }

    /// Puts a delivery that came behind the job's end behind the journal.
    pub(crate) fn note_dropped(&mut self, who: u32, job: u32, slot: u32)
        requires { HasSlot self.old.tables.rows job slot
            (λ row x. (x.standing ≡ Missed who) × IsSome row.ended) }
        ensures { Notes self.old self.new who (act.Deliver job slot Dropped) }
    {
        self.jobs.lose(job, slot);
        self.journal.push(Entry {
            caller: who,
            act: Act::Deliver(job, slot, Fate::Dropped),
        });
    }

    /// Puts a delivery that the cache doesn't take behind the journal.
    pub(crate) fn note_kept(&mut self, who: u32, job: u32, slot: u32, painted: Shared<PaintedLayer>)
        requires { HasSlot self.old.tables.rows job slot (λ row x. (x.standing ≡ Missed who)
            × IsPaintingOf painted row x × (fate_of (state self.old) (job_of row) x ≡ Kept)) }
        ensures { Notes self.old self.new who (act.Deliver job slot Kept) }
    {
        self.jobs.ready(job, slot, painted);
        self.journal.push(Entry {
            caller: who,
            act: Act::Deliver(job, slot, Fate::Kept),
        });
    }

    /// Publishes a job's picture, and puts that behind the journal.
    pub(crate) fn note_finish(&mut self, who: u32, job: u32, image: Shared<Composed>)
        requires { IsSomeAnd (row_in self.old.tables.rows job) (λ row. (row.composer ≡ Some who)
            × (row.ended ≡ None) × (image ≡ whole_of row)) }
        ensures { Notes self.old self.new who (act.Finish job) }
    {
        let Some(row) = self.jobs.get(job) else {
            unreachable!()
        };
        self.canvases.publish(row.canvas(), job, row, image);
        self.jobs.end(job, How::Finished);
        self.journal.push(Entry {
            caller: who,
            act: Act::Finish(job),
        });
    }

    /// Finishes a job, the picture of which this caller composed, as `Claim::Compose` handed it out, and
    /// publishes that picture on the job's canvas. A refusal hands the picture back, with the job's end.
    /// Takes no memory.
    pub fn finish(
        &mut self,
        who: u32,
        job: u32,
        image: Shared<Composed>,
    ) -> Result<(), (Shared<Composed>, How)>
        requires { IsSomeAnd (row_in self.old.tables.rows job)
            (λ row. (row.composer ≡ Some who) × (image ≡ whole_of row)) }
        ensures ok { OnOk result (Notes self.old self.new who (act.Finish job)) }
        ensures err { OnErr result (self.new ≡ self.old) }
        ensures back { IfErr result (λ e. (e.0 ≡ image)
            × OfJob (state self.old) job (λ j. j.ended ≡ Some e.1)) }
    {
        match self.ended(job) {
            Ok(Some(how)) => Err((image, how)),
            Ok(None) => {
                self.note_finish(who, job, image);
                Ok(())
            }
            Err(_) => unreachable!(),
        }
    }

    /// Puts a preview behind the journal.
    pub(crate) fn note_preview(&mut self, who: u32, job: u32, ready: u32)
        requires room { owed self.old.tables.rows + 1 ≤ self.old.spare }
        requires job { OfJob (state self.old) job (λ j. (j.ended ≡ None) × (ready ≡ ready_bits j.slots)) }
        ensures { Notes self.old self.new who (act.Preview job ready) }
    {
        self.journal.push(Entry {
            caller: who,
            act: Act::Preview(job, ready),
        });
    }
}
