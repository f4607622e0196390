//! The jobs of a desk.

ghost use Rattle.std.specs.Prelude.{◌≡◌, ◌≤◌, ◌<◌, ◌==◌, ◌++◌, ◌∷◌, [], suc, not, length, map, filter};
ghost use Rattle.std.specs.Prelude.{None, IfOk, OnErr, OnOk, false};
ghost use Rattle.std.specs.Option.{option_copied};
ghost use Rattle.cv_event.specs.declared.slot.Standing.TheVariants.{Missed, Ready, Lost};
ghost use Rattle.cv_event.specs.States.{change_at};
ghost use Rattle.cv_event.specs.Legality.{is_ready, task_from};
ghost use Rattle.cv_tables.specs.Rows.{job_of, row_in, change_row, PlaceIs, row_stands, row_composed};
ghost use Rattle.cv_tables.specs.Rows.{row_ended, row_cancelled, row_edited, new_row, cancelled_before};
ghost use Rattle.cv_tables.specs.Rows.{owed, FoundLive, HasSlot, HasSlotAt, IsPaintingOf};

use crate::making::started;
use crate::row::JobRow;
use cv_chunks::Shared;
use cv_event::{How, Standing, Task};
use cv_layer::{NoMemory, PaintedLayer};
use cv_model::{Edit, View};
use cv_store::Store;
use std::alloc::Global;
use std::marker::Model;

/// The jobs of a desk, seen as their list, of which job 1 is the first.
///
/// It keeps the places of the jobs without end, so that no call's time grows with the number of those that
/// have ended, and the number of entries that are owed to the journal.
#[derive(Drop)]
pub struct JobTable {
    rows: Vec<JobRow>,
    live: Vec<u32>,
    due: u64,
}

impl Model for JobTable {
    ghost use Rattle.std.specs.Prelude.{List};
    ghost use Rattle.cv_tables.specs.Rows.{Row, IsTable};

    ghost Value = { List Row };

    ghost view = { λ t. t.rows.items };

    ghost invariant = { λ t. IsTable t.rows.items t.live.items t.due };
}

/// Takes a place out of a list.
fn take_out(live: &mut Vec<u32>, place: u32)
    ensures { live.new.items ≡ filter (λ p. not (p == place)) live.old.items }
{
    live.retain(|p| *p != place);
}

impl JobTable {
    /// No jobs. Takes no memory.
    pub fn new(alloc: Global) -> JobTable
        ensures { result ≡ [] }
    {
        JobTable {
            rows: Vec::new(alloc),
            live: Vec::new(alloc),
            due: 0,
        }
    }

    /// How many jobs were started.
    pub fn len(&self) -> u32
        ensures { result ≡ length self.now }
    {
        self.rows.len() as u32
    }

    /// How many entries are owed to the journal: an end of each job without one, and a delivery of each slot
    /// that is being painted.
    pub fn due(&self) -> u64
        ensures { result ≡ owed self.now }
    {
        self.due
    }

    /// The job of a number.
    pub fn get(&self, job: u32) -> Option<&JobRow>
        ensures { option_copied result ≡ row_in self.now job }
    {
        match self.place(job) {
            Some(at) => Some(&self.rows[at]),
            None => None,
        }
    }

    /// The place of a job.
    fn place(&self, job: u32) -> Option<usize>
        ensures { PlaceIs self.now job result }
    {
        if job == 0 || job as usize > self.rows.len() {
            None
        } else {
            Some(job as usize - 1)
        }
    }

    /// The task that is to be done next. Its time grows with the number of jobs without end alone.
    pub fn task(&self) -> Option<Task>
        ensures { result ≡ task_from 1 (map job_of self.now) }
    {
        let mut k = 0;
        while k < self.live.len() {
            let at = self.live[k];
            match self.rows[at as usize].open_task(at + 1) {
                Some(task) => return Some(task),
                None => {}
            }
            k += 1;
        }
        None
    }

    /// Ends a job, if it has no end, and gives up what it holds. Takes no memory.
    pub fn end(&mut self, job: u32, how: How)
        ensures { self.new ≡ change_row job (row_ended how) self.old }
    {
        match self.place(job) {
            Some(at) => self.end_at(at, how),
            None => {}
        }
    }

    fn end_at(&mut self, at: usize, how: How)
        requires { at < length self.old }
        ensures { self.new ≡ change_at at (row_ended how) self.old }
    {
        let row = &mut self.rows[at];
        let before = row.weight();
        row.end(how);
        let after = row.weight();
        self.due = self.due + after - before;
        take_out(&mut self.live, at as u32);
    }

    /// Lets a caller compose a job's picture. Takes no memory.
    pub fn compose(&mut self, job: u32, who: u32)
        ensures { self.new ≡ change_row job (row_composed who) self.old }
    {
        match self.place(job) {
            Some(at) => self.compose_at(at, who),
            None => {}
        }
    }

    fn compose_at(&mut self, at: usize, who: u32)
        requires { at < length self.old }
        ensures { self.new ≡ change_at at (row_composed who) self.old }
    {
        self.rows[at].compose(who);
    }

    /// Lets a caller paint a slot that isn't ready. Takes no memory.
    pub fn miss(&mut self, job: u32, slot: u32, who: u32)
        requires { HasSlot self.old job slot (λ row x. is_ready x.standing ≡ false) }
        ensures { self.new ≡ change_row job (row_stands slot (Missed who)) self.old }
    {
        match self.place(job) {
            Some(at) => self.stand_at(at, slot, Standing::Missed(who)),
            None => {}
        }
    }

    /// Drops the image of a slot that isn't ready. Takes no memory.
    pub fn lose(&mut self, job: u32, slot: u32)
        requires { HasSlot self.old job slot (λ row x. is_ready x.standing ≡ false) }
        ensures { self.new ≡ change_row job (row_stands slot Lost) self.old }
    {
        match self.place(job) {
            Some(at) => self.stand_at(at, slot, Standing::Lost),
            None => {}
        }
    }

    fn stand_at(&mut self, at: usize, slot: u32, standing: Standing)
        requires within { at < length self.old }
        requires old { HasSlotAt self.old at slot (λ row x. is_ready x.standing ≡ false) }
        requires new { is_ready standing ≡ false }
        ensures { self.new ≡ change_at at (row_stands slot standing) self.old }
    {
        let row = &mut self.rows[at];
        let before = row.weight();
        row.stand(slot, standing);
        let after = row.weight();
        self.due = self.due + after - before;
    }

    /// Gives a slot of a job without end its image. Takes no memory.
    pub fn ready(&mut self, job: u32, slot: u32, painted: Shared<PaintedLayer>)
        requires { HasSlot self.old job slot (IsPaintingOf painted) }
        ensures { self.new ≡ change_row job (row_stands slot Ready) self.old }
    {
        match self.place(job) {
            Some(at) => self.ready_at(at, slot, painted),
            None => {}
        }
    }

    fn ready_at(&mut self, at: usize, slot: u32, painted: Shared<PaintedLayer>)
        requires within { at < length self.old }
        requires painted { HasSlotAt self.old at slot (IsPaintingOf painted) }
        ensures { self.new ≡ change_at at (row_stands slot Ready) self.old }
    {
        let row = &mut self.rows[at];
        let before = row.weight();
        row.ready(slot, painted);
        let after = row.weight();
        self.due = self.due + after - before;
    }

    /// Touches the slots of jobs without end that depend on the layer that an accepted edit touches. Its time
    /// grows with the number of jobs without end alone. Takes no memory.
    pub fn touch(&mut self, edit: &Edit)
        ensures { self.new ≡ map (row_edited edit.now) self.old }
    {
        let mut k = 0;
        while k < self.live.len() {
            let at = self.live[k];
            self.touch_at(at as usize, edit);
            k += 1;
        }
    }

    fn touch_at(&mut self, at: usize, edit: &Edit)
        requires { at < length self.old }
        ensures { self.new ≡ change_at at (row_edited edit.now) self.old }
    {
        self.rows[at].touch(edit);
    }

    /// Starts a job on a canvas, of the present store at a view, and cancels the canvas's other jobs. Answers
    /// its number. It takes the inputs of all slots; a refusal changes nothing.
    pub fn start(
        &mut self,
        alloc: Global,
        canvas: u32,
        store: &Store,
        view: View,
    ) -> Result<u32, NoMemory>
        requires { length self.old < 4294967295 }
        ensures number { IfOk result (λ job. job ≡ suc (length self.old)) }
        ensures ok { OnOk result (self.new
            ≡ map (row_cancelled canvas) self.old ++ new_row canvas store.now view ∷ []) }
        ensures err { OnErr result (self.new ≡ self.old) }
    {
        let place = self.rows.len() as u32;
        self.push(started(alloc, canvas, store, view)?)?;
        self.cancel_before(canvas, place);
        Ok(place + 1)
    }

    /// Puts a job behind the others.
    fn push(&mut self, row: JobRow) -> Result<(), NoMemory>
        requires few { length self.old < 4294967295 }
        requires live { row.ended ≡ None }
        ensures ok { OnOk result (self.new ≡ self.old ++ row ∷ []) }
        ensures err { OnErr result (self.new ≡ self.old) }
    {
        let weight = row.weight();
        self.live.reserve(1)?;
        let place = self.rows.len() as u32;
        self.rows.push(row)?;
        let _ = self.live.push(place);
        self.due += weight;
        Ok(())
    }

    /// The place of a job without end on a canvas, among the first so many.
    fn find_live(&self, canvas: u32, count: u32) -> Option<usize>
        ensures { FoundLive canvas count self.now result }
    {
        let mut k = 0;
        while k < self.live.len() {
            let at = self.live[k];
            if at < count && self.rows[at as usize].canvas() == canvas {
                return Some(at as usize);
            }
            k += 1;
        }
        None
    }

    /// Cancels the jobs on a canvas among the first so many.
    fn cancel_before(&mut self, canvas: u32, count: u32)
        ensures { self.new ≡ cancelled_before canvas count self.old }
    {
        while let Some(at) = self.find_live(canvas, count) {
            self.end_at(at, How::Cancelled);
        }
    }
}
