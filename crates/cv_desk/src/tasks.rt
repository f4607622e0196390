//! The tasks of jobs: handed out, and delivered.

ghost use Rattle.std.specs.Prelude.{◌≡◌, ◌≤◌, ◌+◌, false, Some, None, IfOk, IfErr, OnErr, IsSomeAnd};
ghost use Rattle.cv_event.specs.declared.entry.Act.TheVariants as act;
ghost use Rattle.cv_event.specs.declared.entry.Fate.TheVariants.{Stored};
ghost use Rattle.cv_event.specs.declared.slot.Standing.TheVariants.{Missed};
ghost use Rattle.cv_event.specs.declared.slot.Task.TheVariants.{Look, Compose};
ghost use Rattle.cv_event.specs.Legality.{fate_of, task, hits};
ghost use Rattle.cv_tables.specs.Rows.{HasSlot, IsPaintingOf, job_of, owed, painting_of, row_in, whole_of};
ghost use Rattle.cv_desk.specs.Desks.{state, Notes};
ghost use Rattle.cv_desk.specs.Answers.{HitNotes, IsPiece, ClaimAnswer, ClaimNotes};

use crate::desk::Desk;
use crate::errors::ClaimError;
use cv_chunks::Shared;
use cv_compose::ComposeInput;
use cv_event::{Act, Entry, Fate, Task};
use cv_layer::{NoMemory, PaintedLayer, Piece};
use std::marker::Model;

/// A task that was handed out. Jobs are numbered from 1 in the order of their starts, the slots of a job from
/// 0, the bottom layer.
#[derive(Drop)]
pub enum Claim {
    /// The cache served this slot, the second number, of this job, the first; nothing is left to do for it.
    Hit(u32, u32),
    /// A slot to be painted and then to be handed to `deliver`, by the caller that claimed it.
    Paint(Piece),
    /// This job's picture is to be composed of this and then to be handed to `finish`, by the same caller.
    Compose(u32, ComposeInput),
    /// Nothing is to be done at present. Takes no memory.
    Nothing,
}

impl Desk {
    /// Puts a delivery that the cache takes behind the journal. A refusal hands the image back.
    fn note_stored(
        &mut self,
        who: u32,
        job: u32,
        slot: u32,
        painted: Shared<PaintedLayer>,
    ) -> Result<Fate, (Shared<PaintedLayer>, NoMemory)>
        requires { HasSlot self.old.tables.rows job slot (λ row x. (x.standing ≡ Missed who)
            × IsPaintingOf painted row x × (fate_of (state self.old) (job_of row) x ≡ Stored)) }
        ensures ok { IfOk result (λ fate. (fate ≡ Stored)
            × Notes self.old self.new who (act.Deliver job slot Stored)) }
        ensures err { OnErr result (self.new ≡ self.old) }
        ensures back { IfErr result (λ e. e.0 ≡ painted) }
    {
        let Some(row) = self.jobs.get(job) else {
            unreachable!()
        };
        let canvas = row.canvas();
        let kept = match painted.clone() {
            Ok(kept) => kept,
            Err(error) => return Err((painted, error)),
        };
        match self.canvases.store(canvas, kept) {
            Ok(()) => {}
            Err(refused) => return Err((painted, refused.1)),
        }
        self.jobs.ready(job, slot, painted);
        self.journal.push(Entry {
            caller: who,
            act: Act::Deliver(job, slot, Fate::Stored),
        });
        Ok(Fate::Stored)
    }

    /// Delivers the image of a slot that this caller's look missed, as `Claim::Paint` handed it out. Answers
    /// what became of it: stored in the cache too, kept for the job alone, or dropped, where the job has an
    /// end. A refusal hands the image back; only one that the cache takes can want memory.
    pub fn deliver(
        &mut self,
        who: u32,
        job: u32,
        slot: u32,
        painted: Shared<PaintedLayer>,
    ) -> Result<Fate, (Shared<PaintedLayer>, NoMemory)>
        requires { HasSlot self.old.tables.rows job slot (λ row x. (x.standing ≡ Missed who)
            × (row.ended ≡ None → painting_of row.store row.view x ≡ Some painted)) }
        ensures ok { IfOk result (λ fate. Notes self.old self.new who (act.Deliver job slot fate)) }
        ensures err { OnErr result (self.new ≡ self.old) }
        ensures back { IfErr result (λ e. e.0 ≡ painted) }
        ensures wants { OnErr result (HasSlot self.old.tables.rows job slot
            (λ row x. fate_of (state self.old) (job_of row) x ≡ Stored)) }
    {
        match self.fate(job, slot) {
            Fate::Dropped => {
                self.note_dropped(who, job, slot);
                Ok(Fate::Dropped)
            }
            Fate::Kept => {
                self.note_kept(who, job, slot, painted);
                Ok(Fate::Kept)
            }
            Fate::Stored => self.note_stored(who, job, slot, painted),
        }
    }

    /// Serves a slot that is due from the cache, where it may be, and puts that behind the journal. Answers
    /// whether it did.
    fn note_hit(&mut self, who: u32, job: u32, slot: u32) -> Result<bool, NoMemory>
        requires room { owed self.old.tables.rows + 1 ≤ self.old.spare }
        requires due { task (state self.old) ≡ Some (Look job slot) }
        ensures ok { IfOk result (λ hit. HitNotes self.old self.new who job slot hit) }
        ensures err { OnErr result (self.new ≡ self.old) }
    {
        let Some(row) = self.jobs.get(job) else {
            unreachable!()
        };
        let Some(at) = row.slot(slot) else {
            unreachable!()
        };
        let Some(input) = row.input(slot) else {
            unreachable!()
        };
        let canvas = row.canvas();
        let view = row.view();
        let stamps = input.value().stamps();
        if at.touched || !self.shows(canvas, view) {
            return Ok(false);
        }
        match self.canvases.look(canvas, at.layer, &stamps, &view)? {
            Some(painted) => {
                self.jobs.ready(job, slot, painted);
                self.journal.push(Entry {
                    caller: who,
                    act: Act::Look(job, slot, true),
                });
                Ok(true)
            }
            None => Ok(false),
        }
    }

    /// Hands out a slot that is due and that the cache can't serve, and puts that behind the journal.
    fn note_miss(&mut self, who: u32, job: u32, slot: u32) -> Result<Piece, NoMemory>
        requires room { owed self.old.tables.rows + 2 ≤ self.old.spare }
        requires due { task (state self.old) ≡ Some (Look job slot) }
        requires missed { hits (state self.old) job slot ≡ false }
        ensures ok { IfOk result (λ piece. (piece.job ≡ job) × (piece.slot ≡ slot)
            × Notes self.old self.new who (act.Look job slot false)
            × HasSlot self.old.tables.rows job slot (IsPiece piece.input piece.view)) }
        ensures err { OnErr result (self.new ≡ self.old) }
    {
        let Some(row) = self.jobs.get(job) else {
            unreachable!()
        };
        let Some(input) = row.input(slot) else {
            unreachable!()
        };
        let piece = Piece {
            job,
            slot,
            input: input.clone()?,
            view: row.view(),
        };
        self.jobs.miss(job, slot, who);
        self.journal.push(Entry {
            caller: who,
            act: Act::Look(job, slot, false),
        });
        Ok(piece)
    }

    /// Hands out a composition that is due, and puts that behind the journal.
    fn note_compose(&mut self, who: u32, job: u32) -> Result<ComposeInput, NoMemory>
        requires room { owed self.old.tables.rows + 1 ≤ self.old.spare }
        requires due { task (state self.old) ≡ Some (Compose job) }
        ensures ok { IfOk result (λ input. Notes self.old self.new who (act.Compose job)
            × IsSomeAnd (row_in self.old.tables.rows job) (λ row. input ≡ whole_of row)) }
        ensures err { OnErr result (self.new ≡ self.old) }
    {
        let Some(row) = self.jobs.get(job) else {
            unreachable!()
        };
        let input = row.composing(self.alloc)?;
        self.jobs.compose(job, who);
        self.journal.push(Entry {
            caller: who,
            act: Act::Compose(job),
        });
        Ok(input)
    }

    /// Hands out the slot of a job that is due.
    fn claim_look(&mut self, who: u32, job: u32, slot: u32) -> Result<Claim, ClaimError>
        requires { task (state self.old) ≡ Some (Look job slot) }
        ensures answer { ClaimAnswer self.old result }
        ensures entry { ClaimNotes self.old self.new who result }
    {
        match self.reserve(2) {
            Ok(()) => {}
            Err(_) => return Err(ClaimError::NoMemory(job)),
        }
        match self.note_hit(who, job, slot) {
            Ok(true) => Ok(Claim::Hit(job, slot)),
            Ok(false) => match self.note_miss(who, job, slot) {
                Ok(piece) => Ok(Claim::Paint(piece)),
                Err(_) => Err(ClaimError::NoMemory(job)),
            },
            Err(_) => Err(ClaimError::NoMemory(job)),
        }
    }

    /// Hands out the composition of a job that is due.
    fn claim_compose(&mut self, who: u32, job: u32) -> Result<Claim, ClaimError>
        requires { task (state self.old) ≡ Some (Compose job) }
        ensures answer { ClaimAnswer self.old result }
        ensures entry { ClaimNotes self.old self.new who result }
    {
        match self.reserve(1) {
            Ok(()) => {}
            Err(_) => return Err(ClaimError::NoMemory(job)),
        }
        match self.note_compose(who, job) {
            Ok(input) => Ok(Claim::Compose(job, input)),
            Err(_) => Err(ClaimError::NoMemory(job)),
        }
    }

    /// Hands out the task that is due, to the caller `who`: of the job of the least number that has one, a
    /// slot before the composition, and of the slots the lowest that nobody has looked at.
    ///
    /// An error names the job of which a task got no memory; nothing is handed out then, and the job may be
    /// failed or claimed again.
    pub fn claim(&mut self, who: u32) -> Result<Claim, ClaimError>
        ensures answer { ClaimAnswer self.old result }
        ensures entry { ClaimNotes self.old self.new who result }
    {
        match self.jobs.task() {
            Some(Task::Look(job, slot)) => self.claim_look(who, job, slot),
            Some(Task::Compose(job)) => self.claim_compose(who, job),
            None => Ok(Claim::Nothing),
        }
    }
}
