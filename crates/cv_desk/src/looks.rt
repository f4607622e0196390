//! Pictures: of a job before its end, and of the last that was finished on a canvas.

ghost use Rattle.std.specs.Prelude.{◌≡◌, ◌≤◌, ◌+◌, slice_get, OnOk, OnErr, IfErr, IsSomeAnd};
ghost use Rattle.cv_event.specs.declared.entry.Act.TheVariants as act;
ghost use Rattle.cv_event.specs.Legality.{OfJob, ready_bits};
ghost use Rattle.cv_tables.specs.Rows.{owed};
ghost use Rattle.cv_desk.specs.Desks.{state, Notes, Stays};
ghost use Rattle.cv_desk.specs.Answers.{PreviewAnswer, PreviewLeaves, SaveAnswer, SaveNotes};

use crate::desk::Desk;
use crate::errors::{PreviewError, SaveError};
use cv_chunks::Shared;
use cv_compose::{ComposeInput, Composed};
use cv_event::{Act, Entry};

impl Desk {
    /// What the picture of a job's ready slots is composed of, from the bottom; the slots that aren't ready
    /// are left out. It is for a caller that shows a picture before the job is finished. A refusal leaves the
    /// desk as it was; want of memory may leave more places set aside.
    pub fn preview(&mut self, who: u32, job: u32) -> Result<ComposeInput, PreviewError>
        ensures answer { PreviewAnswer self.old job result }
        ensures ok { OnOk result (OfJob (state self.old) job
            (λ j. Notes self.old self.new who (act.Preview job (ready_bits j.slots)))) }
        ensures err { OnErr result (Stays self.old self.new) }
        ensures left { IfErr result (PreviewLeaves self.old self.new) }
    {
        let Some(row) = self.jobs.get(job) else {
            return Err(PreviewError::UnknownJob);
        };
        let ready = row.ready_bits();
        let input = match row.ended() {
            Some(how) => return Err(PreviewError::Ended(how)),
            None => match row.composing(self.alloc) {
                Ok(input) => input,
                Err(_) => return Err(PreviewError::NoMemory),
            },
        };
        match self.reserve(1) {
            Ok(()) => {}
            Err(_) => return Err(PreviewError::NoMemory),
        }
        self.note_preview(who, job, ready);
        Ok(input)
    }

    /// Puts that a canvas's picture was taken behind the journal.
    fn note_save(&mut self, who: u32, canvas: u32, job: u32)
        requires room { owed self.old.tables.rows + 1 ≤ self.old.spare }
        requires taken { IsSomeAnd (slice_get (state self.old).canvases canvas)
            (λ k. IsSomeAnd k.published (λ taken. taken.job ≡ job)) }
        ensures { Notes self.old self.new who (act.Save canvas job) }
    {
        self.journal.push(Entry {
            caller: who,
            act: Act::Save(canvas, job),
        });
    }

    /// The picture of the last job that was finished on a canvas. A refusal leaves the desk as it was; want
    /// of memory may leave more places set aside.
    pub fn published(&mut self, who: u32, canvas: u32) -> Result<Shared<Composed>, SaveError>
        ensures answer { SaveAnswer self.old canvas result }
        ensures entry { SaveNotes self.old self.new who canvas result }
        ensures err { OnErr result (Stays self.old self.new) }
    {
        let Some(row) = self.canvases.get(canvas) else {
            return Err(SaveError::UnknownCanvas);
        };
        let Some(published) = row.published() else {
            return Err(SaveError::Nothing);
        };
        let job = published.job();
        let image = match published.image().clone() {
            Ok(image) => image,
            Err(_) => return Err(SaveError::NoMemory),
        };
        match self.reserve(1) {
            Ok(()) => {}
            Err(_) => return Err(SaveError::NoMemory),
        }
        self.note_save(who, canvas, job);
        Ok(image)
    }
}
