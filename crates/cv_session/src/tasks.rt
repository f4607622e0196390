//! The tasks of a session: claimed, done, and waited for.

ghost use Rattle.std.specs.Prelude.{◌≡◌, ◌≤◌, ◌<◌, ◌-◌, [], ◌∷◌, ◌++◌, length, slice_get, vec_capacity};
ghost use Rattle.std.specs.Prelude.{vec_len, Some, None, IfOk, OnOk, OnErr, IsSome};
ghost use Rattle.cv_event.specs.declared.entry.Act.TheVariants as act;
ghost use Rattle.cv_event.specs.declared.slot.Standing.TheVariants.{Missed};
ghost use Rattle.cv_event.specs.declared.slot.Task.TheVariants as task_is;
ghost use Rattle.cv_event.specs.States.{job_in};
ghost use Rattle.cv_event.specs.Legality.{OfJob, how};
ghost use Rattle.cv_tables.specs.Rows.{HasSlot, painting_of};
ghost use Rattle.cv_desk.specs.Desks.{state, Notes};
ghost use Rattle.cv_script.specs.declared.script.Command.TheVariants as command;
ghost use Rattle.cv_session.specs.declared.seat.HeldTask.TheVariants as held;
ghost use Rattle.cv_session.specs.Responses.{last_job, job_of_task};
ghost use Rattle.cv_session.specs.Seats.{IsSeat, now, task_of, Obeys};
ghost use Rattle.cv_session.specs.Tasks.{failed_job, TakesInto, Takes, IsDueOf, Served, Left};
ghost use Rattle.cv_session.specs.Tasks.{ServesFirst, Gives, WaitsOn, WaitsOnce};

use crate::seat::{HeldTask, Session};
use cv_chunks::Shared;
use cv_compose::{ComposeInput, Composed};
use cv_desk::{Claim, ClaimError, Desk, EndError};
use cv_event::{How, Reason};
use cv_layer::{PaintedLayer, Piece};
use cv_model::NoMemory;
use cv_outside::Never;
use cv_paint::PaintError;
use std::alloc::{AllocError, Global};

/// What became of a claim.
#[derive(Clone, Copy, Debug)]
pub(crate) enum Taken {
    /// The cache served a slot.
    Hit,
    /// A task is held.
    Held,
    /// There was no memory, and the task's job failed.
    Failed,
    /// Nothing is due.
    Nothing,
}

/// Fails a job that may have an end: then there is no more to be done than to say that there was no memory.
fn fail_task(desk: &mut Desk, job: u32) -> Result<(), NoMemory>
    requires { IsSome (job_in (state desk.old).jobs job) }
    ensures ok { OnOk result (Notes desk.old desk.new 0 (act.Fail job)) }
    ensures err { OnErr result (Left desk.old desk.new job) }
{
    match desk.fail(0, job) {
        Ok(()) => Ok(()),
        Err(EndError::Ended(_)) => Err(AllocError),
        Err(EndError::UnknownJob) => unreachable!(),
    }
}

/// Fails a job without end.
fn fail_live(desk: &mut Desk, job: u32)
    requires { OfJob (state desk.old) job (λ j. j.ended ≡ None) }
    ensures { Notes desk.old desk.new 0 (act.Fail job) }
{
    match desk.fail(0, job) {
        Ok(()) => {}
        Err(_) => unreachable!(),
    }
}

/// A piece painted, at a place where it can be shared.
fn painted(alloc: Global, piece: &Piece) -> Result<Shared<PaintedLayer>, NoMemory>
    ensures { IfOk result
        (λ made. made ≡ record { input = piece.now.input; view = piece.now.view }) }
{
    match cv_paint::paint(alloc, piece, &mut Never) {
        Ok(made) => match Shared::of(alloc, made) {
            Ok(shared) => Ok(shared),
            Err(refused) => Err(refused.1),
        },
        Err(PaintError::NoMemory) => Err(AllocError),
        Err(PaintError::Stopped) => unreachable!(),
    }
}

/// Delivers the image of a slot. Where there is no memory for it, the job fails.
fn deliver(
    desk: &mut Desk,
    job: u32,
    slot: u32,
    image: Shared<PaintedLayer>,
) -> Result<(), NoMemory>
    requires { HasSlot desk.old.tables.rows job slot (λ row x. (x.standing ≡ Missed 0)
        × (row.ended ≡ None → painting_of row.store row.view x ≡ Some image)) }
    ensures ok { OnOk result (Served desk.old desk.new (task_is.Look job slot)) }
    ensures err { OnErr result (Left desk.old desk.new job) }
{
    match desk.deliver(0, job, slot, image) {
        Ok(_) => Ok(()),
        Err(_) => fail_task(desk, job),
    }
}

/// Paints a piece and delivers it. Where there is no memory for it, the job fails.
fn paint_and_deliver(alloc: Global, desk: &mut Desk, piece: Piece) -> Result<(), NoMemory>
    requires { IsDueOf desk.old (held.Paint piece) }
    ensures ok { OnOk result (Served desk.old desk.new (task_is.Look piece.job piece.slot)) }
    ensures err { OnErr result (Left desk.old desk.new piece.job) }
{
    match painted(alloc, &piece) {
        Ok(image) => deliver(desk, piece.job, piece.slot, image),
        Err(_) => fail_task(desk, piece.job),
    }
}

/// A composition, at a place where it can be shared.
fn composed(alloc: Global, input: ComposeInput) -> Result<Shared<Composed>, NoMemory>
    ensures { IfOk result (λ made. made ≡ input) }
{
    let made = cv_compose::compose(alloc, input)?;
    match Shared::of(alloc, made) {
        Ok(shared) => Ok(shared),
        Err(refused) => Err(refused.1),
    }
}

/// Composes the picture of a job without end and finishes the job. Where there is no memory for it, the job
/// fails.
fn compose_live(alloc: Global, desk: &mut Desk, job: u32, input: ComposeInput)
    requires due { IsDueOf desk.old (held.Compose job input) }
    requires live { OfJob (state desk.old) job (λ j. j.ended ≡ None) }
    ensures { Served desk.old desk.new (task_is.Compose job) }
{
    let Ok(image) = composed(alloc, input) else {
        return fail_live(desk, job);
    };
    match desk.finish(0, job, image) {
        Ok(()) => {}
        Err(_) => unreachable!(),
    }
}

/// Composes the picture of a job and finishes the job. It is let go where it has an end.
fn compose_and_finish(alloc: Global, desk: &mut Desk, job: u32, input: ComposeInput)
    requires { IsDueOf desk.old (held.Compose job input) }
    ensures { Served desk.old desk.new (task_is.Compose job) }
{
    match desk.ended(job) {
        Ok(None) => compose_live(alloc, desk, job, input),
        Ok(Some(_)) => {}
        Err(_) => unreachable!(),
    }
}

/// Does a task that is held.
fn serve(alloc: Global, desk: &mut Desk, task: HeldTask) -> Result<(), NoMemory>
    requires { IsDueOf desk.old task }
    ensures ok { OnOk result (Served desk.old desk.new (task_of task)) }
    ensures err { OnErr result (Left desk.old desk.new (job_of_task (task_of task))) }
{
    match task {
        HeldTask::Paint(piece) => paint_and_deliver(alloc, desk, piece),
        HeldTask::Compose(job, input) => {
            compose_and_finish(alloc, desk, job, input);
            Ok(())
        }
    }
}

/// The job of which a task was due that got no memory.
fn failed_job(error: ClaimError) -> u32
    ensures { result ≡ failed_job error }
{
    match error {
        ClaimError::NoMemory(job) => job,
    }
}

/// Puts a task behind those that are held, at a place set aside.
fn hold(held: &mut Vec<HeldTask>, task: HeldTask)
    requires { 1 ≤ vec_capacity held.old - vec_len held.old }
    ensures { held.new.items ≡ held.old.items ++ task ∷ [] }
{
    let _ = held.push(task);
}

/// Claims the task that is due and puts it behind those that are held, unless the cache serves it. Where
/// there is no memory for it, its job fails.
fn take(desk: &mut Desk, held: &mut Vec<HeldTask>) -> Result<Taken, NoMemory>
    ensures ok { IfOk result (TakesInto desk.old desk.new held.old.items held.new.items) }
    ensures err { OnErr result ((desk.new ≡ desk.old) × (held.new.items ≡ held.old.items)) }
{
    held.reserve(1)?;
    match desk.claim(0) {
        Ok(Claim::Hit(_, _)) => Ok(Taken::Hit),
        Ok(Claim::Paint(piece)) => {
            hold(held, HeldTask::Paint(piece));
            Ok(Taken::Held)
        }
        Ok(Claim::Compose(job, input)) => {
            hold(held, HeldTask::Compose(job, input));
            Ok(Taken::Held)
        }
        Ok(Claim::Nothing) => Ok(Taken::Nothing),
        Err(error) => {
            fail_live(desk, failed_job(error));
            Ok(Taken::Failed)
        }
    }
}

impl Session {
    /// What holds of a session, whatever was called before. It does nothing.
    fn known(&self)
        ensures { IsSeat self.now }
    {
        let _ = &self.alloc;
    }

    /// How many tasks are held.
    fn held_count(&self) -> u64
        ensures { result ≡ length self.now.held }
    {
        self.held.len() as u64
    }

    /// Claims the task that is due, and holds it unless the cache serves it. Where there is no memory for it,
    /// its job fails.
    pub(crate) fn take_task(&mut self) -> Result<Taken, NoMemory>
        ensures { IfOk result (Takes self.old self.new) }
    {
        take(&mut self.desk, &mut self.held)
    }

    /// Does the task that was held longest.
    fn give_first(&mut self) -> Result<(), NoMemory>
        requires { 0 < length self.old.held }
        ensures { OnOk result (ServesFirst self.old self.new) }
    {
        let task = self.held.remove(0);
        serve(self.alloc, &mut self.desk, task)
    }

    /// Does all held tasks, oldest first.
    pub(crate) fn give_all(&mut self) -> Result<(), NoMemory>
        ensures gives { OnOk result (Gives self.old self.new) }
        ensures none { OnOk result (self.new.held ≡ []) }
    {
        while self.held_count() > 0 {
            self.give_first()?;
        }
        Ok(())
    }

    /// How a job ended, if it has an end.
    fn end_of(&self, job: u32) -> Option<How>
        requires { IsSome (job_in (now self.now).jobs job) }
        ensures { result ≡ how (now self.now) job }
    {
        match self.desk.ended(job) {
            Ok(end) => end,
            Err(_) => unreachable!(),
        }
    }

    /// Claims a task and does it, while a job without end is waited for.
    fn work_once(&mut self, job: u32) -> Result<(), NoMemory>
        requires none { self.old.held ≡ [] }
        requires live { OfJob (now self.old) job (λ j. j.ended ≡ None) }
        ensures { OnOk result (WaitsOnce self.old self.new job) }
    {
        self.known();
        match self.take_task()? {
            Taken::Hit | Taken::Failed => Ok(()),
            Taken::Held => self.give_first(),
            Taken::Nothing => unreachable!(),
        }
    }

    /// Claims and does tasks until a job has an end.
    fn work(&mut self, job: u32) -> Result<How, NoMemory>
        requires none { self.old.held ≡ [] }
        requires there { IsSome (job_in (now self.old).jobs job) }
        ensures waits { OnOk result (WaitsOn self.old self.new job) }
        ensures end { IfOk result (λ end. how (now self.new) job ≡ Some end) }
    {
        'wait: loop {
            if let Some(end) = self.end_of(job) {
                return Ok(end);
            }
            self.work_once(job)?;
        }
    }

    /// Plays `take`.
    pub(crate) fn play_take(&mut self, line: u32) -> Result<(), NoMemory>
        ensures { OnOk result (Obeys self.old self.new line command.Take []) }
    {
        if self.held_count() >= 64 {
            return self.refuse(line, Reason::HeldFull);
        }
        match self.take_task()? {
            Taken::Hit | Taken::Held | Taken::Failed => Ok(()),
            Taken::Nothing => self.refuse(line, Reason::Nothing),
        }
    }

    /// Plays `give`.
    pub(crate) fn play_give(&mut self, line: u32) -> Result<(), NoMemory>
        ensures { OnOk result (Obeys self.old self.new line command.Give []) }
    {
        if self.held_count() == 0 {
            self.refuse(line, Reason::NothingHeld)
        } else {
            self.give_first()
        }
    }

    /// Waits for the canvas's last job.
    fn wait_job(&mut self, line: u32, canvas: u32, job: u32) -> Result<(), NoMemory>
        requires there { IsSome (slice_get (now self.old).canvases canvas) }
        requires last { last_job (now self.old) canvas ≡ Some job }
        ensures { OnOk result (Obeys self.old self.new line (command.Wait canvas) []) }
    {
        self.give_all()?;
        match self.work(job)? {
            How::Finished | How::Cancelled => Ok(()),
            How::NoMemory => self.refuse(line, Reason::EndedNoMemory),
        }
    }

    /// Plays `wait`.
    pub(crate) fn play_wait(&mut self, line: u32, canvas: u32) -> Result<(), NoMemory>
        ensures { OnOk result (Obeys self.old self.new line (command.Wait canvas) []) }
    {
        match self.last(canvas) {
            Some(Some(job)) => self.wait_job(line, canvas, job),
            Some(None) => self.refuse(line, Reason::NoJob),
            None => self.refuse(line, Reason::UnknownCanvas),
        }
    }
}
