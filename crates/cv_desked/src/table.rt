//! A desk, and the task that caller 0 holds.

ghost use Rattle.std.specs.Prelude.{◌≡◌, ◌≤◌, IfOk, OnErr};
ghost use Rattle.cv_tables.specs.Rows.{HasSlot};
ghost use Rattle.cv_desk.specs.Desks.{Stays};
ghost use Rattle.cv_desked.specs.Owed.{Waits, IsComposed, IsOwed, Went};

use cv_chunks::Shared;
use cv_compose::{ComposeInput, Composed, compose};
use cv_desk::{
    Claim, ClaimError, Desk, EndError, PreviewError, SaveError, SetViewError, StartError,
};
use cv_event::Journal;
use cv_layer::{NoMemory, Piece};
use cv_model::{Edit, EditError, View};
use cv_outside::Never;
use cv_paint::paint;
use std::alloc::{AllocError, Global};
use std::marker::Model;
use std::mem;

/// A task that is held.
#[derive(Drop)]
pub enum Held {
    /// None is.
    Nothing,
    /// A slot to be painted.
    Paint(Piece),
    /// A job's picture to be composed of this.
    Compose(u32, ComposeInput),
}

/// A desk, and the task that caller 0 holds. It keeps that this task is caller 0's own.
#[derive(Drop)]
pub struct Table {
    alloc: Global,
    desk: Desk,
    held: Held,
}

impl Model for Table {
    ghost use Rattle.cv_desked.specs.Owed.{Place, IsOwed};

    ghost Value = { Place };

    ghost view = { λ t. record { history = t.desk; held = t.held } };

    ghost invariant = { λ t. IsOwed 0 t.desk.tables.rows t.held };
}

/// Claims a task for a caller. The second is whether there was one; a hit leaves nothing to be held.
fn claim(desk: &mut Desk, who: u32) -> Result<(Held, bool), ClaimError>
    ensures owed { IfOk result (λ found. IsOwed who desk.new.tables.rows found.0) }
    ensures went { Went desk.old desk.new who }
    ensures err { OnErr result (Stays desk.old desk.new) }
{
    match desk.claim(who) {
        Ok(Claim::Hit(_, _)) => Ok((Held::Nothing, true)),
        Ok(Claim::Paint(piece)) => Ok((Held::Paint(piece), true)),
        Ok(Claim::Compose(job, input)) => Ok((Held::Compose(job, input), true)),
        Ok(Claim::Nothing) => Ok((Held::Nothing, false)),
        Err(error) => Err(error),
    }
}

/// Paints a piece and delivers it.
fn deliver(desk: &mut Desk, alloc: Global, who: u32, piece: Piece) -> Result<(), NoMemory>
    requires { HasSlot desk.old.tables.rows piece.job piece.slot (Waits who piece) }
    ensures { Went desk.old desk.new who }
{
    let painted = match paint(alloc, &piece, &mut Never) {
        Ok(painted) => painted,
        Err(_) => return Err(AllocError),
    };
    let painted = match Shared::of(alloc, painted) {
        Ok(painted) => painted,
        Err(refused) => return Err(refused.1),
    };
    match desk.deliver(who, piece.job, piece.slot, painted) {
        Ok(_) => Ok(()),
        Err(refused) => Err(refused.1),
    }
}

/// Composes a job's picture and publishes it, where the job has no end yet.
fn finish(
    desk: &mut Desk,
    alloc: Global,
    who: u32,
    job: u32,
    input: ComposeInput,
) -> Result<(), NoMemory>
    requires { IsComposed who job input desk.old.tables.rows }
    ensures { Went desk.old desk.new who }
{
    let composed = compose(alloc, input)?;
    let composed = match Shared::of(alloc, composed) {
        Ok(composed) => composed,
        Err(refused) => return Err(refused.1),
    };
    match desk.finish(who, job, composed) {
        Ok(()) => Ok(()),
        Err(_) => Ok(()),
    }
}

/// Does what a caller holds.
fn perform(desk: &mut Desk, alloc: Global, who: u32, task: Held) -> Result<(), NoMemory>
    requires { IsOwed who desk.old.tables.rows task }
    ensures { Went desk.old desk.new who }
{
    match task {
        Held::Nothing => Ok(()),
        Held::Paint(piece) => deliver(desk, alloc, who, piece),
        Held::Compose(job, input) => finish(desk, alloc, who, job, input),
    }
}

impl Table {
    /// A desk of which nothing is held.
    pub fn of(alloc: Global, desk: Desk) -> Table {
        Table {
            alloc,
            desk,
            held: Held::Nothing,
        }
    }

    /// The desk.
    pub fn desk(&self) -> &Desk {
        &self.desk
    }

    /// The desk's journal alone.
    pub fn into_journal(self) -> Journal {
        let Table { desk, .. } = self;
        desk.into_journal()
    }

    /// The task that caller 0 holds.
    pub fn held(&self) -> &Held {
        &self.held
    }

    /// Gives a canvas a view.
    pub fn set_view(&mut self, who: u32, canvas: u32, view: View) -> Result<(), SetViewError> {
        self.desk.set_view(who, canvas, view)
    }

    /// Edits the project.
    pub fn edit(&mut self, who: u32, edit: Shared<Edit>) -> Result<(), EditError> {
        self.desk.edit(who, edit)
    }

    /// Starts a job.
    pub fn start(&mut self, who: u32, canvas: u32) -> Result<u32, StartError> {
        self.desk.start(who, canvas)
    }

    /// Cancels a job.
    pub fn cancel(&mut self, who: u32, job: u32) -> Result<(), EndError> {
        self.desk.cancel(who, job)
    }

    /// Ends a job that got no memory.
    pub fn fail(&mut self, who: u32, job: u32) -> Result<(), EndError> {
        self.desk.fail(who, job)
    }

    /// What a job's ready slots are composed of.
    pub fn preview(&mut self, who: u32, job: u32) -> Result<ComposeInput, PreviewError> {
        self.desk.preview(who, job)
    }

    /// The last picture of a canvas.
    pub fn published(&mut self, who: u32, canvas: u32) -> Result<Shared<Composed>, SaveError> {
        self.desk.published(who, canvas)
    }

    /// Whether caller 0 holds a task.
    pub fn holds(&self) -> bool {
        match self.held {
            Held::Nothing => false,
            Held::Paint(_) => true,
            Held::Compose(_, _) => true,
        }
    }

    /// Lets caller 0 claim a task, in the place of what it holds. Answers whether there was one.
    pub fn take(&mut self) -> Result<bool, ClaimError> {
        let found = claim(&mut self.desk, 0)?;
        self.held = found.0;
        Ok(found.1)
    }

    /// Lets caller 0 do the task that it holds.
    pub fn give(&mut self) -> Result<(), NoMemory> {
        let task = mem::replace(&mut self.held, Held::Nothing);
        perform(&mut self.desk, self.alloc, 0, task)
    }

    /// Lets another caller claim a task and do it at once. Answers whether there was one.
    pub fn work(&mut self, who: u32) -> Result<bool, ClaimError>
        requires { 1 ≤ who }
    {
        let found = claim(&mut self.desk, who)?;
        match perform(&mut self.desk, self.alloc, who, found.0) {
            Ok(()) => Ok(found.1),
            Err(_) => Ok(false),
        }
    }
}
