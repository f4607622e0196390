//! What a session keeps beside its desk, and the calls of the desk by caller 0.

ghost use Rattle.std.specs.Prelude.{◌≡◌, ◌<◌, length, slice_get, set, Some, option_map};
ghost use Rattle.std.specs.Prelude.{IfOk, IfSome, OnOk, OnErr};
ghost use Rattle.cv_model.specs.Views.{PixelGrid};
ghost use Rattle.cv_event.specs.declared.entry.Act.TheVariants as act;
ghost use Rattle.cv_event.specs.States.{view_on};
ghost use Rattle.cv_desk.specs.Answers.{StartAnswer, ViewAnswer, EndAnswer, EditAnswer};
ghost use Rattle.cv_session.specs.Responses.{Response, last_job, at_view};
ghost use Rattle.cv_session.specs.Seats.{Seat, now, canvas_spec, IsOfSize, Enters, Stands, EditEnters};
ghost use Rattle.cv_session.specs.Seats.{Refuses, asked_of};

use cv_chunks::Shared;
use cv_compose::ComposeInput;
use cv_desk::{Desk, EndError, SetViewError, StartError};
use cv_event::{Reason, Refused, RefusedList};
use cv_layer::Piece;
use cv_model::{CanvasSpec, Edit, EditError, NoMemory, View};
use std::alloc::Global;
use std::marker::Model;

/// A task that caller 0 holds.
#[derive(Drop)]
pub enum HeldTask {
    /// A piece that is to be painted and delivered.
    Paint(Piece),
    /// A job's picture that is to be composed and published.
    Compose(u32, ComposeInput),
}

/// A desk with what caller 0 holds, oldest first, each canvas's size and last job, and the commands refused
/// so far.
#[derive(Drop)]
pub(crate) struct Session {
    pub(crate) alloc: Global,
    pub(crate) desk: Desk,
    pub(crate) held: Vec<HeldTask>,
    pub(crate) specs: Vec<CanvasSpec>,
    pub(crate) lasts: Vec<Option<u32>>,
    pub(crate) refused: RefusedList,
}

impl Model for Session {
    ghost use Rattle.cv_session.specs.Seats.{Seat, IsSeat};

    ghost Value = { Seat };

    ghost view = { λ s. record {
      history = s.desk;
      held = s.held.items;
      specs = s.specs.items;
      lasts = s.lasts.items;
      refused = s.refused;
    } };

    ghost invariant = { λ s. IsSeat (record {
      history = s.desk;
      held = s.held.items;
      specs = s.specs.items;
      lasts = s.lasts.items;
      refused = s.refused;
    }) };
}

impl Session {
    /// Puts a refused command behind the others.
    pub(crate) fn refuse(&mut self, line: u32, reason: Reason) -> Result<(), NoMemory>
        ensures { OnOk result (Refuses self.old self.new line reason) }
    {
        let seen = self.desk.journal().len();
        self.refused.put(Refused { line, seen, reason })
    }

    /// A canvas's last job, if the canvas is there, and if one was started on it.
    pub(crate) fn last(&self, canvas: u32) -> Option<Option<u32>>
        ensures { result ≡ option_map (λ k. last_job (now self.now) canvas)
            (slice_get (now self.now).canvases canvas) }
    {
        self.lasts.get(canvas as usize).copied()
    }

    /// How a canvas was made, if it is there.
    pub(crate) fn spec(&self, canvas: u32) -> Option<CanvasSpec>
        ensures { result ≡ option_map canvas_spec (slice_get (now self.now).canvases canvas) }
    {
        self.specs.get(canvas as usize).copied()
    }

    /// A canvas's present view, which is of its size.
    pub(crate) fn view(&self, canvas: u32) -> Option<View>
        ensures seen { result ≡ view_on (now self.now) canvas }
        ensures sized { IfSome result (IsOfSize (now self.now) canvas) }
    {
        self.desk.view(canvas)
    }

    /// A canvas's present view, or why a command that speaks of it is refused.
    pub(crate) fn placed(&self, canvas: u32) -> Result<View, Reason>
        ensures answer { (ask : PixelGrid → Response)
            → at_view (now self.now) canvas ask ≡ asked_of result ask }
        ensures sized { IfOk result (IsOfSize (now self.now) canvas) }
    {
        if self.spec(canvas).is_none() {
            return Err(Reason::UnknownCanvas);
        }
        self.view(canvas).ok_or(Reason::NoView)
    }

    /// Cancels a job.
    pub(crate) fn cancel(&mut self, job: u32) -> Result<(), EndError>
        ensures answer { EndAnswer (now self.old) job result }
        ensures ok { OnOk result (Enters self.old self.new (act.Cancel job)) }
        ensures err { OnErr result (self.new ≡ self.old) }
    {
        self.desk.cancel(0, job)
    }

    /// Fails a job.
    pub(crate) fn fail(&mut self, job: u32) -> Result<(), EndError>
        ensures answer { EndAnswer (now self.old) job result }
        ensures ok { OnOk result (Enters self.old self.new (act.Fail job)) }
        ensures err { OnErr result (self.new ≡ self.old) }
    {
        self.desk.fail(0, job)
    }

    /// Gives a canvas a view.
    pub(crate) fn set_view(&mut self, canvas: u32, view: View) -> Result<(), SetViewError>
        ensures answer { ViewAnswer (now self.old) canvas view result }
        ensures ok { OnOk result (Enters self.old self.new (act.View canvas view)) }
        ensures err { OnErr result (Stands self.old self.new) }
    {
        self.desk.set_view(0, canvas, view)
    }

    /// Edits the project.
    pub(crate) fn edit(&mut self, edit: Shared<Edit>) -> Result<(), EditError>
        ensures answer { EditAnswer (now self.old) edit result }
        ensures entry { EditEnters self.old self.new edit result }
    {
        self.desk.edit(0, edit)
    }

    /// Starts a job, which is then its canvas's last one.
    pub(crate) fn start(&mut self, canvas: u32) -> Result<u32, StartError>
        ensures answer { StartAnswer (now self.old) canvas result }
        ensures ok { IfOk result (λ job. Enters self.old self.new (act.Start canvas job)) }
        ensures err { OnErr result (Stands self.old self.new) }
    {
        match self.desk.start(0, canvas) {
            Ok(job) => {
                put_last(&mut self.lasts, canvas, job);
                Ok(job)
            }
            Err(error) => Err(error),
        }
    }
}

/// Makes a job a canvas's last one.
fn put_last(lasts: &mut Vec<Option<u32>>, canvas: u32, job: u32)
    requires { canvas < length lasts.old.items }
    ensures { lasts.new.items ≡ set lasts.old.items canvas (Some job) }
{
    lasts[canvas as usize] = Some(job);
}
