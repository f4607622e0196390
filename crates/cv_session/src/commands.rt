//! The commands of a script, each played on a session.

ghost use Rattle.std.specs.Prelude.{◌≡◌, [], Some, slice_get, OnOk, IsSome};
ghost use Rattle.cv_script.specs.declared.script.Command.TheVariants as command;
ghost use Rattle.cv_session.specs.Responses.{last_job, ended_reason};
ghost use Rattle.cv_session.specs.Seats.{now, Obeys};

use crate::seat::Session;
use cv_chunks::Shared;
use cv_desk::{EndError, StartError};
use cv_event::{How, Reason};
use cv_model::{Edit, EditError, NoMemory};

/// Why a command is refused that speaks of a job with this end.
pub(crate) fn ended_reason(how: How) -> Reason
    ensures { result ≡ ended_reason how }
{
    match how {
        How::Finished => Reason::EndedFinished,
        How::Cancelled => Reason::EndedCancelled,
        How::NoMemory => Reason::EndedNoMemory,
    }
}

impl Session {
    /// Plays an edit.
    pub(crate) fn play_edit(&mut self, line: u32, edit: Shared<Edit>) -> Result<(), NoMemory>
        ensures { OnOk result (Obeys self.old self.new line (command.Edit edit) []) }
    {
        match self.edit(edit) {
            Ok(()) => Ok(()),
            Err(EditError::UnknownLayer) => self.refuse(line, Reason::UnknownLayer),
            Err(EditError::UnknownFeature) => self.refuse(line, Reason::UnknownFeature),
            Err(EditError::WrongKind) => self.refuse(line, Reason::WrongKind),
            Err(EditError::DuplicateId) => self.refuse(line, Reason::DuplicateId),
            Err(EditError::Limit) => self.refuse(line, Reason::Limit),
            Err(EditError::BadPlace) => self.refuse(line, Reason::BadPlace),
            Err(EditError::NoMemory) => Err(std::alloc::AllocError),
        }
    }

    /// Plays `start`.
    pub(crate) fn play_start(&mut self, line: u32, canvas: u32) -> Result<(), NoMemory>
        ensures { OnOk result (Obeys self.old self.new line (command.Start canvas) []) }
    {
        match self.start(canvas) {
            Ok(_) => Ok(()),
            Err(StartError::UnknownCanvas) => self.refuse(line, Reason::UnknownCanvas),
            Err(StartError::NoView) => self.refuse(line, Reason::NoView),
            Err(StartError::TooManyJobs) => self.refuse(line, Reason::TooManyJobs),
            Err(StartError::NoMemory) => Err(std::alloc::AllocError),
        }
    }

    /// Cancels the canvas's last job.
    fn cancel_job(&mut self, line: u32, canvas: u32, job: u32) -> Result<(), NoMemory>
        requires there { IsSome (slice_get (now self.old).canvases canvas) }
        requires last { last_job (now self.old) canvas ≡ Some job }
        ensures { OnOk result (Obeys self.old self.new line (command.Cancel canvas) []) }
    {
        match self.cancel(job) {
            Ok(()) => Ok(()),
            Err(EndError::Ended(how)) => self.refuse(line, ended_reason(how)),
            Err(EndError::UnknownJob) => unreachable!(),
        }
    }

    /// Plays `cancel`.
    pub(crate) fn play_cancel(&mut self, line: u32, canvas: u32) -> Result<(), NoMemory>
        ensures { OnOk result (Obeys self.old self.new line (command.Cancel canvas) []) }
    {
        match self.last(canvas) {
            Some(Some(job)) => self.cancel_job(line, canvas, job),
            Some(None) => self.refuse(line, Reason::NoJob),
            None => self.refuse(line, Reason::UnknownCanvas),
        }
    }
}
