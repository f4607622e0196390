//! The commands that write pictures: a preview of a job, and the picture of the last that was finished.

ghost use Rattle.std.specs.Prelude.{◌≡◌, ◌≤◌, Some, slice_get, OnErr, IfOk, IsSome, IsTrue};
ghost use Rattle.cv_model.specs.Paintings.{composed};
ghost use Rattle.cv_model.specs.Rasters.{ppm_of};
ghost use Rattle.cv_event.specs.TextLaws.{FitsOpening};
ghost use Rattle.cv_outside.specs.Seen.{tray_seen, TrayStands};
ghost use Rattle.cv_script.specs.declared.script.Command.TheVariants as command;
ghost use Rattle.cv_session.specs.Responses.{last_job};
ghost use Rattle.cv_session.specs.Files.{SparesOne};
ghost use Rattle.cv_session.specs.Outputs.{IsPut, CommandEnds, PreviewEnters, SaveEnters, RefusedWrite};
ghost use Rattle.cv_session.specs.Seats.{now, Stands};

use crate::commands::ended_reason;
use crate::seat::Session;
use cv_chunks::Shared;
use cv_compose::{ComposeInput, Composed, compose};
use cv_desk::{PreviewError, SaveError};
use cv_event::Reason;
use cv_model::{NoMemory, Text};
use cv_outside::{Tray, TrayEnd};
use std::alloc::Global;

/// Why a session stops before its script is through.
#[derive(Clone, Copy, Debug)]
pub(crate) enum Stop {
    /// The tray failed.
    Tray,
    /// Memory ran out.
    NoMemory,
}

/// Puts a picture's bytes into the tray. Answers how many files were put.
fn put<T: Tray>(tray: &mut T, file: &Text, bytes: &[u8]) -> Result<u32, Stop>
    ensures stands { TrayStands (tray_seen T.Tray tray.old) (tray_seen T.Tray tray.new) }
    ensures few { IfOk result (λ n. n ≤ 1) }
    ensures put { IsPut (record { name = file.now; bytes = bytes.now }) result
        (tray_seen T.Tray tray.old) (tray_seen T.Tray tray.new) }
{
    match tray.write(file.as_str(), bytes) {
        TrayEnd::Kept => Ok(1),
        TrayEnd::Failed => Err(Stop::Tray),
        TrayEnd::NoMemory => Err(Stop::NoMemory),
    }
}

/// The bytes of the picture that is composed of this.
fn composed_bytes(alloc: Global, input: ComposeInput) -> Result<Vec<u8>, NoMemory>
    ensures { IfOk result (λ bytes. bytes.items ≡ ppm_of (composed input)) }
{
    let made = compose(alloc, input)?;
    cv_image::ppm(alloc, made.picture())
}

impl Session {
    /// What the picture of a job's ready slots is composed of. Enters the preview.
    fn preview(&mut self, job: u32) -> Result<ComposeInput, PreviewError>
        requires { FitsOpening self.old.history.opening }
        ensures enters { PreviewEnters self.old self.new job result }
        ensures err { OnErr result (Stands self.old self.new) }
    {
        self.desk.known();
        self.desk.preview(0, job)
    }

    /// The picture that a canvas has published. Enters that it was taken.
    fn published(&mut self, canvas: u32) -> Result<Shared<Composed>, SaveError>
        ensures enters { SaveEnters self.old self.new canvas result }
        ensures err { OnErr result (Stands self.old self.new) }
    {
        self.desk.known();
        self.desk.published(0, canvas)
    }

    /// Refuses a command that may write a file.
    fn refuse_write(&mut self, line: u32, reason: Reason) -> Result<u32, Stop>
        ensures few { IfOk result (λ n. n ≤ 1) }
        ensures refused { RefusedWrite self.old self.new line reason result }
    {
        match self.refuse(line, reason) {
            Ok(()) => Ok(0),
            Err(_) => Err(Stop::NoMemory),
        }
    }

    /// Writes the preview of the canvas's last job.
    fn preview_job<T: Tray>(
        &mut self,
        line: u32,
        canvas: u32,
        job: u32,
        file: &Text,
        tray: &mut T,
    ) -> Result<u32, Stop>
        requires fits { FitsOpening self.old.history.opening }
        requires there { IsSome (slice_get (now self.old).canvases canvas) }
        requires last { last_job (now self.old) canvas ≡ Some job }
        ensures stands { TrayStands (tray_seen T.Tray tray.old) (tray_seen T.Tray tray.new) }
        ensures few { IfOk result (λ n. n ≤ 1) }
        ensures ends { CommandEnds self.old self.new line (command.Preview canvas file.now) result
            (tray_seen T.Tray tray.old) (tray_seen T.Tray tray.new) }
        ensures spares { IsTrue (tray_seen T.Tray tray.old).tells
            → SparesOne (command.Preview canvas file.now)
            (tray_seen T.Tray tray.old).files (tray_seen T.Tray tray.new).files }
    {
        let input = match self.preview(job) {
            Ok(input) => input,
            Err(PreviewError::Ended(how)) => return self.refuse_write(line, ended_reason(how)),
            Err(PreviewError::UnknownJob) => unreachable!(),
            Err(PreviewError::NoMemory) => return Err(Stop::NoMemory),
        };
        let bytes = match composed_bytes(self.alloc, input) {
            Ok(bytes) => bytes,
            Err(_) => return Err(Stop::NoMemory),
        };
        put(tray, file, bytes.as_slice())
    }

    /// Plays `preview`. Answers how many files it wrote.
    pub(crate) fn play_preview<T: Tray>(
        &mut self,
        line: u32,
        canvas: u32,
        file: &Text,
        tray: &mut T,
    ) -> Result<u32, Stop>
        requires { FitsOpening self.old.history.opening }
        ensures stands { TrayStands (tray_seen T.Tray tray.old) (tray_seen T.Tray tray.new) }
        ensures few { IfOk result (λ n. n ≤ 1) }
        ensures ends { CommandEnds self.old self.new line (command.Preview canvas file.now) result
            (tray_seen T.Tray tray.old) (tray_seen T.Tray tray.new) }
        ensures spares { IsTrue (tray_seen T.Tray tray.old).tells
            → SparesOne (command.Preview canvas file.now)
            (tray_seen T.Tray tray.old).files (tray_seen T.Tray tray.new).files }
    {
        match self.last(canvas) {
            Some(Some(job)) => self.preview_job(line, canvas, job, file, tray),
            Some(None) => self.refuse_write(line, Reason::NoJob),
            None => self.refuse_write(line, Reason::UnknownCanvas),
        }
    }

    /// Plays `save`. Answers how many files it wrote.
    pub(crate) fn play_save<T: Tray>(
        &mut self,
        line: u32,
        canvas: u32,
        file: &Text,
        tray: &mut T,
    ) -> Result<u32, Stop>
        ensures stands { TrayStands (tray_seen T.Tray tray.old) (tray_seen T.Tray tray.new) }
        ensures few { IfOk result (λ n. n ≤ 1) }
        ensures ends { CommandEnds self.old self.new line (command.Save canvas file.now) result
            (tray_seen T.Tray tray.old) (tray_seen T.Tray tray.new) }
        ensures spares { IsTrue (tray_seen T.Tray tray.old).tells → SparesOne (command.Save canvas file.now)
            (tray_seen T.Tray tray.old).files (tray_seen T.Tray tray.new).files }
    {
        let image = match self.published(canvas) {
            Ok(image) => image,
            Err(SaveError::UnknownCanvas) => return self.refuse_write(line, Reason::UnknownCanvas),
            Err(SaveError::Nothing) => return self.refuse_write(line, Reason::Nothing),
            Err(SaveError::NoMemory) => return Err(Stop::NoMemory),
        };
        let bytes = match cv_image::ppm(self.alloc, image.value().picture()) {
            Ok(bytes) => bytes,
            Err(_) => return Err(Stop::NoMemory),
        };
        put(tray, file, bytes.as_slice())
    }
}
