//! A whole script, played on one thread.

ghost use Rattle.std.specs.Prelude.{◌≡◌, ◌≤◌, None, [], length, replicate, IfOk, IfErr, IfSome, OnOk, IsTrue};
ghost use Rattle.cv_event.specs.Legality.{IsLegal};
ghost use Rattle.cv_event.specs.TextLaws.{FitsOpening};
ghost use Rattle.cv_outside.specs.Seen.{tray_seen, TrayStands};
ghost use Rattle.cv_script.specs.Scripts.{HasFactors};
ghost use Rattle.cv_session.specs.Playable.{IsPlayable};
ghost use Rattle.cv_script.specs.declared.script.Command.TheVariants as command;
ghost use Rattle.cv_store.specs.Stores.{project_of};
ghost use Rattle.cv_session.specs.Files.{Spares, SparesOne};
ghost use Rattle.cv_session.specs.Outputs.{CommandEnds};
ghost use Rattle.cv_session.specs.Reports.{AreFirst, RunEnds};
ghost use Rattle.cv_session.specs.Runs.{IsOpened, ShowsFirst, SizesStay, AreOfSize, ShowsAll, AllEnd, Ends};
ghost use Rattle.cv_session.specs.Runs.{told_by};
ghost use Rattle.cv_session.specs.Plays.{file_of};
ghost use Rattle.cv_session.specs.Seats.{now, IsOfSize, Obeys};

use crate::outputs::Stop;
use crate::report::{Report, SessionError};
use crate::seat::Session;
use cv_chunks::Shared;
use cv_desk::Desk;
use cv_event::RefusedList;
use cv_model::{CanvasSpec, Edit, NoMemory, View};
use cv_outside::Tray;
use cv_script::{Command, Numbered, Script};
use cv_store::Store;
use std::alloc::{AllocError, Global};

/// Why a script is played no further.
#[derive(Clone, Copy, Debug)]
enum Halt {
    /// The tray failed to write the picture of this number, counted from 1.
    Tray(u32),
    /// Memory ran out.
    NoMemory,
}

/// What a command that writes no file tells: no file was written, or memory ran out.
fn told(answer: Result<(), NoMemory>) -> Result<u32, Stop>
    ensures { result ≡ told_by answer }
{
    match answer {
        Ok(()) => Ok(0),
        Err(_) => Err(Stop::NoMemory),
    }
}

/// By how many pixels a view is moved.
fn step(pixels: &i32) -> i32
    ensures { result ≡ pixels.now }
{
    *pixels
}

/// How canvases are made, for a session to keep.
fn sizes(alloc: Global, specs: &[CanvasSpec]) -> Result<Vec<CanvasSpec>, NoMemory>
    ensures { IfOk result (λ v. v.items ≡ specs.now) }
{
    Vec::from_clones(alloc, specs)
}

/// No job was started on any of so many canvases.
fn none_yet(alloc: Global, canvases: usize) -> Result<Vec<Option<u32>>, NoMemory>
    ensures { IfOk result (λ v. v.items ≡ replicate canvases None) }
{
    vec![in alloc; None; canvases]
}

impl Session {
    /// A session of a store, with canvases of these sizes and capacities, in which nothing happened yet.
    fn open(alloc: Global, store: Store, specs: &[CanvasSpec]) -> Result<Session, NoMemory>
        requires { store.version ≡ 1 }
        ensures { IfOk result (IsOpened (record { project = project_of store; canvases = specs.now })) }
    {
        let sizes = sizes(alloc, specs)?;
        let lasts = none_yet(alloc, specs.len())?;
        match Desk::open(alloc, store, specs) {
            Ok(desk) => Ok(Session {
                alloc,
                desk,
                held: Vec::new(alloc),
                specs: sizes,
                lasts,
                refused: RefusedList::new(alloc),
            }),
            Err(_) => Err(AllocError),
        }
    }

    /// Gives a canvas its first view, if it has one.
    fn show_first(&mut self, canvas: u32, view: Option<View>) -> Result<(), NoMemory>
        requires { IfSome view (IsOfSize (now self.old) canvas) }
        ensures shows { OnOk result (ShowsFirst self.old self.new canvas view) }
        ensures sizes { OnOk result (SizesStay (now self.old) (now self.new)) }
    {
        match view {
            Some(view) => self.show_view(canvas, view),
            None => Ok(()),
        }
    }

    /// Gives the canvases their first views, in order.
    fn first_views(&mut self, views: &[Option<View>]) -> Result<(), NoMemory>
        requires few { length views.now ≤ 4294967295 }
        requires sizes { AreOfSize (now self.old) views.now }
        ensures { OnOk result (ShowsAll self.old self.new views.now) }
    {
        let mut canvas = 0;
        for view in views {
            self.show_first(canvas, *view)?;
            canvas += 1;
        }
        Ok(())
    }

    /// Plays an edit that a script shares.
    fn play_shared(&mut self, line: u32, edit: &Shared<Edit>) -> Result<(), NoMemory>
        ensures { OnOk result (Obeys self.old self.new line (command.Edit edit.now) []) }
    {
        let edit = edit.clone()?;
        self.play_edit(line, edit)
    }

    /// Plays a command that writes no file.
    fn play_silent(&mut self, line: u32, command: &Command) -> Result<(), NoMemory>
        requires factors { HasFactors command.now }
        requires silent { file_of command.now ≡ None }
        ensures { OnOk result (Obeys self.old self.new line command.now []) }
    {
        match command {
            Command::View { canvas, extent } => self.play_view(line, *canvas, *extent),
            Command::Pan { canvas, dx, dy } => {
                let dx = step(dx);
                let dy = step(dy);
                self.play_pan(line, *canvas, dx, dy)
            }
            Command::Zoom { canvas, num, den } => self.play_zoom(line, *canvas, *num, *den),
            Command::Start { canvas } => self.play_start(line, *canvas),
            Command::Cancel { canvas } => self.play_cancel(line, *canvas),
            Command::Wait { canvas } => self.play_wait(line, *canvas),
            Command::Take => self.play_take(line),
            Command::Give => self.play_give(line),
            Command::Edit(edit) => self.play_shared(line, edit),
            Command::Preview { canvas: _, file: _ } => unreachable!(),
            Command::Save { canvas: _, file: _ } => unreachable!(),
        }
    }

    /// Plays a command. Answers how many files it wrote.
    fn play<T: Tray>(&mut self, next: &Numbered, tray: &mut T) -> Result<u32, Stop>
        requires fits { FitsOpening self.old.history.opening }
        requires factors { HasFactors next.now.command }
        ensures stands { TrayStands (tray_seen T.Tray tray.old) (tray_seen T.Tray tray.new) }
        ensures few { IfOk result (λ n. n ≤ 1) }
        ensures ends { CommandEnds self.old self.new next.now.line next.now.command result
            (tray_seen T.Tray tray.old) (tray_seen T.Tray tray.new) }
        ensures spares { IsTrue (tray_seen T.Tray tray.old).tells → SparesOne next.now.command
            (tray_seen T.Tray tray.old).files (tray_seen T.Tray tray.new).files }
    {
        match &next.command {
            Command::Preview { canvas, file } => self.play_preview(next.line, *canvas, file, tray),
            Command::Save { canvas, file } => self.play_save(next.line, *canvas, file, tray),
            command => told(self.play_silent(next.line, command)),
        }
    }

    /// Plays commands in order. Answers how many files they wrote.
    fn play_all<T: Tray>(&mut self, script: &[Numbered], tray: &mut T) -> Result<u32, Halt>
        requires fits { FitsOpening self.old.history.opening }
        requires script { IsPlayable script.now }
        ensures stands { TrayStands (tray_seen T.Tray tray.old) (tray_seen T.Tray tray.new) }
        ensures ends { AllEnd script.now self.old self.new result
            (tray_seen T.Tray tray.old) (tray_seen T.Tray tray.new) }
        ensures spares { IsTrue (tray_seen T.Tray tray.old).tells → Spares script.now
            (tray_seen T.Tray tray.old).files (tray_seen T.Tray tray.new).files }
    {
        let mut images = 0;
        for next in script {
            match self.play(next, tray) {
                Ok(count) => images += count,
                Err(Stop::Tray) => return Err(Halt::Tray(images + 1)),
                Err(Stop::NoMemory) => return Err(Halt::NoMemory),
            }
        }
        Ok(images)
    }

    /// Does all held tasks behind the last command.
    fn end(&mut self) -> Result<(), NoMemory>
        ensures { OnOk result (Ends self.old self.new) }
    {
        self.give_all()
    }

    /// The report of a session that wrote so many pictures.
    fn into_report(self, images: u32) -> Report
        ensures entries { result.journal.entries ≡ self.history.journal }
        ensures refused { result.refused ≡ self.refused }
        ensures images { result.images ≡ images }
        ensures legal { IsLegal self.history.opening self.history.journal }
    {
        self.desk.known();
        let Session { desk, refused, .. } = self;
        Report {
            journal: desk.into_journal(),
            refused,
            images,
        }
    }
}

/// Plays a script on the caller's thread: gives the canvases their first views, plays the commands in order,
/// and does the tasks that are held behind the last one. It waits for nobody.
///
/// The report has the journal, the refused commands, and how many pictures were written. Where the tray fails
/// to write a picture, the error has its number, counted from 1, and the report of what was done until then.
pub fn run_alone<T: Tray>(
    alloc: Global,
    store: Store,
    specs: &[CanvasSpec],
    views: &[Option<View>],
    script: &Script,
    tray: &mut T,
) -> Result<Report, SessionError>
    requires first { store.version ≡ 1 }
    requires fits { FitsOpening (record { project = project_of store; canvases = specs.now }) }
    requires views { AreFirst specs.now views.now }
    requires script { IsPlayable script.now }
    ensures stands { TrayStands (tray_seen T.Tray tray.old) (tray_seen T.Tray tray.new) }
    ensures ends { RunEnds (record { project = project_of store; canvases = specs.now }) views.now script.now
        result (tray_seen T.Tray tray.old) (tray_seen T.Tray tray.new) }
    ensures spares { IsTrue (tray_seen T.Tray tray.old).tells → Spares script.now
        (tray_seen T.Tray tray.old).files (tray_seen T.Tray tray.new).files }
{
    let mut session = match Session::open(alloc, store, specs) {
        Ok(session) => session,
        Err(_) => return Err(SessionError::NoMemory),
    };
    match session.first_views(views) {
        Ok(()) => {}
        Err(_) => return Err(SessionError::NoMemory),
    }
    match session.play_all(script.commands(), tray) {
        Ok(images) => match session.end() {
            Ok(()) => Ok(session.into_report(images)),
            Err(_) => Err(SessionError::NoMemory),
        },
        Err(Halt::Tray(image)) => Err(SessionError::Tray(image, session.into_report(image - 1))),
        Err(Halt::NoMemory) => Err(SessionError::NoMemory),
    }
}
