//! The command `session`: a script is played on a project, and the journal printed.

ghost use Rattle.std.specs.Prelude.{◌≡◌, IsTrue, if◌then◌else◌};
ghost use Rattle.std.specs.List.{list_all};
ghost use Rattle.cv_event.specs.declared.entry.Entry.{Entry};
ghost use Rattle.cv_model.specs.Openings.{CanOpen};
ghost use Rattle.cv_open.specs.Opened.{opening_in, views_in};
ghost use Rattle.cv_outside.specs.Seen.{TraySeen, tray_seen, sink_seen, TrayStands};
ghost use Rattle.cv_script.specs.Scripts.{IsScript};
ghost use Rattle.cv_session.specs.Files.{Spares};
ghost use Rattle.cv_session.specs.Laws.{is_no_fail};
ghost use Rattle.cv_session.specs.Reports.{RunEnds};
ghost use Rattle.cv_top.specs.Outcomes.{error_end, journal_made};
ghost use Rattle.cv_top.specs.Runs.{Untouched, IsWritten, IsPlayRun, Obeys, lacking};
ghost use Rattle.cv_top.specs.Words.{IsPlainOrder};

use crate::canvases::{first_views, specs_of};
use crate::orders::{Order, SessionOrder};
use crate::outputs::write_text;
use crate::paint::store_of;
use crate::stage::{Staged, stage};
use cv_event::{Act, Entry, text};
use cv_open::{End, Which};
use cv_outside::{Shelf, Sink, Tray};
use cv_session::{Report, SessionError, run_alone};
use cv_words::session_words;
use std::alloc::Global;

/// Whether no job failed for want of memory.
fn has_memory(journal: &[Entry]) -> bool
    ensures { result ≡ list_all (λ (entry : Entry). is_no_fail entry.act) journal.now }
{
    journal.iter().all(|entry| is_no_fail(&entry.act))
}

/// Whether an act is no fail.
fn is_no_fail(act: &Act) -> bool
    ensures { result ≡ is_no_fail act.now }
{
    !matches!(act, Act::Fail(_))
}

/// The end of a session whose text was written with this end: want of memory where a task got none.
fn end_of_text(end: End, memory: bool) -> End
    ensures { result ≡ (if memory then end else lacking end) }
{
    match end {
        End::Done if !memory => End::NoMemory,
        _ => end,
    }
}

/// Prints the journal of a session that is through.
fn print_journal<O: Sink>(alloc: Global, report: &Report, out: &mut O) -> End
    ensures untouched { Untouched result ⊥ ⊥ (out.new ≡ out.old) }
    ensures written { (tray : TraySeen) → IsWritten result (journal_made report.now) tray tray
        (sink_seen O.Sink out.old) (sink_seen O.Sink out.new) }
{
    let memory = has_memory(report.journal.as_slice());
    match text(alloc, &report.journal, &report.refused, report.images) {
        Ok(text) => end_of_text(write_text(text.as_slice(), out), memory),
        Err(_) => End::NoMemory,
    }
}

/// Plays the script on the project.
fn play<T: Tray>(alloc: Global, staged: Staged, tray: &mut T) -> Result<Report, SessionError>
    requires can { CanOpen staged.opened.file staged.opened.contents }
    requires script { IsScript staged.script }
    ensures stands { TrayStands (tray_seen T.Tray tray.old) (tray_seen T.Tray tray.new) }
    ensures ends { RunEnds (opening_in staged.opened) (views_in staged.opened) staged.script result
        (tray_seen T.Tray tray.old) (tray_seen T.Tray tray.new) }
    ensures spares { IsTrue (tray_seen T.Tray tray.old).tells → Spares staged.script
        (tray_seen T.Tray tray.old).files (tray_seen T.Tray tray.new).files }
{
    let Staged { opened, script } = staged;
    let Ok(specs) = specs_of(alloc, opened.file.canvases()) else {
        return Err(SessionError::NoMemory);
    };
    let Ok(views) = first_views(alloc, opened.file.canvases()) else {
        return Err(SessionError::NoMemory);
    };
    let Ok(store) = store_of(alloc, opened) else {
        return Err(SessionError::NoMemory);
    };
    run_alone(
        alloc,
        store,
        specs.as_slice(),
        views.as_slice(),
        &script,
        tray,
    )
}

/// The end of a session that stopped.
fn end_of_error(error: &SessionError) -> End
    ensures { result ≡ error_end error.now }
{
    match error {
        SessionError::Tray(image, _) => End::WriteFault(Which::Output(*image)),
        SessionError::NoMemory => End::NoMemory,
    }
}

/// Plays the script on the project, and prints the journal.
fn play_staged<T: Tray, O: Sink>(alloc: Global, staged: Staged, tray: &mut T, out: &mut O) -> End
    requires can { CanOpen staged.opened.file staged.opened.contents }
    requires script { IsScript staged.script }
    ensures untouched { Untouched result ⊥ ⊥ (out.new ≡ out.old) }
    ensures played { IsPlayRun staged result (tray_seen T.Tray tray.old) (tray_seen T.Tray tray.new)
        (sink_seen O.Sink out.old) (sink_seen O.Sink out.new) }
{
    match play(alloc, staged, tray) {
        Ok(report) => print_journal(alloc, &report, out),
        Err(error) => end_of_error(&error),
    }
}

/// Reads the project and the script, and plays the script.
fn play_session<F: Shelf, T: Tray, O: Sink>(
    alloc: Global,
    order: &SessionOrder<'_>,
    shelf: &mut F,
    tray: &mut T,
    out: &mut O,
) -> End
    ensures { Obeys F.Shelf T.Tray O.Sink (Order.Session order.now) result
        shelf.old shelf.new tray.old tray.new out.old out.new }
{
    match stage(alloc, shelf, order.project, order.script) {
        Ok(staged) => play_staged(alloc, staged, tray, out),
        Err(end) => end,
    }
}

/// Has `clap` read the words, the option in front, and plays the session that they name.
pub(crate) fn session<F: Shelf, T: Tray, O: Sink>(
    alloc: Global,
    order: &SessionOrder<'_>,
    shelf: &mut F,
    tray: &mut T,
    out: &mut O,
) -> End
    requires { IsPlainOrder (Order.Session order.now) }
    ensures { Obeys F.Shelf T.Tray O.Sink (Order.Session order.now) result
        shelf.old shelf.new tray.old tray.new out.old out.new }
{
    let words = ["--workers", order.number, order.project, order.script];
    match session_words(alloc, words.as_slice()) {
        Ok(read) => {
            let order = SessionOrder {
                project: read.project,
                script: read.script,
                number: read.workers,
            };
            play_session(alloc, &order, shelf, tray, out)
        }
        Err(_) => End::NoMemory,
    }
}
