//! The command `check`: a project is opened, and a report on it printed.

ghost use Rattle.std.specs.Prelude.{◌≡◌, true};
ghost use Rattle.cv_model.specs.ProjectFiles.{IsInForm};
ghost use Rattle.cv_outside.specs.Seen.{TraySeen, shelf_seen, sink_seen, ShelfStands, SinkStands};
ghost use Rattle.cv_words.specs.Plain.{is_plain};
ghost use Rattle.cv_top.specs.Outcomes.{checked};
ghost use Rattle.cv_top.specs.Runs.{Untouched, IsWritten, IsRunOf};

use crate::orders::{CheckOrder, Order};
use crate::outputs::write_text;
use cv_open::{End, Opened, open, report};
use cv_outside::{Shelf, Sink};
use cv_words::check_words;
use std::alloc::Global;

/// Prints the report on an opened project.
fn print_report<O: Sink>(alloc: Global, opened: &Opened, out: &mut O) -> End
    requires { IsInForm opened.now.file }
    ensures untouched { Untouched result ⊥ ⊥ (out.new ≡ out.old) }
    ensures written { (tray : TraySeen) → IsWritten result (checked opened.now) tray tray
        (sink_seen O.Sink out.old) (sink_seen O.Sink out.new) }
{
    match report(alloc, opened) {
        Ok(text) => write_text(text.as_slice(), out),
        Err(_) => End::NoMemory,
    }
}

/// Opens the project of this name, a file read once for each layer that
/// names it, and prints the report on it.
fn check_project<F: Shelf, O: Sink>(alloc: Global, project: &str, shelf: &mut F, out: &mut O) -> End
    ensures untouched { Untouched result ⊥ (Unit {0}) (out.new ≡ out.old) }
    ensures shelf_stands { ShelfStands (shelf_seen F.Shelf shelf.old) (shelf_seen F.Shelf shelf.new) }
    ensures out_stands { SinkStands (sink_seen O.Sink out.old) (sink_seen O.Sink out.new) }
    ensures run { (tray : TraySeen) → IsRunOf (Order.Check (record { project = project.now })) result
        (shelf_seen F.Shelf shelf.old) (shelf_seen F.Shelf shelf.new) tray tray
        (sink_seen O.Sink out.old) (sink_seen O.Sink out.new) }
{
    match open(alloc, shelf, project) {
        Ok(opened) => print_report(alloc, &opened, out),
        Err(end) => end,
    }
}

/// Has `clap` read the word, and checks the project that it names.
pub(crate) fn check<F: Shelf, O: Sink>(
    alloc: Global,
    order: &CheckOrder<'_>,
    shelf: &mut F,
    out: &mut O,
) -> End
    requires { is_plain order.now.project ≡ true }
    ensures untouched { Untouched result ⊥ (Unit {0}) (out.new ≡ out.old) }
    ensures shelf_stands { ShelfStands (shelf_seen F.Shelf shelf.old) (shelf_seen F.Shelf shelf.new) }
    ensures out_stands { SinkStands (sink_seen O.Sink out.old) (sink_seen O.Sink out.new) }
    ensures run { (tray : TraySeen) → IsRunOf (Order.Check order.now) result
        (shelf_seen F.Shelf shelf.old) (shelf_seen F.Shelf shelf.new) tray tray
        (sink_seen O.Sink out.old) (sink_seen O.Sink out.new) }
{
    let words = [order.project];
    match check_words(alloc, words.as_slice()) {
        Ok(project) => check_project(alloc, project, shelf, out),
        Err(_) => End::NoMemory,
    }
}
