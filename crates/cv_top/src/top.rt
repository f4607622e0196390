//! The top call: from words and devices to an end.

ghost use Rattle.cv_top.specs.Runs.{IsRun, Obeys, IsNoFault};
ghost use Rattle.cv_top.specs.Words.{IsPlainOrder};

use crate::check::check;
use crate::orders::Order;
use crate::paint::paint;
use crate::quick::quick;
use crate::session::session;
use crate::words::order_of;
use cv_model::Text;
use cv_open::End;
use cv_outside::{Gate, Shelf, Sink, SureShelf, SureSink, SureTray, Tray};
use std::alloc::Global;
use std::sync::Wait;
use std::thread::Threads;

/// Runs the command that the words name, the program's own name not among them, on one thread.
///
/// `quick <csv> <out> <w> <h> <xmin> <ymin> <xmax> <ymax> <rrggbb>` reads the delimited text, whose column
/// `wkt` has the geometries in well-known text, paints their polygons with the fill over white at the view of
/// the extent, writes the picture as a pixmap, and prints `image w h`.
///
/// `check <project>` opens the project, with the files of all its layers, and prints for each layer its
/// counts and the notes on its refused geometries, then the counts of the project, and then the project as it
/// is written.
///
/// `paint <project> <canvas> <out>` opens the project in the same way, paints what the canvas of that number,
/// counted from 0, shows at first, writes the picture as a pixmap, and prints `image w h`. A canvas that
/// isn't there or has no extent is refused before any layer is read.
///
/// `session <project> <script> --workers 0`, where the option may stand in front of either name too, opens
/// the project in the same way, reads the script, gives each canvas with an extent its first view, plays the
/// script, whose `preview` and `save` write their pictures at once, and prints the journal. A script that
/// isn't in the grammar is refused before anything is played. A session in which a task got no memory prints
/// its journal too, and ends for want of memory.
pub fn run_once<F: Shelf, T: Tray, O: Sink>(
    alloc: Global,
    words: &[Text],
    shelf: &mut F,
    tray: &mut T,
    out: &mut O,
) -> End
    ensures { IsRun F.Shelf T.Tray O.Sink result words.now
        shelf.old shelf.new tray.old tray.new out.old out.new }
{
    match order_of(words) {
        Some(order) => obey(alloc, &order, shelf, tray, out),
        None => End::Usage,
    }
}

/// Does what was ordered.
fn obey<F: Shelf, T: Tray, O: Sink>(
    alloc: Global,
    order: &Order<'_>,
    shelf: &mut F,
    tray: &mut T,
    out: &mut O,
) -> End
    requires { IsPlainOrder order.now }
    ensures { Obeys F.Shelf T.Tray O.Sink order.now result
        shelf.old shelf.new tray.old tray.new out.old out.new }
{
    match order {
        Order::Quick(order) => quick(alloc, order, shelf, tray, out),
        Order::Check(order) => check(alloc, order, shelf, out),
        Order::Paint(order) => paint(alloc, order, shelf, tray, out),
        Order::Session(order) => session(alloc, order, shelf, tray, out),
    }
}

/// Runs the command that the words name, the program's own name not among them.
///
/// Each command so far runs on the caller's thread, so this call only passes on to `run_once`; the handle and
/// the gate wait for commands with workers.
pub fn run<R: Threads + Wait + Sync, F: Shelf, T: Tray + Send, O: Sink, G: Gate + Sync>(
    _rt: &R,
    alloc: Global,
    words: &[Text],
    shelf: &mut F,
    tray: &mut T,
    out: &mut O,
    _gate: &G,
) -> End
    ensures { IsRun F.Shelf T.Tray O.Sink result words.now
        shelf.old shelf.new tray.old tray.new out.old out.new }
{
    run_once(alloc, words, shelf, tray, out)
}

/// Runs the command that the words name over devices in memory that can't fail, so that no fault is answered.
pub fn run_surely(
    alloc: Global,
    words: &[Text],
    shelf: &mut SureShelf,
    tray: &mut SureTray,
    out: &mut SureSink,
) -> End
    ensures run { IsRun ⟦<SureShelf as Shelf>⟧ ⟦<SureTray as Tray>⟧ ⟦<SureSink as Sink>⟧ result words.now
        shelf.old shelf.new tray.old tray.new out.old out.new }
    ensures sure { IsNoFault result }
{
    run_once(alloc, words, shelf, tray, out)
}
