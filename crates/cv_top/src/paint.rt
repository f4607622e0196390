//! The command `paint`: a canvas of a project is painted.

ghost use Rattle.std.specs.Prelude.{◌≡◌, true, IfOk};
ghost use Rattle.std.specs.List.{list_all};
ghost use Rattle.cv_model.specs.Openings.{CanOpen};
ghost use Rattle.cv_open.specs.Opened.{opening_in};
ghost use Rattle.cv_outside.specs.Seen.{tray_seen, sink_seen};
ghost use Rattle.cv_store.specs.Stores.{project_of};
ghost use Rattle.cv_top.specs.Outcomes.{picture_made};
ghost use Rattle.cv_words.specs.Plain.{is_plain};
ghost use Rattle.cv_top.specs.Runs.{Untouched, IsWritten, Obeys};
ghost use Rattle.cv_top.specs.Words.{paint_words};

use crate::orders::{Order, PaintOrder};
use crate::pictures::write_last_picture;
use cv_model::NoMemory;
use cv_open::{End, Opened, Shown, open_canvas};
use cv_outside::{Shelf, Sink, Tray};
use cv_store::Store;
use cv_words::paint_words;
use std::alloc::Global;

/// The store of an opened project.
pub(crate) fn store_of(alloc: Global, opened: Opened) -> Result<Store, NoMemory>
    requires { CanOpen opened.file opened.contents }
    ensures project { IfOk result (λ store. project_of store ≡ (opening_in opened).project) }
    ensures first { IfOk result (λ store. store.version ≡ 1) }
{
    Store::open(alloc, opened.file, opened.contents.into_vec())
}

/// Paints the canvas of an opened project, and writes the picture under the name and prints its size.
fn paint_shown<T: Tray, O: Sink>(
    alloc: Global,
    shown: Shown,
    name: &str,
    tray: &mut T,
    out: &mut O,
) -> End
    requires { CanOpen shown.opened.file shown.opened.contents }
    ensures untouched { Untouched result ⊥ ⊥ (out.new ≡ out.old) }
    ensures written { IsWritten result
        (picture_made name.now (opening_in shown.opened).project shown.view)
        (tray_seen T.Tray tray.old) (tray_seen T.Tray tray.new)
        (sink_seen O.Sink out.old) (sink_seen O.Sink out.new) }
{
    let Shown { opened, view } = shown;
    match store_of(alloc, opened) {
        Ok(store) => write_last_picture(alloc, store, &view, name, tray, out),
        Err(_) => End::NoMemory,
    }
}

/// Opens the project for the canvas, a file read once for each layer that names it, and paints what the
/// canvas shows at first.
fn paint_canvas<F: Shelf, T: Tray, O: Sink>(
    alloc: Global,
    order: &PaintOrder<'_>,
    shelf: &mut F,
    tray: &mut T,
    out: &mut O,
) -> End
    ensures { Obeys F.Shelf T.Tray O.Sink (Order.Paint order.now) result
        shelf.old shelf.new tray.old tray.new out.old out.new }
{
    match open_canvas(alloc, shelf, order.project, order.canvas) {
        Ok(shown) => paint_shown(alloc, shown, order.out, tray, out),
        Err(end) => end,
    }
}

/// Has `clap` read the words, and paints the canvas that they name.
pub(crate) fn paint<F: Shelf, T: Tray, O: Sink>(
    alloc: Global,
    order: &PaintOrder<'_>,
    shelf: &mut F,
    tray: &mut T,
    out: &mut O,
) -> End
    requires { list_all is_plain (paint_words order.now) ≡ true }
    ensures { Obeys F.Shelf T.Tray O.Sink (Order.Paint order.now) result
        shelf.old shelf.new tray.old tray.new out.old out.new }
{
    let words = [order.project, order.number, order.out];
    match paint_words(alloc, words.as_slice()) {
        Ok(read) => {
            let order = PaintOrder {
                project: read.project,
                number: read.canvas,
                canvas: order.canvas,
                out: read.out,
            };
            paint_canvas(alloc, &order, shelf, tray, out)
        }
        Err(_) => End::NoMemory,
    }
}
