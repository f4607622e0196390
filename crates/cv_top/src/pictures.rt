//! The picture of a project, painted and written.

ghost use Rattle.std.specs.Prelude.{◌≡◌};
ghost use Rattle.cv_outside.specs.Seen.{tray_seen, sink_seen};
ghost use Rattle.cv_store.specs.Stores.{project_of};
ghost use Rattle.cv_top.specs.Outcomes.{picture_made};
ghost use Rattle.cv_top.specs.Runs.{Untouched, IsWritten};

use crate::outputs::{image_line, write_outputs};
use cv_map::paint_bytes;
use cv_model::View;
use cv_open::End;
use cv_outside::{Sink, Tray};
use cv_store::Store;
use std::alloc::Global;
use std::mem;

/// Paints a store's project at a view, writes the picture under the name, and prints its size, as the last
/// that the process does: the store's memory goes with the process, and isn't given back feature by feature.
pub(crate) fn write_last_picture<T: Tray, O: Sink>(
    alloc: Global,
    store: Store,
    view: &View,
    name: &str,
    tray: &mut T,
    out: &mut O,
) -> End
    ensures untouched { Untouched result ⊥ ⊥ (out.new ≡ out.old) }
    ensures written { IsWritten result (picture_made name.now (project_of store) view.now)
        (tray_seen T.Tray tray.old) (tray_seen T.Tray tray.new)
        (sink_seen O.Sink out.old) (sink_seen O.Sink out.new) }
{
    let end = write_picture(alloc, &store, view, name, tray, out);
    mem::forget(store);
    end
}

/// Paints a store's project at a view, writes the picture under the name, and prints its size.
fn write_picture<T: Tray, O: Sink>(
    alloc: Global,
    store: &Store,
    view: &View,
    name: &str,
    tray: &mut T,
    out: &mut O,
) -> End
    ensures untouched { Untouched result ⊥ ⊥ (out.new ≡ out.old) }
    ensures written { IsWritten result (picture_made name.now (project_of store.now) view.now)
        (tray_seen T.Tray tray.old) (tray_seen T.Tray tray.new)
        (sink_seen O.Sink out.old) (sink_seen O.Sink out.new) }
{
    let Ok(picture) = paint_bytes(alloc, store, view) else {
        return End::NoMemory;
    };
    let Ok(line) = image_line(alloc, view) else {
        return End::NoMemory;
    };
    write_outputs(name, picture.as_slice(), line.as_bytes(), tray, out)
}
