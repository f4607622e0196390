//! What a script asks of a desk with one canvas, done by caller 0.
ghost use Rattle.std.specs.Prelude.{◌≡◌, IfOk};

use crate::Table;
use cv_compose::Composed;
use cv_desk::Desk;
use cv_event::{Act, Journal, RefusedList};
use cv_geom::{pan, zoom};
use cv_model::{CanvasSpec, NoMemory, View};
use cv_open::{Opened, open};
use cv_outside::{Files, SureShelf};
use cv_script::Command;
use cv_store::Store;
use std::alloc::{AllocError, Global};
use std::test::Fail;

/// A shelf with the text of a project under `map`, and with that of a layer under `a`, `b` and `c`.
fn shelf(alloc: Global, map: &str, layers: [&str; 3]) -> Result<SureShelf, NoMemory> {
    let mut files = Files::new(alloc);
    let names = ["a", "b", "c"];
    for k in 0..3 {
        let bytes = Vec::from_slice(alloc, layers[k].as_bytes())?;
        files.insert(String::from_str(alloc, names[k])?, bytes)?;
    }
    let bytes = Vec::from_slice(alloc, map.as_bytes())?;
    files.insert(String::from_str(alloc, "map")?, bytes)?;
    Ok(SureShelf::new(alloc, files))
}

/// The store of a project.
pub fn opened_store(alloc: Global, map: &str, layers: [&str; 3]) -> Result<Store, Fail>
    ensures { IfOk result (λ store. store.version ≡ 1) }
{
    let mut shelf = shelf(alloc, map, layers)?;
    let Ok(opened) = open(alloc, &mut shelf, "map") else {
        return Err(Fail::from(AllocError));
    };
    let Opened { file, contents } = opened;
    let store = Store::open(alloc, file, contents.into_vec())?;
    Ok(store)
}

/// The desk of a project, with these canvases.
pub fn desk(
    alloc: Global,
    map: &str,
    layers: [&str; 3],
    specs: &[CanvasSpec],
) -> Result<Desk, Fail> {
    let store = opened_store(alloc, map, layers)?;
    match Desk::open(alloc, store, specs) {
        Ok(desk) => Ok(desk),
        Err(refused) => Err(Fail::from(refused.1)),
    }
}

/// A square multiplied onto another one, which is painted within a third.
const TWO: &str = concat!(
    r#"{"version":1,"background":"ffffff","canvases":[],"layers":["#,
    r#"{"id":2,"name":"top","source":{"kind":"text","file":"a"},"blend":"multiply","#,
    r#""style":{"kind":"single","symbol":{"fill":"646464"}}},"#,
    r#"{"id":1,"name":"base","source":{"kind":"text","file":"b"},"mask":3,"#,
    r#""style":{"kind":"single","symbol":{"fill":"c8c8c8"}}},"#,
    r#"{"id":3,"name":"mask","source":{"kind":"text","file":"c"},"visible":false,"#,
    r#""style":{"kind":"single","symbol":{}}}]}"#
);

const SQUARES: [&str; 3] = [
    "wkt\n\"POLYGON((1 1,3 1,3 3,1 3,1 1))\"\n",
    "wkt\n\"POLYGON((0 0,4 0,4 4,0 4,0 0))\"\n",
    "wkt\n\"POLYGON((0 0,4 0,4 2,0 2,0 0))\"\n",
];

/// A view of both squares.
pub const FIRST: View = View {
    lx2: 0,
    ty2: 8_000_000,
    u: 1_000_000,
    w: 4,
    h: 4,
};

/// The view one pixel further east.
pub const BESIDE: View = View {
    lx2: 2_000_000,
    ty2: 8_000_000,
    u: 1_000_000,
    w: 4,
    h: 4,
};

/// The view with pixels of half the side.
pub const HALVED: View = View {
    lx2: 0,
    ty2: 8_000_000,
    u: 500_000,
    w: 4,
    h: 4,
};

/// One that is wider than the canvases.
pub const WIDER: View = View {
    lx2: 0,
    ty2: 8_000_000,
    u: 1_000_000,
    w: 5,
    h: 4,
};

/// The store of the two squares.
pub fn two_store(alloc: Global) -> Result<Store, Fail> {
    opened_store(alloc, TWO, SQUARES)
}

/// The two squares on a canvas of this capacity, which shows all of them.
pub fn two(alloc: Global, capacity: u32) -> Result<Table, Fail> {
    let spec = CanvasSpec {
        w: 4,
        h: 4,
        capacity,
    };
    let mut table = Table::of(alloc, desk(alloc, TWO, SQUARES, &[spec, spec])?);
    match table.set_view(0, 0, FIRST) {
        Ok(()) => Ok(table),
        Err(_) => Err(Fail::from(AllocError)),
    }
}

/// A project without layers.
const BLANK: &str = r#"{"version":1,"background":"102030","canvases":[],"layers":[]}"#;

/// A view of two pixels.
pub const NARROW: View = View {
    lx2: 0,
    ty2: 2_000_000,
    u: 1_000_000,
    w: 2,
    h: 1,
};

/// The project without layers on a canvas of two pixels, which has no view.
pub fn blank(alloc: Global) -> Result<Table, Fail> {
    let spec = CanvasSpec {
        w: 2,
        h: 1,
        capacity: 0,
    };
    Ok(Table::of(alloc, desk(alloc, BLANK, SQUARES, &[spec])?))
}

/// The last job that was started, or 0.
pub fn last_job(journal: &Journal) -> u32 {
    let mut last = 0;
    for entry in journal.as_slice() {
        if let Act::Start(_, job) = entry.act {
            last = job;
        }
    }
    last
}

/// Lets caller 0 do one task after the other until none is due.
fn do_all(table: &mut Table) -> Result<(), NoMemory> {
    for _ in 0..1000 {
        match table.take() {
            Ok(true) => table.give()?,
            Ok(false) => return Ok(()),
            Err(_) => return Err(AllocError),
        }
    }
    Ok(())
}

/// The present view, zoomed.
fn zoomed(view: &View, num: u32, den: u32) -> Option<View> {
    if num == 0 || num > 1000 || den == 0 || den > 1000 {
        return None;
    }
    zoom(view, num, den).ok()
}

/// Gives a canvas another view, where there is one.
fn show(table: &mut Table, canvas: u32, view: Option<View>) {
    if let Some(view) = view {
        let _ = table.set_view(0, canvas, view);
    }
}

/// Does what a command says. What is refused changes nothing.
fn obey(table: &mut Table, command: &Command) -> Result<(), NoMemory> {
    let job = last_job(table.desk().journal());
    let view = table.desk().view(0).unwrap_or(FIRST);
    match command {
        Command::Edit(edit) => drop(table.edit(0, edit.clone()?)),
        Command::Start { canvas } => drop(table.start(0, *canvas)),
        Command::Cancel { canvas: _ } => drop(table.cancel(0, job)),
        Command::Wait { canvas: _ } => do_all(table)?,
        Command::Take => drop(table.take()),
        Command::Give => table.give()?,
        Command::Preview { canvas: _, file: _ } => drop(table.preview(0, job)),
        Command::Save { canvas, file: _ } => drop(table.published(0, *canvas)),
        Command::Pan { canvas, dx, dy } => show(table, *canvas, pan(&view, *dx, *dy).ok()),
        Command::Zoom { canvas, num, den } => show(table, *canvas, zoomed(&view, *num, *den)),
        Command::View {
            canvas: _,
            extent: _,
        } => {}
    }
    Ok(())
}

/// Does what the commands of a script say, one after the other.
pub fn play(alloc: Global, table: &mut Table, script: &str) -> Result<(), Fail> {
    let Ok(script) = cv_script::read(alloc, script.as_bytes()) else {
        return Err(Fail::from(AllocError));
    };
    for numbered in script.commands() {
        obey(table, &numbered.command)?;
    }
    Ok(())
}

/// The journal of the two squares on a canvas of this capacity, behind a script.
pub fn played(alloc: Global, capacity: u32, script: &str) -> Result<Vec<u8>, Fail> {
    let mut table = two(alloc, capacity)?;
    play(alloc, &mut table, script)?;
    lines(alloc, table.desk())
}

/// The lines of a desk's journal.
pub fn lines(alloc: Global, desk: &Desk) -> Result<Vec<u8>, Fail> {
    let refused = RefusedList::new(alloc);
    Ok(cv_event::text(alloc, desk.journal(), &refused, 0)?)
}

/// The greys of a picture row by row, each as a letter.
pub fn greys(alloc: Global, composed: &Composed) -> Result<String, NoMemory> {
    let mut text = String::new(alloc);
    for pixel in composed.picture().pixels().as_slice() {
        text.push(match pixel.r {
            0xff => 'w',
            0xc8 => 'c',
            0x64 => 'd',
            0x4e => 'm',
            0xb1 => 'h',
            0x8b => 'n',
            _ => '?',
        })?;
    }
    Ok(text)
}

/// The greys of the picture that canvas 0 has published.
pub fn published(alloc: Global, table: &mut Table) -> Result<String, NoMemory> {
    match table.published(0, 0) {
        Ok(composed) => greys(alloc, composed.value()),
        Err(_) => String::from_str(alloc, "none"),
    }
}
