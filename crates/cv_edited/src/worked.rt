//! Stores of projects in memory, and what they answer to the edits of a script.
use cv_layer::{Cells, LayerContents, LayerInput, Table};
use cv_model::{Cell, EditError, NoMemory};
use cv_open::{Opened, open};
use cv_outside::{Files, SureShelf};
use cv_script::Command;
use cv_store::Store;
use std::alloc::{AllocError, Global};
use std::test::Fail;

/// A shelf with the text of a project under `map`, and with that of a layer under `a`, `b` and `c`.
fn shelf(alloc: Global, map: &str, layers: [&str; 3]) -> Result<SureShelf, NoMemory> {
    let mut files = Files::new(alloc);
    let names = ["a", "b", "c"];
    for k in 0..3 {
        let bytes = Vec::from_slice(alloc, layers[k].as_bytes())?;
        files.insert(String::from_str(alloc, names[k])?, bytes)?;
    }
    let bytes = Vec::from_slice(alloc, map.as_bytes())?;
    files.insert(String::from_str(alloc, "map")?, bytes)?;
    Ok(SureShelf::new(alloc, files))
}

/// The store of a project, at version 1.
pub fn store(alloc: Global, map: &str, layers: [&str; 3]) -> Result<Store, Fail> {
    let mut shelf = shelf(alloc, map, layers)?;
    let Ok(opened) = open(alloc, &mut shelf, "map") else {
        return Err(Fail::from(AllocError));
    };
    let Opened { file, contents } = opened;
    Ok(Store::open(alloc, file, contents.into_vec())?)
}

const ROWS: &str = "wkt,name\nPOINT(1 1),x\nPOINT(2 2),y\n";

const CELLS: &str = "ncols 2\nnrows 2\nxllcorner 0\nyllcorner 0\ncellsize 1\n1 2\n3 4\n";

/// A text layer 1 over a grid 2.
const MIXED: &str = concat!(
    r#"{"version":1,"background":"ffffff","canvases":[],"layers":["#,
    r#"{"id":1,"name":"towns","source":{"kind":"text","file":"a"},"#,
    r#""style":{"kind":"single","symbol":{}}},"#,
    r#"{"id":2,"name":"heights","source":{"kind":"grid","file":"b"},"#,
    r#""style":{"kind":"ramp","ramp":"exact","stops":[{"value":"1","colour":"000000"}]}}]}"#
);

/// The store of a text layer 1 of two features over a grid 2 of four cells.
pub fn mixed(alloc: Global) -> Result<Store, Fail> {
    store(alloc, MIXED, [ROWS, CELLS, ""])
}

/// What a store answers to each edit of a script: its new version, or why it refuses.
pub fn told(alloc: Global, store: &mut Store, script: &str) -> Result<String, NoMemory> {
    let Ok(script) = cv_script::read(alloc, script.as_bytes()) else {
        return String::from_str(alloc, "a bad script");
    };
    let mut text = String::new(alloc);
    for numbered in script.commands() {
        if let Command::Edit(edit) = &numbered.command {
            match store.apply(edit.value()) {
                Ok(version) => write!(text, "{version} ")?,
                Err(error) => write!(text, "{error:?} ")?,
            }
        }
    }
    Ok(text)
}

/// How many edits of a script a store refuses for this cause.
pub fn refused(
    alloc: Global,
    store: &mut Store,
    script: &str,
    cause: EditError,
) -> Result<u32, NoMemory> {
    let mut count: u32 = 0;
    let Ok(script) = cv_script::read(alloc, script.as_bytes()) else {
        return Ok(count);
    };
    for numbered in script.commands() {
        if let Command::Edit(edit) = &numbered.command {
            if store.apply(edit.value()).err() == Some(cause) {
                count = count.wrapping_add(1);
            }
        }
    }
    Ok(count)
}

/// The features of a table in order: of each its id, how many vertices it has, and its texts.
fn features(alloc: Global, table: &Table) -> Result<String, NoMemory> {
    let mut text = String::new(alloc);
    for row in table.rows().iter() {
        write!(text, "{} {} ", row.id(), row.vertices()?)?;
        for value in row.values() {
            write!(text, "{} ", value.as_str())?;
        }
    }
    Ok(text)
}

/// The cells of a grid in order, in millionths; those without data as `-`.
fn cells(alloc: Global, cells: &Cells) -> Result<String, NoMemory> {
    let mut text = String::new(alloc);
    let cells = cells.cells();
    for at in 0..cells.len() {
        match cells.get(at) {
            Some(Cell::Value(value)) => write!(text, "{value} ")?,
            Some(Cell::Void) => text.push_str("- ")?,
            None => {}
        }
    }
    Ok(text)
}

/// What the layer of an input holds.
pub fn held(alloc: Global, input: &LayerInput) -> Result<String, NoMemory> {
    match input.layer().contents() {
        LayerContents::Text(table) => features(alloc, table),
        LayerContents::Grid(grid) => cells(alloc, grid),
    }
}

/// What a layer of a store holds.
pub fn seen(alloc: Global, store: &Store, layer: u32) -> Result<String, NoMemory> {
    match store.input(layer)? {
        Some(input) => held(alloc, input.value()),
        None => String::from_str(alloc, "no layer"),
    }
}
