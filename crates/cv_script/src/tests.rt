//! Scripts worked by hand from the grammar: each command, good and bad, and the lines round them.

use crate::{Command, ScriptError, read};
use cv_model::{Cell, Edit, LayerData, Rgba, Style};
use std::alloc::{AllocError, Global};
use std::test::Fail;

/// The name of a command and its numbers, 0 behind them.
type Told = (&'static str, [i64; 5]);

fn long(number: u32) -> i64 {
    i64::from(number)
}

fn colour(colour: Rgba) -> i64 {
    long(u32::from_be_bytes([colour.r, colour.g, colour.b, colour.a]))
}

/// A layer, its fill, the width of its pen and the size of its marker; or the number of its stops.
fn style(layer: u32, style: &Style) -> Told {
    match style {
        Style::Single(symbol) => {
            let fill = symbol.fill.map_or(-1, colour);
            let width = symbol.pen.map_or(-1, |pen| long(pen.width));
            let size = symbol.marker.map_or(-1, |marker| long(marker.size));
            ("single", [long(layer), fill, width, size, 0])
        }
        Style::Ramp(ramp) => ("ramp", [long(layer), ramp.stops().len() as i64, 0, 0, 0]),
        _ => ("style", [0; 5]),
    }
}

/// An edit of features and cells; texts by their lengths.
fn data(edit: &Edit) -> Told {
    match edit {
        Edit::AddFeature { layer, feature } => {
            let values = feature.values.as_slice().len() as i64;
            ("add", [long(*layer), long(feature.id), values, 0, 0])
        }
        Edit::InsertFeature { layer, at, feature } => {
            let values = feature.values.as_slice().len() as i64;
            let id = long(feature.id);
            ("insert", [long(*layer), long(*at), id, values, 0])
        }
        Edit::RemoveFeature { layer, id } => ("remove", [long(*layer), long(*id), 0, 0, 0]),
        Edit::SetGeometry {
            layer,
            id,
            geometry,
        } => {
            let some = i64::from(geometry.is_some());
            ("geometry", [long(*layer), long(*id), some, 0, 0])
        }
        Edit::SetAttribute {
            layer,
            id,
            column,
            value,
        } => {
            let (column, value) = (column.as_str().len() as i64, value.as_str().len() as i64);
            ("attribute", [long(*layer), long(*id), column, value, 0])
        }
        Edit::SetCell {
            layer,
            row,
            col,
            cell,
        } => match cell {
            Cell::Value(number) => {
                let (row, col) = (long(*row), long(*col));
                ("cell", [long(*layer), row, col, *number, 0])
            }
            Cell::Void => ("void", [long(*layer), long(*row), long(*col), 0, 0]),
        },
        _ => layers(edit),
    }
}

/// An edit of layers; names by their lengths.
fn layers(edit: &Edit) -> Told {
    match edit {
        Edit::SetStyle {
            layer,
            style: drawn,
        } => style(*layer, drawn),
        Edit::SetMask { layer, mask } => ("mask", [long(*layer), mask.map_or(-1, long), 0, 0, 0]),
        Edit::SetJoin { layer, join } => match join {
            Some(join) => {
                let (local, key) = (
                    join.local.as_str().len() as i64,
                    join.key.as_str().len() as i64,
                );
                ("join", [long(*layer), long(join.layer), local, key, 0])
            }
            None => ("unjoin", [long(*layer), 0, 0, 0, 0]),
        },
        Edit::AddLayer { place, layer } => {
            let columns = match &layer.contents {
                LayerData::Text(features) => features.columns().len() as i64,
                LayerData::Grid(_) => -1,
            };
            let name = layer.name.as_str().len() as i64;
            ("layer", [long(*place), long(layer.id), name, columns, 0])
        }
        Edit::RemoveLayer { layer } => ("unlayer", [long(*layer), 0, 0, 0, 0]),
        _ => frames(edit),
    }
}

/// An edit of frames.
fn frames(edit: &Edit) -> Told {
    match edit {
        Edit::SetOpacity { layer, opacity } => (
            "opacity",
            [long(*layer), i64::from(*opacity), 0, 0, 0],
        ),
        Edit::SetBlend { layer, blend } => ("blend", [long(*layer), *blend as i64, 0, 0, 0]),
        Edit::SetVisible { layer, visible } => (
            "visible",
            [long(*layer), i64::from(*visible), 0, 0, 0],
        ),
        Edit::SetScales { layer, scales } => {
            let least = scales.least.unwrap_or(-1);
            let greatest = scales.greatest.unwrap_or(-1);
            ("scales", [long(*layer), least, greatest, 0, 0])
        }
        Edit::MoveLayer { layer, place } => ("move", [long(*layer), long(*place), 0, 0, 0]),
        Edit::SetBackground { colour } => {
            let (r, g, b) = (
                i64::from(colour.r),
                i64::from(colour.g),
                i64::from(colour.b),
            );
            ("background", [r, g, b, 0, 0])
        }
        _ => ("other", [0; 5]),
    }
}

fn told(command: &Command) -> Told {
    match command {
        Command::View { canvas, extent } => {
            let (xmin, ymin) = (extent.xmin, extent.ymin);
            let (xmax, ymax) = (extent.xmax, extent.ymax);
            ("view", [long(*canvas), xmin, ymin, xmax, ymax])
        }
        Command::Pan { canvas, dx, dy } => {
            let (dx, dy) = (i64::from(*dx), i64::from(*dy));
            ("pan", [long(*canvas), dx, dy, 0, 0])
        }
        Command::Zoom { canvas, num, den } => {
            ("zoom", [long(*canvas), long(*num), long(*den), 0, 0])
        }
        Command::Start { canvas } => ("start", [long(*canvas), 0, 0, 0, 0]),
        Command::Cancel { canvas } => ("cancel", [long(*canvas), 0, 0, 0, 0]),
        Command::Wait { canvas } => ("wait", [long(*canvas), 0, 0, 0, 0]),
        Command::Take => ("take", [0; 5]),
        Command::Give => ("give", [0; 5]),
        Command::Preview { canvas, .. } => ("preview", [long(*canvas), 0, 0, 0, 0]),
        Command::Save { canvas, .. } => ("save", [long(*canvas), 0, 0, 0, 0]),
        Command::Edit(edit) => data(edit.value()),
    }
}

/// The first command of a script, or its bad line.
fn found(alloc: Global, bytes: &[u8]) -> Result<Told, ScriptError> {
    match read(alloc, bytes) {
        Ok(script) => match script.commands().first() {
            Some(numbered) => Ok(told(&numbered.command)),
            None => Ok(("none", [0; 5])),
        },
        Err(error) => Err(error),
    }
}

/// How many commands a script has, and the line of the last; or its bad line.
fn counted(alloc: Global, bytes: &[u8]) -> Result<(u64, u32), ScriptError> {
    match read(alloc, bytes) {
        Ok(script) => match script.commands().last() {
            Some(numbered) => Ok((script.commands().len() as u64, numbered.line)),
            None => Ok((0, 0)),
        },
        Err(error) => Err(error),
    }
}

/// Whether the first command of a script saves this file.
fn saves(alloc: Global, bytes: &[u8], wanted: &str) -> bool {
    match read(alloc, bytes) {
        Ok(script) => match script.commands().first() {
            Some(numbered) => match &numbered.command {
                Command::Save { file, .. } => file.as_str() == wanted,
                _ => false,
            },
            None => false,
        },
        Err(_) => false,
    }
}

#[test]
fn lines_are_told_apart(rt: HostRuntime) {
    let rows: [(&[u8], Result<(u64, u32), ScriptError>); 20] = [
        (b"", Ok((0, 0))),
        (b"\n\n \t\r\n#\n  # start 9\n\"start\" \"0\"", Ok((1, 6))),
        (b"start 0\r\nstart 1\n", Ok((2, 2))),
        (b"start 0\r", Err(ScriptError::BadLine(1))),
        (b"\n\r", Ok((0, 0))),
        (b"\r# start\n", Ok((0, 0))),
        (b"start 0\r\r\n", Err(ScriptError::BadLine(1))),
        (b"\tstart\t 0 \n", Ok((1, 1))),
        (b"start\x0b0", Err(ScriptError::BadLine(1))),
        (b"\"#\" 0", Err(ScriptError::BadLine(1))),
        (b"start 0\n# \xff\n", Err(ScriptError::BadLine(2))),
        (
            b"start 0\nstart \xff\nstart x",
            Err(ScriptError::BadLine(2)),
        ),
        (b"start 0\nfly\nstart", Err(ScriptError::BadLine(2))),
        (b"\xef\xbb\xbfstart 0", Ok((1, 1))),
        (b"\xef\xbb\xbf# start 0\nstart 0", Ok((1, 2))),
        (b"\xef\xbb\xbf\"start\" 0", Ok((1, 1))),
        (b"\xef\xbb\xbf", Ok((0, 0))),
        (
            b"\xef\xbb\xbf\xef\xbb\xbfstart 0",
            Err(ScriptError::BadLine(1)),
        ),
        (b"\n\xef\xbb\xbfstart 0", Err(ScriptError::BadLine(2))),
        (b"\xef\xbb#", Err(ScriptError::BadLine(1))),
    ];
    for (bytes, want) in rows {
        assert_eq!(rt; counted(rt.alloc(), bytes), want);
    }
}

#[test]
fn words_are_told_apart(rt: HostRuntime) {
    let rows = [
        ("save 0 a.ppm", "a.ppm"),
        ("save 0 \"a b.ppm\"", "a b.ppm"),
        ("save 0 \"a \"\"b\"\".ppm\" ", "a \"b\".ppm"),
        ("save 0 \"a\"\"\"", "a\""),
        ("save 0 \"\"\"\"", "\""),
        ("save 0 \"#\"", "#"),
        ("save 0 ä.ppm", "ä.ppm"),
        ("\"save\" \"0\" none", "none"),
    ];
    for (line, want) in rows {
        assert!(rt; saves(rt.alloc(), line.as_bytes(), want), "at {line}");
    }
}

#[test]
fn good_lines_are_read(rt: HostRuntime) {
    let rows = [
        (
            "view 0 0 -1.5 8 1e1",
            ("view", [0, 0, -1_500_000, 8_000_000, 10_000_000]),
        ),
        (
            "view 4294967295 0 0 0 0",
            ("view", [4_294_967_295, 0, 0, 0, 0]),
        ),
        ("pan 0 -4096 4096", ("pan", [0, -4096, 4096, 0, 0])),
        ("pan 0 -0 0000000001", ("pan", [0, 0, 1, 0, 0])),
        ("zoom 0 1 1000", ("zoom", [0, 1, 1000, 0, 0])),
        ("start 0", ("start", [0, 0, 0, 0, 0])),
        ("cancel 1", ("cancel", [1, 0, 0, 0, 0])),
        ("wait 2", ("wait", [2, 0, 0, 0, 0])),
        ("take", ("take", [0, 0, 0, 0, 0])),
        ("give", ("give", [0, 0, 0, 0, 0])),
        ("preview 3 a.ppm", ("preview", [3, 0, 0, 0, 0])),
        ("save 4 a.ppm", ("save", [4, 0, 0, 0, 0])),
        ("add-feature 3 1 \"POINT(1 2)\"", ("add", [3, 1, 0, 0, 0])),
        (
            "add-feature 3 1 \"POINT(1 2)\" a \"\"",
            ("add", [3, 1, 2, 0, 0]),
        ),
        (
            "insert-feature 3 2 5 \"POINT(1 1)\" x",
            ("insert", [3, 2, 5, 1, 0]),
        ),
        ("remove-feature 3 1", ("remove", [3, 1, 0, 0, 0])),
        (
            "set-geometry 3 1 \"POINT EMPTY\"",
            ("geometry", [3, 1, 1, 0, 0]),
        ),
        ("set-geometry 3 1 none", ("geometry", [3, 1, 0, 0, 0])),
        (
            "set-attribute 3 1 none \"\"",
            ("attribute", [3, 1, 4, 0, 0]),
        ),
        ("set-cell 1 2 3 -0.5", ("cell", [1, 2, 3, -500_000, 0])),
        (
            "set-cell 1 2 3 1e30",
            ("cell", [1, 2, 3, 1_000_000_000_000_000, 0]),
        ),
        ("set-cell 1 2 3 NaN", ("void", [1, 2, 3, 0, 0])),
    ];
    for (line, want) in rows {
        assert_eq!(rt; found(rt.alloc(), line.as_bytes()), Ok(want), "at {line}");
    }
}

#[test]
fn good_edits_of_layers_are_read(rt: HostRuntime) {
    let rows = [
        ("set-style 2", ("single", [2, -1, -1, -1, 0])),
        (
            "set-style 2 fill ff0000",
            ("single", [2, 0xff00_00ff, -1, -1, 0]),
        ),
        (
            "set-style 2 marker circle 00ff0080 256 pen 0000ff 64 fill FF000080",
            ("single", [2, 0xff00_0080, 64, 256, 0]),
        ),
        (
            "set-ramp 1 linear -1 000000 2.5 ffffff80",
            ("ramp", [1, 2, 0, 0, 0]),
        ),
        ("set-ramp 1 exact 0 000000", ("ramp", [1, 1, 0, 0, 0])),
        ("set-mask 2 0", ("mask", [2, 0, 0, 0, 0])),
        ("set-mask 2 none", ("mask", [2, -1, 0, 0, 0])),
        ("set-join 2 0 none at", ("join", [2, 0, 4, 2, 0])),
        ("set-join 2 none", ("unjoin", [2, 0, 0, 0, 0])),
        ("add-layer 1 7 new a b", ("layer", [1, 7, 3, 2, 0])),
        ("remove-layer 7", ("unlayer", [7, 0, 0, 0, 0])),
        ("opacity 1 255", ("opacity", [1, 255, 0, 0, 0])),
        ("blend 1 color-dodge", ("blend", [1, 6, 0, 0, 0])),
        ("show 1", ("visible", [1, 1, 0, 0, 0])),
        ("hide 1", ("visible", [1, 0, 0, 0, 0])),
        ("move 1 2", ("move", [1, 2, 0, 0, 0])),
        ("background 0080ff", ("background", [0, 128, 255, 0, 0])),
        (
            "set-scales 2 0 1000000000",
            ("scales", [2, 0, 1_000_000_000_000_000, 0, 0]),
        ),
        ("set-scales 2 none none", ("scales", [2, -1, -1, 0, 0])),
        ("set-scales 2 none 0.5", ("scales", [2, -1, 500_000, 0, 0])),
    ];
    for (line, want) in rows {
        assert_eq!(rt; found(rt.alloc(), line.as_bytes()), Ok(want), "at {line}");
    }
}

#[test]
fn bad_lines_are_refused(rt: HostRuntime) {
    let rows = [
        "view 4294967296 0 0 1 1",
        "view 0 0 0 1",
        "view 0 0 0 1 1 1",
        "view 0 nan 0 1 1",
        "view 0 0 0 1e10 1",
        "pan 0 4097 0",
        "pan 0 0 -4097",
        "pan 0 +1 0",
        "pan 0 - 0",
        "pan 0 00000000001 0",
        "zoom 0 0 1",
        "zoom 0 1 1001",
        "start",
        "start 0 0",
        "start x",
        "START 0",
        "cancel",
        "wait -1",
        "take 0",
        "give 0",
        "preview 0",
        "save a.ppm 0",
        "save 0 \"a b.ppm",
        "save 0 \"a\"b",
        "save 0 a\"b",
        "save 0 \"a\"\"",
        "save 0 \"\"",
        "add-feature 3 0 \"POINT(1 2)\"",
        "add-feature 3 1 none",
        "add-feature 3 1 \"POINT(1\"",
        "add-feature 3 1 \"CIRCULARSTRING(0 0,1 1,2 0)\"",
        "insert-feature 3 5 \"POINT(1 1)\"",
        "remove-feature 3 0",
        "set-geometry 3 1 NONE",
        "set-attribute 3 1 \"\" x",
        "set-attribute 3 1 x",
        "set-cell 1 2 3 none",
        "set-cell 1 2 3",
    ];
    for line in rows {
        assert_eq!(rt;
            counted(rt.alloc(), line.as_bytes()),
            Err(ScriptError::BadLine(1)),
            "at {line}"
        );
    }
}

#[test]
fn bad_edits_of_layers_are_refused(rt: HostRuntime) {
    let rows = [
        "set-style 2 fill ff0000 fill ff0000",
        "set-style 2 pen ff0000 65",
        "set-style 2 pen ff0000",
        "set-style 2 marker circle ff0000 0",
        "set-style 2 marker round ff0000 1",
        "set-style 2 fill ff000",
        "set-style 2 line ff0000",
        "set-ramp 1 discrete",
        "set-ramp 1 linear 1 000000 1 ffffff",
        "set-ramp 1 linear 1 000000 2",
        "set-ramp 1 cubic 1 000000",
        "set-mask 2",
        "set-join 2 3 key",
        "set-join 2 none a b",
        "add-layer 0 0 new",
        "add-layer 0 7 \"\"",
        "add-layer 0 7 new \"\"",
        "remove-layer",
        "opacity 1 256",
        "blend 1 soft-light",
        "show 1 1",
        "hide -1",
        "move 1",
        "background 0080ffff",
        "set-scales 2 2 1",
        "set-scales 2 -1 none",
        "set-scales 2 0 1000000001",
        "set-scales 2 0",
        "undo 3",
    ];
    for line in rows {
        assert_eq!(rt;
            counted(rt.alloc(), line.as_bytes()),
            Err(ScriptError::BadLine(1)),
            "at {line}"
        );
    }
}

/// A text, and one again and again behind it.
fn repeated(alloc: Global, front: &str, part: &str, count: u32) -> Result<String, AllocError> {
    let mut text = String::from_str(alloc, front)?;
    for _ in 0..count {
        text.push_str(part)?;
    }
    Ok(text)
}

/// A line of a ramp with so many stops.
fn ramp(alloc: Global, stops: u32) -> Result<String, Fail> {
    let mut text = String::from_str(alloc, "set-ramp 1 linear")?;
    for value in 0..stops {
        write!(text, " {value} 000000")?;
    }
    Ok(text)
}

#[test]
fn limits_are_kept(rt: HostRuntime) -> Result<(), Fail> {
    let alloc = rt.alloc();
    let rows = [
        ("save 0 ", "a", 256, Ok((1, 1))),
        ("save 0 ", "a", 257, Err(ScriptError::BadLine(1))),
        ("add-layer 0 1 a", " a", 257, Ok((1, 1))),
        ("start 0", "\n", 100_000, Ok((1, 1))),
        ("start 0", "\n", 100_001, Err(ScriptError::BadLine(100_001))),
    ];
    for (front, part, count, want) in rows {
        let text = repeated(alloc, front, part, count)?;
        assert_eq!(rt; counted(alloc, text.as_bytes()), want);
    }
    assert_eq!(rt; counted(alloc, ramp(alloc, 256)?.as_bytes()), Ok((1, 1)));
    assert_eq!(rt;
        counted(alloc, ramp(alloc, 257)?.as_bytes()),
        Err(ScriptError::BadLine(1))
    );
    Ok(())
}
