//! What no clause says: worked texts, the limits of room at their edges, and that memory suffices.
use crate::{TextError, TextOptions, read};
use cv_model::{Delimiter, FeatureList, Geometry, NoMemory, Room, Text};
use std::alloc::Global;
use std::test::Fail;

const WIDE: Room = Room {
    features: 10,
    vertices: 100,
    values: 100,
};

/// How many points, lines and polygons a geometry has, or `-` for none.
fn parts(alloc: Global, geometry: Option<&Geometry>) -> Result<String, Fail> {
    let text = match geometry {
        Some(found) => {
            let (points, lines) = (found.points().len(), found.lines().len());
            format!(in alloc; "{points}.{lines}.{}", found.polygons().len())?
        }
        None => String::from_str(alloc, "-")?,
    };
    Ok(text)
}

/// Columns with a bar behind each; for each feature a space, its id, its parts, its values; then the notes.
fn summary(alloc: Global, table: &FeatureList) -> Result<String, Fail> {
    let mut text = String::new(alloc);
    for column in table.columns() {
        text.push_str(column.as_str())?;
        text.push('|')?;
    }
    for feature in table.features() {
        let parts = parts(alloc, feature.geometry.as_ref())?;
        let head = format!(in alloc; " {}:{parts}", feature.id)?;
        text.push_str(head.as_str())?;
        for value in feature.values.as_slice() {
            text.push('|')?;
            text.push_str(value.as_str())?;
        }
    }
    for note in table.notes() {
        let (number, error) = (note.row, note.error);
        let noted = format!(in alloc; " !{number} {error:?}")?;
        text.push_str(noted.as_str())?;
    }
    Ok(text)
}

/// What a text is read as, or why it is refused.
fn found(alloc: Global, bytes: &[u8], delimiter: Delimiter, room: Room) -> Result<String, Fail> {
    let options = TextOptions {
        delimiter,
        geometry: Text::of(alloc, "wkt")?,
        room,
    };
    if bytes.len() > 1000 {
        return Ok(String::new(alloc));
    }
    let text = match read(alloc, bytes, &options) {
        Ok(table) => summary(alloc, &table)?,
        Err(error) => format!(in alloc; "{error:?}")?,
    };
    Ok(text)
}

#[test]
fn texts_are_read_record_by_record(rt: HostRuntime) -> Result<(), Fail> {
    let cases: [(&[u8], &str); 24] = [
        (b"wkt\nPOINT(1 2)\n", " 1:1.0.0"),
        (b"wkt\nPOINT(1 2)", " 1:1.0.0"),
        (b"wkt\r\nPOINT(1 2)\r\nPOINT(3 4)\r\n", " 1:1.0.0 2:1.0.0"),
        (b"wkt\n", ""),
        (
            b"id,wkt,name\n7,\"POINT(1 2)\",a b\n8,,\n",
            "id|name| 1:1.0.0|7|a b 2:-|8|",
        ),
        (
            b"wkt,a\n\"LINESTRING(0 0,1 1)\",\"say \"\"hi\"\"\"\n",
            "a| 1:0.1.0|say \"hi\"",
        ),
        (
            b"wkt,a\n\"POLYGON((0 0,1 0,1 1))\",\"x,y\"\n",
            "a| 1:0.0.1|x,y",
        ),
        (b"wkt,a\n\"POINT(1\n2)\",\"x\ny\"\n", "a| 1:1.0.0|x\ny"),
        (b"\xEF\xBB\xBFwkt\nPOINT(1 2)\n", " 1:1.0.0"),
        (
            b"\xEF\xBB\xBF\xEF\xBB\xBFwkt\nPOINT(1 2)\n",
            "NoGeometryColumn",
        ),
        (b"wkt\n\nPOINT(1 2)\n\r\n\nPOINT(3 4)\n", " 1:1.0.0 2:1.0.0"),
        (b"wkt\n \nPOINT EMPTY\n\"\t \"\n", " 1:- 2:0.0.0 3:-"),
        (b"wkt,wkt\n\"POINT(1 2)\",b\n", "wkt| 1:1.0.0|b"),
        (
            b"wkt\nPOINT(3.40282346638529e+38 1)\n",
            " 1:- !1 OutOfRange(6)",
        ),
        (
            b"wkt,a\nnone,1\nPOINT(1 2),2\nPOINT(1),3\n",
            "a| 1:-|1 2:1.0.0|2 3:-|3 !1 Syntax(0) !3 Syntax(7)",
        ),
        (b"id\n", "NoGeometryColumn"),
        (b"WKT,wktx,wk\n", "NoGeometryColumn"),
        (b"", "NoHeader"),
        (b"\n\r\n", "NoHeader"),
        (b"wkt,a\nPOINT(1 2)\n", "Uneven(1)"),
        (b"wkt,a\nx,1\ny,2,3\nz\n", "Uneven(2)"),
        (b"wkt,\xFF\nx\n", "NotUtf8(0)"),
        (b"wkt,a\nx,1\n\xC3,2\n", "NotUtf8(2)"),
        (b"wkt,a\n\xC3\nx,1\n", "Uneven(1)"),
    ];
    for (bytes, want) in cases {
        let read = found(rt.alloc(), bytes, Delimiter::Comma, WIDE)?;
        assert_eq!(rt; read.as_str(), want);
    }
    Ok(())
}

#[test]
fn delimiters_stand_between_fields(rt: HostRuntime) -> Result<(), Fail> {
    let cases: [(&[u8], Delimiter, &str); 4] = [
        (
            b"a;wkt\n1,5;POINT(1 2)\n",
            Delimiter::Semicolon,
            "a| 1:1.0.0|1,5",
        ),
        (
            b"a\twkt\n1;5\tPOINT(1 2)\n",
            Delimiter::Tab,
            "a| 1:1.0.0|1;5",
        ),
        (b"a;wkt\n", Delimiter::Comma, "NoGeometryColumn"),
        (b"a\twkt\n", Delimiter::Semicolon, "NoGeometryColumn"),
    ];
    for (bytes, delimiter, want) in cases {
        let read = found(rt.alloc(), bytes, delimiter, WIDE)?;
        assert_eq!(rt; read.as_str(), want);
    }
    Ok(())
}

fn room(features: u32, vertices: u32, values: u32) -> Room {
    Room {
        features,
        vertices,
        values,
    }
}

#[test]
fn room_is_met_at_its_edge(rt: HostRuntime) -> Result<(), Fail> {
    let two = b"wkt,a,b\n\"LINESTRING(0 0,1 1,2 2)\",1,2\nPOINT(1 2),3,4\n";
    let whole = "a|b| 1:0.1.0|1|2 2:1.0.0|3|4";
    let cases = [
        (room(2, 4, 4), whole),
        (room(1, 4, 4), "TooMany"),
        (room(2, 3, 4), "TooMany"),
        (room(2, 4, 3), "TooMany"),
        (room(0, 0, 0), "TooMany"),
    ];
    for (room, want) in cases {
        let read = found(rt.alloc(), two, Delimiter::Comma, room)?;
        assert_eq!(rt; read.as_str(), want);
    }
    let header = found(rt.alloc(), b"wkt,a\n", Delimiter::Comma, room(0, 0, 0))?;
    assert_eq!(rt; header.as_str(), "a|");
    let uneven = found(
        rt.alloc(),
        b"wkt\nx\ny,1\n",
        Delimiter::Comma,
        room(1, 0, 0),
    )?;
    assert_eq!(rt; uneven.as_str(), "Uneven(2)");
    Ok(())
}
