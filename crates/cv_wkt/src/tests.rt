//! What no clause says: worked texts over every production and every refusal.
use crate::read;
use cv_model::{Geometry, WktError};
use std::alloc::{AllocError, Global};
use std::test::Fail;

/// Points; lines and their points; polygons, their rings and the points of these.
type Sizes = (u64, u64, u64, u64, u64, u64);

fn sizes(geometry: &Geometry) -> Sizes {
    let mut line_points = 0u64;
    for line in geometry.lines() {
        line_points = line_points.saturating_add(line.len());
    }
    let mut rings = 0u64;
    let mut ring_points = 0u64;
    for polygon in geometry.polygons() {
        rings = rings.saturating_add(polygon.len());
        for ring in polygon.as_slice() {
            ring_points = ring_points.saturating_add(ring.len());
        }
    }
    let points = geometry.points().len() as u64;
    let lines = geometry.lines().len() as u64;
    let polygons = geometry.polygons().len() as u64;
    (points, lines, line_points, polygons, rings, ring_points)
}

fn found(alloc: Global, text: &[u8]) -> Result<Sizes, WktError> {
    match read(alloc, text) {
        Ok(geometry) => Ok(sizes(&geometry)),
        Err(refusal) => Err(refusal),
    }
}

/// The x and y of the point at a place, in map units.
fn point_at(alloc: Global, text: &[u8], at: usize) -> Option<(i64, i64)> {
    match read(alloc, text) {
        Ok(geometry) => geometry
            .points()
            .get(at)
            .map(|point| (point.x / 1_000_000, point.y / 1_000_000)),
        Err(_) => None,
    }
}

#[test]
fn worked_texts_are_read(rt: HostRuntime) {
    let cases = [
        ("POINT(1 2)", (1, 0, 0, 0, 0, 0)),
        ("point(1 2)", (1, 0, 0, 0, 0, 0)),
        (" POINT\t( 1\r\n2 ) ", (1, 0, 0, 0, 0, 0)),
        ("POINT EMPTY", (0, 0, 0, 0, 0, 0)),
        ("PointZ(1 2 3)", (1, 0, 0, 0, 0, 0)),
        ("POINT M (1 2 nan 1e999)", (1, 0, 0, 0, 0, 0)),
        ("POINT zm EMPTY", (0, 0, 0, 0, 0, 0)),
        ("SRID=4326;POINT(1 2)", (1, 0, 0, 0, 0, 0)),
        ("srid = 0 ; POINT(1 2)", (1, 0, 0, 0, 0, 0)),
        ("LINESTRING(1 2)", (0, 1, 1, 0, 0, 0)),
        ("LINESTRING M(1 2,3 4 5,6 7 8 9)", (0, 1, 3, 0, 0, 0)),
        ("LINESTRING EMPTY", (0, 0, 0, 0, 0, 0)),
        (
            "LINESTRING(1 2,3 4 5,6  7,8 9 ,1 2, 3 4,1e0 2,3 4)",
            (0, 1, 8, 0, 0, 0),
        ),
        (
            "PolygonZ ((0 0 1, 4 0 1, 4 4 1, 0 0 1))",
            (0, 0, 0, 1, 1, 4),
        ),
        ("POLYGON((0 0,4 0,4 4),(1 1,2 1))", (0, 0, 0, 1, 2, 5)),
        ("POLYGON(EMPTY,(1 1))", (0, 0, 0, 1, 2, 1)),
        ("POLYGON EMPTY", (0, 0, 0, 0, 0, 0)),
        ("MULTIPOINT(1 2,(3 4))", (2, 0, 0, 0, 0, 0)),
        (
            "MULTIPOINT(EMPTY,1 2 3,(4 5 6 7),EMPTY)",
            (2, 0, 0, 0, 0, 0),
        ),
        ("MULTIPOINT EMPTY", (0, 0, 0, 0, 0, 0)),
        ("MULTILINESTRING((1 2,3 4),EMPTY,(5 6))", (0, 2, 3, 0, 0, 0)),
        ("MULTILINESTRINGZM EMPTY", (0, 0, 0, 0, 0, 0)),
        (
            "MULTIPOLYGON(((0 0,1 0,1 1)),EMPTY,((2 2),(3 3)))",
            (0, 0, 0, 2, 3, 5),
        ),
        ("MULTIPOLYGON EMPTY", (0, 0, 0, 0, 0, 0)),
        ("GEOMETRYCOLLECTION EMPTY", (0, 0, 0, 0, 0, 0)),
        (
            "GEOMETRYCOLLECTION(POINT(1 2),LINESTRING(3 4,5 6),POLYGON((7 8)))",
            (1, 1, 2, 1, 1, 1),
        ),
        (
            "GEOMETRYCOLLECTION Z(GEOMETRYCOLLECTION(POINT(1 2)),MULTIPOINT(3 4,5 6))",
            (3, 0, 0, 0, 0, 0),
        ),
        ("POINT(+1.5E2 -.5)", (1, 0, 0, 0, 0, 0)),
        ("POINT(1000000000 -1000000000)", (1, 0, 0, 0, 0, 0)),
    ];
    for (text, want) in cases {
        assert_eq!(rt; found(rt.alloc(), text.as_bytes()), Ok(want), "at {text}");
    }
}

#[test]
fn worked_texts_are_refused(rt: HostRuntime) {
    let cases = [
        ("", WktError::Syntax(0)),
        ("  ", WktError::Syntax(2)),
        ("POINT", WktError::Syntax(5)),
        ("POINT(1)", WktError::Syntax(7)),
        ("POINT(1 2", WktError::Syntax(9)),
        ("POINT()", WktError::Syntax(6)),
        ("POINT(1 2,3 4)", WktError::Syntax(9)),
        ("POINT(1 2 3 4 5)", WktError::Syntax(14)),
        ("POINT(1 2))", WktError::Syntax(10)),
        ("POINT(1 2) POINT", WktError::Syntax(11)),
        ("POINT(nan 2)", WktError::Syntax(6)),
        ("POINT(1 nan)", WktError::Syntax(8)),
        ("POINT(1 x)", WktError::Syntax(8)),
        ("POINT(1 2 x)", WktError::Syntax(10)),
        ("POINT EMPTY Z", WktError::Syntax(12)),
        ("POINTZ M(1 2)", WktError::Syntax(7)),
        ("POINT Z Z(1 2)", WktError::Syntax(8)),
        ("POINTX(1 2)", WktError::Syntax(0)),
        ("POINT1 2", WktError::Syntax(0)),
        ("SRID", WktError::Syntax(4)),
        ("SRID=x;POINT(1 2)", WktError::Syntax(5)),
        ("SRID=1.5;POINT(1 2)", WktError::Syntax(5)),
        ("SRID=1 POINT(1 2)", WktError::Syntax(7)),
        ("SRID=1;SRID=1;POINT(1 2)", WktError::Syntax(7)),
        ("LINESTRING(1 2,)", WktError::Syntax(15)),
        ("LINESTRING((1 2))", WktError::Syntax(11)),
        ("LINESTRING(EMPTY)", WktError::Syntax(11)),
        ("POLYGON(1 2)", WktError::Syntax(8)),
        ("POLYGON((0 0,4 0,4 4", WktError::Syntax(20)),
        ("POLYGON((0 0),)", WktError::Syntax(14)),
        ("MULTIPOINT((1 2,3 4))", WktError::Syntax(15)),
        ("MULTIPOINT((EMPTY))", WktError::Syntax(12)),
        ("MULTIPOLYGON((1 2))", WktError::Syntax(14)),
        ("GEOMETRYCOLLECTION()", WktError::Syntax(19)),
        ("GEOMETRYCOLLECTION(1 2)", WktError::Syntax(19)),
        ("GEOMETRYCOLLECTION(POINT(1 2)", WktError::Syntax(29)),
        ("CIRCULARSTRING(0 0,1 1,2 0)", WktError::Curve(0)),
        ("SRID=1;TinZ(1 2)", WktError::Curve(7)),
        ("GEOMETRYCOLLECTION(CURVE EMPTY)", WktError::Curve(19)),
        ("POINT(CURVE 1)", WktError::Syntax(6)),
        ("POINT CURVE", WktError::Syntax(6)),
        ("CURVES", WktError::Syntax(0)),
        ("POINT(1000000001 2)", WktError::OutOfRange(6)),
        ("POINT(3.40282346638529e+38 1)", WktError::OutOfRange(6)),
        ("POINT(1 -1e99)", WktError::OutOfRange(8)),
        ("MULTIPOINT(-1e10 0)", WktError::OutOfRange(11)),
        ("POINT 1e99", WktError::Syntax(6)),
    ];
    for (text, want) in cases {
        assert_eq!(rt; found(rt.alloc(), text.as_bytes()), Err(want), "at {text}");
    }
}

/// `front` so many times, then `middle`, then `back` as many times.
fn nested(
    alloc: Global,
    count: u64,
    front: &str,
    middle: &str,
    back: &str,
) -> Result<Vec<u8>, AllocError> {
    let mut text = Vec::new(alloc);
    for _ in 0..count {
        text.extend_from_slice(front.as_bytes())?;
    }
    text.extend_from_slice(middle.as_bytes())?;
    for _ in 0..count {
        text.extend_from_slice(back.as_bytes())?;
    }
    Ok(text)
}

#[test]
fn limits_are_kept(rt: HostRuntime) -> Result<(), Fail> {
    let cases = [
        (
            8,
            "GEOMETRYCOLLECTION(",
            "POINT(1 2)",
            ")",
            Ok((1, 0, 0, 0, 0, 0)),
        ),
        (
            9,
            "GEOMETRYCOLLECTION(",
            "POINT(1 2)",
            ")",
            Err(WktError::TooDeep),
        ),
        (
            8,
            "GEOMETRYCOLLECTION(",
            "GEOMETRYCOLLECTION EMPTY",
            ")",
            Err(WktError::TooDeep),
        ),
        (1, "LINESTRING(", "1 2", ")", Ok((0, 1, 1, 0, 0, 0))),
    ];
    for (count, front, middle, back, want) in cases {
        let text = nested(rt.alloc(), count, front, middle, back)?;
        assert_eq!(rt; found(rt.alloc(), &text), want);
    }
    Ok(())
}

/// A line of so many points.
fn line(alloc: Global, points: u64) -> Result<Vec<u8>, AllocError> {
    let mut text = Vec::new(alloc);
    text.extend_from_slice(b"LINESTRING(1 2")?;
    for _ in 1..points {
        text.extend_from_slice(b",1 2")?;
    }
    text.push(b')')?;
    Ok(text)
}

#[test]
fn a_million_vertices_are_read(rt: HostRuntime) -> Result<(), Fail> {
    let most = line(rt.alloc(), 1_000_000)?;
    assert_eq!(rt; found(rt.alloc(), &most), Ok((0, 1, 1_000_000, 0, 0, 0)));
    let more = line(rt.alloc(), 1_000_001)?;
    assert_eq!(rt; found(rt.alloc(), &more), Err(WktError::TooMany));
    Ok(())
}

#[test]
fn members_come_in_reading_order(rt: HostRuntime) {
    let text =
        "GEOMETRYCOLLECTION(POINT(1 2),GEOMETRYCOLLECTION(POINT(3 4)),MULTIPOINT(5 6 7,(8 9)))";
    for (at, want) in [(1, 2), (3, 4), (5, 6), (8, 9)].iter().enumerate() {
        assert_eq!(rt; point_at(rt.alloc(), text.as_bytes(), at), Some(*want));
    }
}

/// The first point of the first line of a text.
fn first_of_line(alloc: Global, text: &[u8]) -> Option<(i64, i64)> {
    let Ok(geometry) = read(alloc, text) else {
        return None;
    };
    let line = geometry.lines().first()?;
    let point = line.get(0)?;
    Some((point.x, point.y))
}

#[test]
fn coordinates_of_lines_are_read(rt: HostRuntime) {
    let cases = [
        ("LINESTRING(12.5 -0.125,0 0)", (12_500_000, -125_000)),
        ("LINESTRING(-7 8.,0 0)", (-7_000_000, 8_000_000)),
        (
            "LINESTRING(999999999.999999 -999999999.999999,0 0)",
            (999_999_999_999_999, -999_999_999_999_999),
        ),
        (
            "LINESTRING(1000000000 0000000001,0 0)",
            (1_000_000_000_000_000, 1_000_000),
        ),
        ("LINESTRING(0.1234565 -0.0000004,0 0)", (123_457, 0)),
        ("LINESTRING(.5 +2e1,0 0)", (500_000, 20_000_000)),
    ];
    for (text, want) in cases {
        assert_eq!(rt;
            first_of_line(rt.alloc(), text.as_bytes()),
            Some(want),
            "at {text}"
        );
    }
}
