//! Worked spans, and random polygons against the test of each centre.

ghost use Rattle.std.specs.Prelude.{◌≡◌, ◌<◌};
ghost use Rattle.cv_geom.specs.Runs.{IsArea};

use crate::{Scratch, fill_runs, spans};
use cv_geom::{Area, Runs, Steps, centre, inside};
use cv_model::{NoMemory, Point, Polygon, Ring, Span, Spans, View};
use std::alloc::Global;
use std::marker::Brand;
use std::process::Abort;
use std::sync::ledger::{Blank, Ledger};
use std::test::Fail;

/// 10^15.
const FAR: i64 = 1_000_000_000_000_000;

/// The view of the extent 0 0 4 4 at 4 by 4 pixels.
const FOUR_BY_FOUR: View = View {
    lx2: 0,
    ty2: 8_000_000,
    u: 1_000_000,
    w: 4,
    h: 4,
};

/// Pixels of a millionth, whose centres lie on whole millionths.
const FINEST: View = View {
    lx2: -1,
    ty2: 15,
    u: 1,
    w: 9,
    h: 8,
};

/// The greatest pixels, whose centres lie at the limits of coordinates.
const COARSEST: View = View {
    lx2: -4 * FAR,
    ty2: 4 * FAR,
    u: 2 * FAR,
    w: 2,
    h: 2,
};

/// The point at so many half units.
fn at(x: i8, y: i8) -> Point {
    Point {
        x: i64::from(x) * 500_000,
        y: i64::from(y) * 500_000,
    }
}

fn ring(alloc: Global, points: &[Point]) -> Result<Ring, NoMemory> {
    let mut ring = Ring::new(alloc);
    for point in points {
        ring.put(*point)?;
    }
    Ok(ring)
}

/// The next number of a sequence, from 0 to 2^31 - 1.
fn next(seed: &mut u64) -> u64 {
    *seed = seed
        .wrapping_mul(6_364_136_223_846_793_005)
        .wrapping_add(1_442_695_040_888_963_407);
    *seed >> 33
}

/// A point on or beside the centres of one of the three views.
fn point(kind: u8, a: u64, b: u64) -> Point {
    match kind {
        0 => Point {
            x: (a % 13) as i64 * 500_000 - 1_000_000,
            y: (b % 13) as i64 * 500_000 - 1_000_000,
        },
        1 => Point {
            x: (a % 11) as i64 - 1,
            y: (b % 11) as i64 - 1,
        },
        2 => Point {
            x: (a % 3) as i64 * FAR - FAR,
            y: (b % 5) as i64 * (FAR / 2) - FAR,
        },
        _ => Point {
            x: (a % 3) as i64 * FAR - FAR,
            y: (b % 11) as i64 - 1,
        },
    }
}

/// A polygon of two rings of up to seven points each.
fn polygon(alloc: Global, kind: u8, seed: &mut u64) -> Result<Polygon, NoMemory> {
    let mut polygon = Polygon::new(alloc);
    for _ in 0..2u8 {
        let mut ring = Ring::new(alloc);
        for _ in 0..next(seed) % 8 {
            let (a, b) = (next(seed), next(seed));
            ring.put(point(kind, a, b))?;
        }
        polygon.put(ring)?;
    }
    Ok(polygon)
}

/// Asserts that the spans of each row have exactly the columns whose centres are inside.
fn assert_spans(
    rt: &impl Abort,
    alloc: Global,
    polygon: &Polygon,
    view: &View,
) -> Result<(), NoMemory> {
    let mut found = Spans::new(alloc);
    for row in 0..view.h {
        spans(alloc, polygon, view, row, &mut found)?;
        for i in 0..view.w {
            let covered = found.as_slice().iter().any(|s| s.from <= i && i < s.end);
            let want = inside(polygon, centre(view, i, row));
            assert_eq!(rt; covered, want, "at {i} {row}");
        }
    }
    Ok(())
}

/// All pixels of a view.
fn whole(view: &View) -> Area
    ensures { IsArea view.now.w view.now.h result }
{
    Area {
        columns: Span {
            from: 0,
            end: view.w,
        },
        rows: Span {
            from: 0,
            end: view.h,
        },
    }
}

/// The pixels of a view but those of the first column and row.
fn part(view: &View) -> Area
    ensures { IsArea view.now.w view.now.h result }
{
    Area {
        columns: Span {
            from: 1,
            end: view.w,
        },
        rows: Span {
            from: 1,
            end: view.h,
        },
    }
}

/// The runs of an area inside polygons, with a count that nobody reads.
fn runs_in<L: Ledger>(
    alloc: Global,
    polygons: &[Polygon],
    view: &View,
    area: Area,
    blank: Blank,
) -> Result<Runs, NoMemory>
    requires area { IsArea view.now.w view.now.h area }
    requires name { blank.name ≡ L.name }
    requires parts { blank.parts ≡ L.parts }
    requires some { 0 < L.parts }
{
    let mut scratch = Scratch::new(alloc);
    let mut runs = Runs::new(alloc);
    let mut steps = Steps::<L>::of(blank);
    fill_runs(&mut scratch, polygons, view, area, &mut runs, &mut steps)?;
    Ok(runs)
}

/// Asserts that the runs of an area have exactly its pixels whose centres are inside.
fn assert_runs(
    rt: &impl Abort,
    alloc: Global,
    polygons: &[Polygon],
    view: &View,
    area: Area,
) -> Result<(), NoMemory>
    requires { IsArea view.now.w view.now.h area }
{
    let found = runs_in::<Brand>(alloc, polygons, view, area, Blank::new(1))?;
    for row in area.rows.from..area.rows.end {
        for i in area.columns.from..area.columns.end {
            let on = is_on_any(&found, i, row);
            let p = centre(view, i, row);
            let want = polygons.iter().any(|it| inside(it, p));
            assert_eq!(rt; on, want, "at {i} {row}");
        }
    }
    Ok(())
}

/// Whether a pixel lies on one of some runs.
fn is_on_any(runs: &Runs, i: u32, row: u32) -> bool {
    runs.as_slice()
        .iter()
        .any(|run| run.row == row && run.from <= i && i < run.end)
}

#[test]
fn spans_of_a_polygon_with_a_hole(rt: HostRuntime) -> Result<(), Fail> {
    let alloc = rt.alloc();
    let shell = ring(alloc, &[at(0, 0), at(8, 0), at(8, 8), at(0, 8), at(0, 0)])?;
    let hole = ring(alloc, &[at(3, 1), at(5, 3), at(3, 5), at(1, 3), at(3, 1)])?;
    let mut polygon = Polygon::new(alloc);
    polygon.put(shell)?;
    polygon.put(hole)?;
    let mut found = Spans::new(alloc);
    let table = [(1, 0, 4), (2, 2, 4), (1, 0, 4)];
    for (row, from, end) in table {
        spans(alloc, &polygon, &FOUR_BY_FOUR, row, &mut found)?;
        assert_eq!(rt; found.len(), 1);
        let span = *found.get(0).ok_or("no span")?;
        assert_eq!(rt; (span.from, span.end), (from, end), "in row {row}");
    }
    Ok(())
}

#[test]
fn spans_of_random_polygons(rt: HostRuntime) -> Result<(), Fail> {
    let alloc = rt.alloc();
    let mut seed = 17;
    for (kind, view) in [(0, FOUR_BY_FOUR), (1, FINEST), (2, COARSEST), (3, FINEST)] {
        for _ in 0..200u16 {
            let polygon = polygon(alloc, kind, &mut seed)?;
            assert_spans(&rt, alloc, &polygon, &view)?;
        }
    }
    Ok(())
}

#[test]
fn runs_of_random_polygons(rt: HostRuntime) -> Result<(), Fail> {
    let alloc = rt.alloc();
    let mut seed = 18;
    for (kind, view) in [(0, FOUR_BY_FOUR), (1, FINEST), (2, COARSEST), (3, FINEST)] {
        for _ in 0..100u16 {
            let first = polygon(alloc, kind, &mut seed)?;
            let polygons = [first, polygon(alloc, kind, &mut seed)?];
            assert_runs(&rt, alloc, &polygons, &view, whole(&view))?;
            assert_runs(&rt, alloc, &polygons, &view, part(&view))?;
        }
    }
    Ok(())
}

#[test]
fn runs_of_rectangles(rt: HostRuntime) -> Result<(), Fail> {
    let alloc = rt.alloc();
    let mut first = Polygon::new(alloc);
    first.put(ring(alloc, &[at(1, 3), at(5, 3), at(5, 7), at(1, 7), at(1, 3)])?)?;
    let mut second = Polygon::new(alloc);
    second.put(ring(alloc, &[at(3, 1), at(3, 6), at(8, 6), at(8, 1), at(3, 1)])?)?;
    let polygons = [first, second];
    assert_runs(&rt, alloc, &polygons, &FOUR_BY_FOUR, whole(&FOUR_BY_FOUR))?;
    assert_runs(&rt, alloc, &polygons, &FOUR_BY_FOUR, part(&FOUR_BY_FOUR))?;
    Ok(())
}
