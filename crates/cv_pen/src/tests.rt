//! Worked runs, and random segments and points against the test of each centre.

ghost use Rattle.std.specs.Prelude.{◌≡◌, ◌<◌};
ghost use Rattle.cv_model.specs.Pens.{IsRadius};
ghost use Rattle.cv_geom.specs.Runs.{IsArea};
ghost use Rattle.cv_pen.specs.Strokes.{IsPenWidth};

use crate::strokes::half_side;
use crate::{line_runs, marker, marker_runs, ring_runs, stroke};
use cv_geom::{Area, Runs, Steps, centre, marked, near};
use cv_model::{Line, NoMemory, Point, Point2, Polygon, Ring, Shape, Span, View};
use std::alloc::Global;
use std::marker::Brand;
use std::process::Abort;
use std::sync::ledger::{Blank, Ledger};
use std::test::Fail;

/// 10^15.
const FAR: i64 = 1_000_000_000_000_000;

/// The view of the extent 0 0 4 4 at 4 by 4 pixels.
const FOUR_BY_FOUR: View = View {
    lx2: 0,
    ty2: 8_000_000,
    u: 1_000_000,
    w: 4,
    h: 4,
};

/// Pixels of a millionth, whose centres lie on whole millionths.
const FINEST: View = View {
    lx2: -1,
    ty2: 15,
    u: 1,
    w: 9,
    h: 8,
};

/// The greatest pixels, whose centres lie at the limits of coordinates.
const COARSEST: View = View {
    lx2: -4 * FAR,
    ty2: 4 * FAR,
    u: 2 * FAR,
    w: 2,
    h: 2,
};

/// The point at so many half units.
fn at(x: i8, y: i8) -> Point {
    Point {
        x: i64::from(x) * 500_000,
        y: i64::from(y) * 500_000,
    }
}

/// The next number of a sequence, from 0 to 2^31 - 1.
fn next(seed: &mut u64) -> u64 {
    *seed = seed
        .wrapping_mul(6_364_136_223_846_793_005)
        .wrapping_add(1_442_695_040_888_963_407);
    *seed >> 33
}

/// A point on or beside the centres of one of the three views.
fn point(kind: u8, a: u64, b: u64) -> Point {
    match kind {
        0 => Point {
            x: (a % 13) as i64 * 500_000 - 1_000_000,
            y: (b % 13) as i64 * 500_000 - 1_000_000,
        },
        1 => Point {
            x: (a % 11) as i64 - 1,
            y: (b % 11) as i64 - 1,
        },
        _ => Point {
            x: (a % 3) as i64 * FAR - FAR,
            y: (b % 5) as i64 * (FAR / 2) - FAR,
        },
    }
}

/// Whether a column lies in a run.
fn covers(run: Option<Span>, i: u32) -> bool {
    match run {
        Some(span) => span.from <= i && i < span.end,
        None => false,
    }
}

/// Asserts that the runs of a pen have exactly the columns whose centres it hits.
fn assert_stroke(rt: &impl Abort, a: Point, b: Point, width: u8, view: &View) {
    let size = u32::from(width % 64) + 1;
    let r = half_side(view, size);
    for row in 0..view.h {
        let run = stroke(a, b, size, view, row);
        for i in 0..view.w {
            let want = near(a, b, centre(view, i, row), r);
            assert_eq!(rt; covers(run, i), want, "at {i} {row}");
        }
    }
}

/// Asserts that the runs of a marker have exactly the columns whose centres it covers.
fn assert_marker(rt: &impl Abort, shape: Shape, middle: Point, size: u8, view: &View) {
    let size = u32::from(size) + 1;
    let r = half_side(view, size);
    for row in 0..view.h {
        let run = marker(shape, middle, size, view, row);
        for i in 0..view.w {
            let want = marked(shape, middle, centre(view, i, row), r);
            assert_eq!(rt; covers(run, i), want, "at {i} {row}");
        }
    }
}

/// Of what the runs of an area are asked.
#[derive(Clone, Copy)]
enum Drawn {
    Ring,
    Line,
    Circles,
}

/// All pixels of a view.
fn whole(view: &View) -> Area
    ensures { IsArea view.now.w view.now.h result }
{
    Area {
        columns: Span {
            from: 0,
            end: view.w,
        },
        rows: Span {
            from: 0,
            end: view.h,
        },
    }
}

fn polygon(alloc: Global, points: &[Point]) -> Result<Polygon, NoMemory> {
    let mut ring = Ring::new(alloc);
    for point in points {
        ring.put(*point)?;
    }
    let mut polygon = Polygon::new(alloc);
    polygon.put(ring)?;
    Ok(polygon)
}

fn line(alloc: Global, points: &[Point]) -> Result<Line, NoMemory> {
    let mut line = Line::new(alloc);
    for point in points {
        line.put(*point)?;
    }
    Ok(line)
}

/// The runs of a view that are drawn through some points, with a count that nobody reads.
fn runs_through<L: Ledger>(
    alloc: Global,
    what: Drawn,
    points: &[Point],
    size: u32,
    view: &View,
    blank: Blank,
) -> Result<Runs, NoMemory>
    requires size { IsPenWidth size }
    requires name { blank.name ≡ L.name }
    requires parts { blank.parts ≡ L.parts }
    requires some { 0 < L.parts }
{
    let mut runs = Runs::new(alloc);
    let mut steps = Steps::<L>::of(blank);
    let area = whole(view);
    match what {
        Drawn::Ring => {
            let polygons = [polygon(alloc, points)?];
            ring_runs(&polygons, size, view, area, &mut runs, &mut steps)?;
        }
        Drawn::Line => {
            let lines = [line(alloc, points)?];
            line_runs(&lines, size, view, area, &mut runs, &mut steps)?;
        }
        Drawn::Circles => {
            let circle = Shape::Circle;
            marker_runs(points, circle, size, view, area, &mut runs, &mut steps)?;
        }
    }
    Ok(runs)
}

/// Whether a position is hit by what is drawn through three points.
fn is_hit(what: Drawn, a: Point, b: Point, c: Point, r: i64, p: Point2) -> bool
    requires { IsRadius r }
{
    match what {
        Drawn::Ring => near(a, b, p, r) || near(b, c, p, r) || near(c, a, p, r),
        Drawn::Line => near(a, b, p, r) || near(b, c, p, r),
        Drawn::Circles => [a, b, c].iter().any(|at| marked(Shape::Circle, *at, p, r)),
    }
}

/// Whether a pixel lies on one of some runs.
fn is_on_any(runs: &Runs, i: u32, row: u32) -> bool {
    runs.as_slice()
        .iter()
        .any(|run| run.row == row && run.from <= i && i < run.end)
}

/// Asserts that the runs of a view have exactly its pixels whose centres are hit.
fn assert_drawn(
    rt: &impl Abort,
    alloc: Global,
    what: Drawn,
    a: Point,
    b: Point,
    c: Point,
    size: u8,
    view: &View,
) -> Result<(), NoMemory> {
    let size = u32::from(size % 64) + 1;
    let r = half_side(view, size);
    let found = runs_through::<Brand>(alloc, what, &[a, b, c], size, view, Blank::new(1))?;
    for row in 0..view.h {
        for i in 0..view.w {
            let want = is_hit(what, a, b, c, r, centre(view, i, row));
            assert_eq!(rt; is_on_any(&found, i, row), want, "at {i} {row}");
        }
    }
    Ok(())
}

#[test]
fn a_pen_of_one_pixel(rt: HostRuntime) {
    let table = [
        (at(1, 4), at(5, 4), 1, Some((0, 3))),
        (at(1, 4), at(5, 4), 0, None),
        (at(1, 4), at(5, 4), 2, Some((0, 3))),
        (at(3, 3), at(3, 3), 2, Some((1, 2))),
        (at(2, 2), at(2, 2), 2, Some((0, 2))),
        (at(2, 2), at(2, 2), 3, Some((0, 2))),
    ];
    for (a, b, row, want) in table {
        let found = stroke(a, b, 1, &FOUR_BY_FOUR, row).map(|s| (s.from, s.end));
        assert_eq!(rt; found, want, "in row {row}");
    }
}

#[test]
fn pens_and_markers_at_random(rt: HostRuntime) {
    let mut seed = 17;
    for (kind, view) in [(0, FOUR_BY_FOUR), (1, FINEST), (2, COARSEST)] {
        for size in [0u8, 1, 2, 63] {
            for _ in 0..60u8 {
                let (a, b) = (next(&mut seed), next(&mut seed));
                let first = point(kind, a, b);
                let (c, d) = (next(&mut seed), next(&mut seed));
                assert_stroke(&rt, first, point(kind, c, d), size, &view);
                for shape in [Shape::Square, Shape::Diamond, Shape::Circle] {
                    assert_marker(&rt, shape, first, size, &view);
                }
            }
        }
    }
}

#[test]
fn runs_through_points_at_random(rt: HostRuntime) -> Result<(), Fail> {
    let alloc = rt.alloc();
    let mut seed = 18;
    for (kind, view) in [(0, FOUR_BY_FOUR), (1, FINEST), (2, COARSEST)] {
        for size in 0..25u8 {
            let (a, b) = (next(&mut seed), next(&mut seed));
            let (c, d) = (next(&mut seed), next(&mut seed));
            let (from, to, last) = (point(kind, a, b), point(kind, c, d), point(kind, b, c));
            for what in [Drawn::Ring, Drawn::Line, Drawn::Circles] {
                assert_drawn(&rt, alloc, what, from, to, last, size, &view)?;
            }
        }
    }
    Ok(())
}
