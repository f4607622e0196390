//! Worked values of views and tests.

use crate::{ViewError, centre, inside, marked, near, pan, view_of, zoom};
use cv_model::{Extent, NoMemory, Point, Polygon, Ring, Shape, View};
use std::alloc::Global;
use std::test::Fail;

/// 10^15.
const FAR: i64 = 1_000_000_000_000_000;

/// The view of the extent 0 0 4 4 at 4 by 4 pixels.
const FOUR_BY_FOUR: View = View {
    lx2: 0,
    ty2: 8_000_000,
    u: 1_000_000,
    w: 4,
    h: 4,
};

/// A view's parts, for comparisons.
fn parts(view: Result<View, ViewError>) -> Result<(i64, i64, i64, u32, u32), ViewError> {
    let view = view?;
    Ok((view.lx2, view.ty2, view.u, view.w, view.h))
}

/// The point at so many half units.
fn at(x: i8, y: i8) -> Point {
    Point {
        x: i64::from(x) * 500_000,
        y: i64::from(y) * 500_000,
    }
}

fn ring(alloc: Global, points: &[Point]) -> Result<Ring, NoMemory> {
    let mut ring = Ring::new(alloc);
    for point in points {
        match ring.push(*point) {
            Ok(()) => {}
            Err(refused) => return Err(refused.1),
        }
    }
    Ok(ring)
}

#[test]
fn views_of_extents(rt: HostRuntime) {
    let whole = Extent {
        xmin: -FAR,
        ymin: -FAR,
        xmax: FAR,
        ymax: FAR,
    };
    let odd = Extent {
        xmin: -FAR + 1,
        ymin: -FAR,
        xmax: FAR,
        ymax: FAR,
    };
    let empty = Extent {
        xmin: FAR,
        ymin: -FAR,
        xmax: FAR,
        ymax: FAR,
    };
    let four = Extent {
        xmin: 0,
        ymin: 0,
        xmax: 4_000_000,
        ymax: 4_000_000,
    };
    let table = [
        (whole, 2, 1, Ok((-4 * FAR, 2 * FAR, 2 * FAR, 2, 1))),
        (odd, 2, 1, Err(ViewError::Range)),
        (empty, 2, 1, Err(ViewError::Empty)),
        (whole, 0, 1, Err(ViewError::Size)),
        (four, 4, 4, Ok((0, 8_000_000, 1_000_000, 4, 4))),
    ];
    for (extent, w, h, want) in table {
        assert_eq!(rt; parts(view_of(extent, w, h)), want, "at {w} by {h}");
    }
}

#[test]
fn views_moved_and_scaled(rt: HostRuntime) {
    let view = View {
        lx2: -4 * FAR,
        ty2: 2 * FAR,
        u: 2 * FAR,
        w: 2,
        h: 1,
    };
    assert_eq!(rt; parts(pan(&view, 1, 0)), Err(ViewError::Range));
    assert_eq!(rt; parts(zoom(&view, 1, 2)), Ok((-2 * FAR, FAR, FAR, 2, 1)));
    assert_eq!(rt;
        parts(pan(&FOUR_BY_FOUR, 1, -1)),
        Ok((2_000_000, 10_000_000, 1_000_000, 4, 4))
    );
}

#[test]
fn a_polygon_with_a_hole(rt: HostRuntime) -> Result<(), Fail> {
    let alloc = rt.alloc();
    let shell = ring(alloc, &[at(0, 0), at(8, 0), at(8, 8), at(0, 8), at(0, 0)])?;
    let hole = ring(alloc, &[at(3, 1), at(5, 3), at(3, 5), at(1, 3), at(3, 1)])?;
    let mut polygon = Polygon::new(alloc);
    polygon.push(shell).map_err(|refused| refused.1)?;
    polygon.push(hole).map_err(|refused| refused.1)?;
    let rows = [b"####", b"####", b"..##", b"####"];
    for j in 0..4 {
        for i in 0..4 {
            let p = centre(&FOUR_BY_FOUR, i, j);
            let want = rows[j as usize][i as usize] == b'#';
            assert_eq!(rt; inside(&polygon, p), want, "at {i} {j}");
        }
    }
    Ok(())
}

#[test]
fn a_pen_of_one_pixel(rt: HostRuntime) {
    let table = [
        (at(1, 4), at(5, 4), [b"....", b"###.", b"###.", b"...."]),
        (at(3, 3), at(3, 3), [b"....", b"....", b".#..", b"...."]),
        (at(2, 2), at(2, 2), [b"....", b"....", b"##..", b"##.."]),
    ];
    for (a, b, rows) in table {
        for j in 0..4 {
            for i in 0..4 {
                let p = centre(&FOUR_BY_FOUR, i, j);
                let want = rows[j as usize][i as usize] == b'#';
                assert_eq!(rt; near(a, b, p, 1_000_000), want, "at {i} {j}");
            }
        }
    }
}

#[test]
fn markers_of_five_steps(rt: HostRuntime) {
    let table = [
        (3, 4, true, false, true),
        (4, 4, true, false, false),
        (5, 0, true, true, true),
        (0, -5, true, true, true),
        (-3, 2, true, true, true),
        (6, 0, false, false, false),
    ];
    for (dx, dy, square, diamond, circle) in table {
        let p = cv_model::Point2 { x: dx, y: dy };
        assert_eq!(rt;
            marked(Shape::Square, at(0, 0), p, 5),
            square,
            "square {dx} {dy}"
        );
        assert_eq!(rt;
            marked(Shape::Diamond, at(0, 0), p, 5),
            diamond,
            "diamond {dx} {dy}"
        );
        assert_eq!(rt;
            marked(Shape::Circle, at(0, 0), p, 5),
            circle,
            "circle {dx} {dy}"
        );
    }
}
