//! What no clause says: each call that takes memory can answer, and a list works at a type that must be
//! dropped.
use crate::{Cell, CellList, Point, Polygon, Rgb, RgbList, Ring, Text, View, pan_of};
use std::test::Fail;

const RED: Rgb = Rgb { r: 255, g: 0, b: 0 };

const BLUE: Rgb = Rgb { r: 0, g: 0, b: 255 };

#[test]
fn a_list_takes_items(rt: HostRuntime) -> Result<(), Fail> {
    let mut colours = RgbList::with_room(rt.alloc(), 1)?;
    assert_eq!(rt; colours.len(), 0);
    colours.put(RED)?;
    colours.push(BLUE)?;
    assert_eq!(rt; colours.as_slice(), [RED, BLUE].as_slice());
    for (at, want) in [(0, Some(&RED)), (1, Some(&BLUE)), (2, None)] {
        assert_eq!(rt; colours.get(at), want, "at {at}");
    }
    Ok(())
}

#[test]
fn a_list_of_cells_takes_each_value(rt: HostRuntime) -> Result<(), Fail> {
    let mut cells = CellList::with_room(rt.alloc(), 1)?;
    for cell in [Cell::Void, Cell::Value(i64::MIN), Cell::Value(-1)] {
        cells.put(cell)?;
    }
    let copy = cells.copy(rt.alloc())?;
    assert_eq!(rt; copy.get(0), Some(Cell::Void));
    assert_eq!(rt; copy.get(1), Some(Cell::Value(i64::MIN)));
    assert_eq!(rt; copy.get(2), Some(Cell::Value(-1)));
    assert_eq!(rt; copy.get(3), None);
    Ok(())
}

#[test]
fn a_polygon_takes_rings(rt: HostRuntime) -> Result<(), Fail> {
    let alloc = rt.alloc();
    let mut polygon = Polygon::new(alloc);
    for count in 0..3 {
        let mut ring = Ring::new(alloc);
        for _ in 0..count {
            ring.put(Point {
                x: 1_000_000,
                y: -1,
            })?;
        }
        polygon.put(ring)?;
    }
    for (at, want) in [(0, Some(0)), (1, Some(1)), (2, Some(2)), (3, None)] {
        assert_eq!(rt; polygon.get(at).map(|ring| ring.len()), want, "at {at}");
    }
    Ok(())
}

#[test]
fn a_text_is_copied(rt: HostRuntime) -> Result<(), Fail> {
    let text = Text::of(rt.alloc(), "Grünau 4")?;
    assert_eq!(rt; text.as_str(), "Grünau 4");
    Ok(())
}

#[test]
fn a_pan_is_told_in_pixels(rt: HostRuntime) -> Result<(), Fail> {
    let (lx2, ty2, u, w, h) = (0, 0, 500_000, 10, 8);
    let old = View { lx2, ty2, u, w, h };
    let new = View {
        lx2: 3_000_000,
        ty2: 2_000_000,
        ..old
    };
    let half = View {
        lx2: 500_000,
        ..old
    };
    let larger = View { h: 9, ..old };
    let coarser = View {
        u: 1_000_000,
        ..old
    };
    assert_eq!(rt; pan_of(&old, &new), Some((3, -2)));
    for other in [half, larger, coarser] {
        assert_eq!(rt; pan_of(&old, &other), None);
    }
    Ok(())
}
