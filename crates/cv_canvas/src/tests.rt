//! Worked rows of canvases that take one colour.
use crate::{Canvas, CountCanvas, Cover, OpaqueCanvas};
use cv_geom::Run;
use cv_model::Rgba;
use std::test::Fail;

const CLEAR: Rgba = Rgba {
    r: 0,
    g: 0,
    b: 0,
    a: 0,
};

const HALF: Rgba = Rgba {
    r: 200,
    g: 100,
    b: 0,
    a: 128,
};

const FULL: Rgba = Rgba {
    r: 200,
    g: 100,
    b: 0,
    a: 255,
};

#[test]
fn a_colour_lies_once_twice_and_nowhere(rt: HostRuntime) -> Result<(), Fail> {
    let mut canvas = CountCanvas::new(rt.alloc(), 3, 1, HALF)?;
    canvas.lay(
        Run {
            row: 0,
            from: 0,
            end: 2,
        },
        HALF,
    );
    canvas.lay(
        Run {
            row: 0,
            from: 1,
            end: 2,
        },
        HALF,
    );
    let mut row = [CLEAR; 3];
    canvas.row(0, &mut row);
    assert_eq!(rt; row[0], HALF);
    assert_eq!(rt; row[1].r, 200);
    assert_eq!(rt; row[1].a, 192);
    assert_eq!(rt; row[2], CLEAR);
    Ok(())
}

#[test]
fn an_opaque_colour_covers(rt: HostRuntime) -> Result<(), Fail> {
    let mut canvas = OpaqueCanvas::new(rt.alloc(), 3, 1, FULL)?;
    canvas.lay(
        Run {
            row: 0,
            from: 1,
            end: 2,
        },
        FULL,
    );
    let mut row = [HALF; 3];
    canvas.row(0, &mut row);
    assert_eq!(rt; row[0], CLEAR);
    assert_eq!(rt; row[1], FULL);
    assert_eq!(rt; row[2], CLEAR);
    Ok(())
}

#[test]
fn a_run_over_three_words_is_covered(rt: HostRuntime) -> Result<(), Fail> {
    let mut cover = Cover::new(rt.alloc(), 100, 2)?;
    cover.cover(Run {
        row: 1,
        from: 20,
        end: 100,
    });
    assert!(rt; !cover.is_covered(99, 0));
    assert!(rt; !cover.is_covered(19, 1));
    assert!(rt; cover.is_covered(20, 1));
    assert!(rt; cover.is_covered(60, 1));
    assert!(rt; cover.is_covered(99, 1));
    Ok(())
}
