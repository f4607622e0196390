//! Colours of two alphas laid in turn over pixels of several alphas.
ghost use Rattle.std.specs.Prelude.{◌≡◌};

use crate::{Canvas, PixelCanvas};
use cv_geom::Run;
use cv_model::Rgba;
use std::test::Fail;

const HALF: Rgba = Rgba {
    r: 200,
    g: 100,
    b: 0,
    a: 128,
};

const QUARTER: Rgba = Rgba {
    r: 10,
    g: 20,
    b: 30,
    a: 64,
};

/// A run in the first row.
fn across(from: u32, end: u32) -> Run
    ensures { result ≡ record { row = 0; from = from; end = end } }
{
    Run { row: 0, from, end }
}

// By source-over in whole numbers, with c = 255 sa + ba (255 - sa), a channel is
// (255 sa cs + ba (255 - sa) cb) / c and the alpha c / 255, each to the nearest. So the quarter comes to
// (124, 68, 12, 160) over the half, the half over that to (171, 88, 5, 208), and over the quarter alone to
// (162, 84, 6, 160). The quarter at last comes to (109, 62, 14, 184) over the latter, and over two halves,
// whose alpha is 192, to (141, 75, 9, 208).
#[test]
fn alphas_change_in_turn(rt: HostRuntime) -> Result<(), Fail> {
    let mut canvas = PixelCanvas::new(rt.alloc(), 3, 1)?;
    canvas.lay(across(0, 2), HALF);
    canvas.lay(across(1, 3), QUARTER);
    canvas.lay(across(0, 3), HALF);
    let mut row = [HALF; 3];
    canvas.row(0, &mut row);
    assert_eq!(rt; (row[0].r, row[0].a), (200, 192));
    assert_eq!(rt; (row[1].r, row[1].g, row[1].b, row[1].a), (171, 88, 5, 208));
    assert_eq!(rt; (row[2].r, row[2].g, row[2].b, row[2].a), (162, 84, 6, 160));
    canvas.lay(across(0, 3), QUARTER);
    canvas.row(0, &mut row);
    assert_eq!(rt; (row[0].r, row[0].g, row[0].b, row[0].a), (141, 75, 9, 208));
    assert_eq!(rt;
        (row[2].r, row[2].g, row[2].b, row[2].a),
        (109, 62, 14, 184)
    );
    Ok(())
}
