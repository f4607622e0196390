//! The stop: a painting is given up at whichever poll it says yes, and is whole where it says none.

ghost use Rattle.std.specs.Prelude.{◌≡◌, ◌<◌};

use crate::grids::letters;
use crate::layers::{fill, grid, pen, piece, single};
use cv_geom::Steps;
use cv_layer::{LayerInput, Piece, Rect, Strips};
use cv_model::Rgba;
use cv_outside::After;
use cv_paint::{PaintError, paint, paint_strips, plain};
use std::alloc::{AllocError, Global};
use std::marker::Brand;
use std::sync::ledger::{Blank, Ledger};
use std::test::Fail;

const RED: Rgba = Rgba {
    r: 255,
    g: 0,
    b: 0,
    a: 255,
};

/// All of a view of four by four.
const ALL: &str = "wkt\nPOLYGON((0 0,4 0,4 4,0 4,0 0))\n";

/// Who paints: by runs, by testing each feature at each centre, or by runs in two strips.
#[derive(Clone, Copy)]
enum Painter {
    Runs,
    Centres,
    TwoStrips,
}

/// Whether a painting was whole and not stopped. A want of memory is a failure.
fn is_whole(error: Option<PaintError>) -> Result<bool, Fail> {
    match error {
        None => Ok(true),
        Some(PaintError::Stopped) => Ok(false),
        Some(PaintError::NoMemory) => Err(Fail::from(AllocError)),
    }
}

/// Whether `paint` is whole with a yes from the `n`-th poll on.
fn by_runs(alloc: Global, piece: &Piece, n: u64) -> Result<bool, Fail> {
    match paint(alloc, piece, &mut After::new(n)) {
        Ok(_) => is_whole(None),
        Err(error) => is_whole(Some(error)),
    }
}

/// Whether `plain` is whole with a yes from the `n`-th poll on.
fn by_centres(alloc: Global, piece: &Piece, n: u64) -> Result<bool, Fail> {
    match plain(alloc, piece, &mut After::new(n)) {
        Ok(_) => is_whole(None),
        Err(error) => is_whole(Some(error)),
    }
}

/// The first row of a view of four by four, and the right half of the others.
const STRIPS: Strips = Strips {
    first: Some(Rect {
        i: 0,
        j: 0,
        w: 4,
        h: 1,
    }),
    second: Some(Rect {
        i: 2,
        j: 1,
        w: 2,
        h: 3,
    }),
};

/// Whether `paint_strips` is whole with a yes from the `n`-th poll on.
fn by_strips<L: Ledger>(alloc: Global, piece: &Piece, n: u64, blank: Blank) -> Result<bool, Fail>
    requires name { blank.name ≡ L.name }
    requires parts { blank.parts ≡ L.parts }
    requires some { 0 < L.parts }
{
    if piece.view.w < 4 || piece.view.h < 4 {
        return Err(Fail::from(AllocError));
    }
    let mut steps = Steps::<L>::of(blank);
    match paint_strips(alloc, piece, &STRIPS, &mut After::new(n), &mut steps) {
        Ok(_) => is_whole(None),
        Err(error) => is_whole(Some(error)),
    }
}

/// Whether a painting is whole with a yes from the `n`-th poll on.
fn is_whole_with(alloc: Global, painter: Painter, piece: &Piece, n: u64) -> Result<bool, Fail> {
    match painter {
        Painter::Runs => by_runs(alloc, piece, n),
        Painter::Centres => by_centres(alloc, piece, n),
        Painter::TwoStrips => by_strips::<Brand>(alloc, piece, n, Blank::new(1)),
    }
}

/// How many polls a painting is given up at: those before the first at which a yes comes too late.
fn polls(alloc: Global, painter: Painter, piece: &Piece) -> Result<u64, Fail> {
    for n in 1..50 {
        if is_whole_with(alloc, painter, piece, n)? {
            return Ok(n - 1);
        }
    }
    Ok(50)
}

/// How many polls each painter is given up at: by runs, by centres, and in two strips.
fn all_polls(alloc: Global, input: LayerInput) -> Result<(u64, u64, u64), Fail> {
    let piece = piece(alloc, input, 4, 4)?;
    let by_runs = polls(alloc, Painter::Runs, &piece)?;
    let by_centres = polls(alloc, Painter::Centres, &piece)?;
    let in_strips = polls(alloc, Painter::TwoStrips, &piece)?;
    Ok((by_runs, by_centres, in_strips))
}

#[test]
fn a_text_layer_is_given_up_at_each_row_and_run_of_features(rt: HostRuntime) -> Result<(), Fail> {
    let alloc = rt.alloc();
    let own = single(alloc, 1, ALL, fill(RED), None)?;
    let polls = all_polls(alloc, LayerInput::of(own, None, None))?;
    assert_eq!(rt; polls, (5, 4, 6));
    Ok(())
}

#[test]
fn a_masked_layer_is_given_up_at_each_row_and_run_of_features(rt: HostRuntime) -> Result<(), Fail> {
    let alloc = rt.alloc();
    let own = single(alloc, 1, ALL, fill(RED), Some(3))?;
    let mask = single(alloc, 3, ALL, pen(RED), None)?;
    let polls = all_polls(alloc, LayerInput::of(own, Some(mask), None))?;
    assert_eq!(rt; polls, (6, 4, 8));
    Ok(())
}

#[test]
fn a_grid_is_given_up_at_each_row(rt: HostRuntime) -> Result<(), Fail> {
    let alloc = rt.alloc();
    let text = "ncols 1 nrows 1 xllcorner 0 yllcorner 0 cellsize 4 1";
    let own = grid(alloc, 1, text, letters(alloc)?, None)?;
    let polls = all_polls(alloc, LayerInput::of(own, None, None))?;
    assert_eq!(rt; polls, (4, 4, 4));
    Ok(())
}
