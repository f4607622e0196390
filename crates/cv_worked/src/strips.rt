//! Strips at the sides of a view: the pixels that the whole image has there.

ghost use Rattle.std.specs.Prelude.{◌≡◌, ◌<◌};

use crate::layers::{fill, piece, single};
use crate::marks_of;
use cv_geom::Steps;
use cv_layer::{LayerInput, Piece, Rect, Strips};
use cv_model::Rgba;
use cv_outside::Never;
use cv_paint::paint_strips;
use std::alloc::{AllocError, Global};
use std::marker::Brand;
use std::sync::ledger::{Blank, Ledger};
use std::test::Fail;

const RED: Rgba = Rgba {
    r: 255,
    g: 0,
    b: 0,
    a: 255,
};

/// The lower right half of a view of four by four: `...r`, `..rr`, `.rrr`, `rrrr`.
const HALF: &str = "wkt\nPOLYGON((0 0,4 0,4 4))\n";

/// The marks of a rectangle of a piece, row by row from its top.
fn strip_of<L: Ledger>(
    alloc: Global,
    piece: &Piece,
    rect: Rect,
    blank: Blank,
) -> Result<String, Fail>
    requires name { blank.name ≡ L.name }
    requires parts { blank.parts ≡ L.parts }
    requires some { 0 < L.parts }
{
    let view = piece.view;
    if rect.i > view.w || rect.w > view.w - rect.i || rect.j > view.h || rect.h > view.h - rect.j {
        return Err(Fail::from(AllocError));
    }
    let strips = Strips {
        first: Some(rect),
        second: None,
    };
    let mut steps = Steps::<L>::of(blank);
    let painted = paint_strips(alloc, piece, &strips, &mut Never, &mut steps)?;
    Ok(marks_of(alloc, painted.pixels().as_slice())?)
}

/// The marks of a rectangle of the lower right half.
fn half_in(alloc: Global, i: u32, j: u32, w: u32, h: u32) -> Result<String, Fail> {
    let own = single(alloc, 1, HALF, fill(RED), None)?;
    let piece = piece(alloc, LayerInput::of(own, None, None), 4, 4)?;
    strip_of::<Brand>(alloc, &piece, Rect { i, j, w, h }, Blank::new(1))
}

#[test]
fn a_strip_at_each_side_has_its_pixels(rt: HostRuntime) -> Result<(), Fail> {
    let alloc = rt.alloc();
    let left = half_in(alloc, 0, 0, 1, 4)?;
    assert_eq!(rt; left.as_str(), "...r");
    let right = half_in(alloc, 3, 0, 1, 4)?;
    assert_eq!(rt; right.as_str(), "rrrr");
    let top = half_in(alloc, 0, 0, 4, 1)?;
    assert_eq!(rt; top.as_str(), "...r");
    let bottom = half_in(alloc, 0, 2, 3, 2)?;
    assert_eq!(rt; bottom.as_str(), ".rrrrr");
    Ok(())
}

#[test]
fn a_strip_without_pixels_has_none(rt: HostRuntime) -> Result<(), Fail> {
    let alloc = rt.alloc();
    let none = half_in(alloc, 4, 0, 0, 4)?;
    assert_eq!(rt; none.as_str(), "");
    Ok(())
}
