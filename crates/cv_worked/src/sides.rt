//! Two strips at the sides of a view: the pixels that the whole image has there.

ghost use Rattle.std.specs.Prelude.{◌≡◌, ◌+◌, ◌<◌, ◌≤◌, true, IfSome};
ghost use Rattle.cv_paint.specs.Windows.{LiesInView, LieInView};

use crate::random::{alone, masked};
use cv_geom::Steps;
use cv_layer::{Piece, Rect, StripImages, Strips};
use cv_model::{Image, NoMemory, RgbaList, Shape, View};
use cv_outside::Never;
use cv_paint::{paint, paint_strips};
use std::alloc::{AllocError, Global};
use std::marker::Brand;
use std::sync::ledger::{Blank, Ledger};
use std::test::Fail;

/// Whether so many places from one on lie before another.
fn lie_before(from: u32, length: u32, end: u32) -> bool
    ensures { result ≡ true → from + length ≤ end }
{
    length <= end && from <= end - length
}

/// Whether a rectangle lies in a view.
fn lies_in(view: &View, rect: Rect) -> bool
    ensures { result ≡ true → LiesInView view.now rect }
{
    lie_before(rect.i, rect.w, view.w) && lie_before(rect.j, rect.h, view.h)
}

/// Two strips of a view, one above the other.
fn two_of(view: &View, first: Rect, second: Rect) -> Option<Strips>
    ensures { IfSome result (LieInView view.now) }
{
    if !lies_in(view, first) || !lies_in(view, second) {
        return None;
    }
    let is_above = lie_before(first.j, first.h, second.j);
    if !is_above && !lie_before(second.j, second.h, first.j) {
        return None;
    }
    Some(Strips {
        first: Some(first),
        second: Some(second),
    })
}

/// Two strips of a piece, painted.
fn painted<L: Ledger>(
    alloc: Global,
    piece: &Piece,
    first: Rect,
    second: Rect,
    blank: Blank,
) -> Result<StripImages, Fail>
    requires name { blank.name ≡ L.name }
    requires parts { blank.parts ≡ L.parts }
    requires some { 0 < L.parts }
{
    let Some(strips) = two_of(&piece.view, first, second) else {
        return Err(Fail::from(AllocError));
    };
    let mut steps = Steps::<L>::of(blank);
    Ok(paint_strips(alloc, piece, &strips, &mut Never, &mut steps)?)
}

/// Whether a rectangle has a pixel.
fn has(rect: Rect, i: u32, j: u32) -> bool {
    rect.i <= i && i - rect.i < rect.w && rect.j <= j && j - rect.j < rect.h
}

/// The column and the row of the pixel behind another one, in rows of a width.
fn behind(width: u32, i: u32, j: u32) -> (u32, u32) {
    let next = i.saturating_add(1);
    if next < width {
        (next, j)
    } else {
        (0, j.saturating_add(1))
    }
}

/// Puts the pixels of an image that lie in a rectangle behind others.
fn put_part(pixels: &mut RgbaList, image: &Image, rect: Rect) -> Result<(), NoMemory> {
    let mut at = (0, 0);
    for pixel in image.pixels().as_slice() {
        if has(rect, at.0, at.1) {
            pixels.put(*pixel)?;
        }
        at = behind(image.width(), at.0, at.1);
    }
    Ok(())
}

/// Whether two strips have the pixels of the whole image there, the first strip's before the second's, and
/// how many these are.
fn beside_whole(
    alloc: Global,
    piece: &Piece,
    first: Rect,
    second: Rect,
) -> Result<(bool, u64), Fail> {
    let whole = paint(alloc, piece, &mut Never)?;
    let mut wanted = RgbaList::new(alloc);
    put_part(&mut wanted, whole.image(), first)?;
    put_part(&mut wanted, whole.image(), second)?;
    let strips = painted::<Brand>(alloc, piece, first, second, Blank::new(1))?;
    let is_same = strips.pixels().as_slice() == wanted.as_slice();
    Ok((is_same, wanted.len()))
}

/// A rectangle.
fn rect(i: u32, j: u32, w: u32, h: u32) -> Rect {
    Rect { i, j, w, h }
}

/// Whether the strips at two sides are those of the whole image, in a view of nine by seven: two rows at the
/// top or the bottom, and behind them three columns at the left or the right of the rows that are left.
fn at_sides(alloc: Global, piece: &Piece, is_top: bool, is_left: bool) -> Result<bool, Fail> {
    let row = if is_top { 0 } else { 5 };
    let column = if is_left { 0 } else { 6 };
    let rows = rect(0, row, 9, 2);
    let columns = rect(column, 2 - row.min(2), 3, 5);
    let (is_same, count) = beside_whole(alloc, piece, rows, columns)?;
    Ok(is_same && count == 33)
}

/// Whether the strips at each pair of sides are those of the whole image.
fn at_all_sides(alloc: Global, piece: &Piece) -> Result<bool, Fail> {
    let north_west = at_sides(alloc, piece, true, true)?;
    let north_east = at_sides(alloc, piece, true, false)?;
    let south_west = at_sides(alloc, piece, false, true)?;
    let south_east = at_sides(alloc, piece, false, false)?;
    Ok(north_west && north_east && south_west && south_east)
}

#[test]
fn strips_at_two_sides_are_those_of_the_whole_image(rt: HostRuntime) -> Result<(), Fail> {
    let alloc = rt.alloc();
    let mut seed = 30;
    for _ in 0..5 {
        let layer = alone(alloc, &mut seed, Shape::Circle)?;
        let is_same = at_all_sides(alloc, &layer)?;
        assert!(rt; is_same);
        let masked = masked(alloc, &mut seed, Shape::Square)?;
        let is_same = at_all_sides(alloc, &masked)?;
        assert!(rt; is_same);
    }
    Ok(())
}
