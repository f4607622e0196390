//! Random layers, from seeds: painted by runs as by testing each feature at each pixel centre.

ghost use Rattle.std.specs.Prelude.{◌≡◌, IfOk};

use crate::layers::{piece, single};
use crate::marks;
use cv_layer::{LayerInput, Piece, SharedLayer};
use cv_model::{Marker, NoMemory, Pen, Rgba, Shape, Symbol};
use cv_outside::Never;
use cv_paint::{paint, plain};
use std::alloc::Global;
use std::test::Fail;

/// A number up to 255, of the sequence that a seed determines.
pub fn next(seed: &mut u32) -> u8 {
    *seed = seed.wrapping_mul(1_664_525).wrapping_add(1_013_904_223);
    (*seed >> 24) as u8
}

/// Puts a number from -9.5 to 9.5 behind a text.
fn push_number(text: &mut String, seed: &mut u32) -> Result<(), NoMemory> {
    if next(seed) < 40 {
        text.push('-')?;
    }
    text.push(char::from(b'0' + next(seed) % 10))?;
    text.push_str(if next(seed) < 128 { ".5" } else { ".25" })
}

/// Puts so many points behind a text.
fn push_points(text: &mut String, seed: &mut u32, count: u8) -> Result<(), NoMemory> {
    for k in 0..count {
        if k > 0 {
            text.push(',')?;
        }
        push_number(text, seed)?;
        text.push(' ')?;
        push_number(text, seed)?;
    }
    Ok(())
}

/// Puts a list of points in parentheses behind a text, and what stands before and behind it.
fn push_list(
    text: &mut String,
    seed: &mut u32,
    before: &str,
    count: u8,
    behind: &str,
) -> Result<(), NoMemory> {
    text.push_str(before)?;
    text.push('(')?;
    push_points(text, seed, count)?;
    text.push(')')?;
    text.push_str(behind)
}

/// Puts several polygons, one of which has a hole, several lines and several points behind a text.
fn push_several(text: &mut String, seed: &mut u32) -> Result<(), NoMemory> {
    text.push_str("GEOMETRYCOLLECTION(MULTIPOLYGON(((1 0,8 0,8 6,1 6)")?;
    push_list(text, seed, ",", 4, "),")?;
    push_list(text, seed, "(", 4, "),")?;
    push_list(text, seed, "(", 3, ")),")?;
    push_list(text, seed, "MULTILINESTRING(", 2, ",")?;
    push_list(text, seed, "", 3, "),")?;
    push_list(text, seed, "MULTIPOINT", 2, ")")
}

/// Puts a line and two points behind a text.
fn push_thin(text: &mut String, seed: &mut u32) -> Result<(), NoMemory> {
    push_list(text, seed, "GEOMETRYCOLLECTION(LINESTRING", 2, ",")?;
    push_list(text, seed, "MULTIPOINT", 2, ")")
}

/// Puts a geometry behind a text: none, an empty one, several parts of each kind, a line and points, or a
/// polygon with two rings, a line and a point.
pub fn push_geometry(text: &mut String, seed: &mut u32) -> Result<(), NoMemory> {
    match next(seed) % 8 {
        0 => Ok(()),
        1 => text.push_str("MULTIPOLYGON EMPTY"),
        2 => push_several(text, seed),
        3..=5 => push_thin(text, seed),
        _ => push_each(text, seed),
    }
}

/// Puts a polygon with two rings, a line and a point behind a text.
fn push_each(text: &mut String, seed: &mut u32) -> Result<(), NoMemory> {
    text.push_str("GEOMETRYCOLLECTION(POLYGON((")?;
    push_points(text, seed, 5)?;
    text.push_str("),(")?;
    push_points(text, seed, 3)?;
    text.push_str(")),LINESTRING(")?;
    push_points(text, seed, 3)?;
    text.push_str("),POINT(")?;
    push_points(text, seed, 1)?;
    text.push_str("))")
}

/// A text of one to three features.
fn features(alloc: Global, seed: &mut u32) -> Result<String, NoMemory> {
    let mut text = String::from_str(alloc, "wkt\n")?;
    let count = 1 + next(seed) % 3;
    for _ in 0..count {
        push_geometry(&mut text, seed)?;
        text.push('\n')?;
    }
    Ok(text)
}

/// A colour of half the alpha.
fn half(r: u8, g: u8, b: u8) -> Rgba {
    Rgba { r, g, b, a: 128 }
}

/// One colour for all strokes, opaque or of half the alpha, or none.
fn ink(seed: &mut u32) -> Option<Rgba> {
    match next(seed) % 3 {
        0 => None,
        1 => Some(half(0, 0, 255)),
        _ => Some(Rgba {
            r: 0,
            g: 255,
            b: 0,
            a: 255,
        }),
    }
}

/// A pen of one pixel, or of 5 to 9.
fn pen(seed: &mut u32, colour: Rgba) -> Pen {
    if next(seed) < 160 {
        return Pen { colour, width: 1 };
    }
    let width = 5 + u32::from(next(seed) % 5);
    Pen { colour, width }
}

/// A fill below a pen below a marker: all of one colour, or red, green and blue, each of half the alpha.
pub fn all_parts(seed: &mut u32, shape: Shape) -> Symbol {
    let ink = ink(seed);
    Symbol {
        fill: Some(ink.unwrap_or(half(255, 0, 0))),
        pen: Some(pen(seed, ink.unwrap_or(half(0, 255, 0)))),
        marker: Some(Marker {
            shape,
            colour: ink.unwrap_or(half(0, 0, 255)),
            size: 3,
        }),
    }
}

/// A random mask layer.
pub fn mask(alloc: Global, seed: &mut u32) -> Result<SharedLayer, Fail>
    ensures id { IfOk result (λ made. made.core.id ≡ 3) }
{
    let text = features(alloc, seed)?;
    let symbol = all_parts(seed, Shape::Square);
    single(alloc, 3, text.as_str(), symbol, None)
}

/// What is to be painted of a random layer, through a random mask layer.
pub fn masked(alloc: Global, seed: &mut u32, shape: Shape) -> Result<Piece, Fail> {
    let symbol = all_parts(seed, shape);
    let own = single(alloc, 1, features(alloc, seed)?.as_str(), symbol, Some(3))?;
    let mask = mask(alloc, seed)?;
    piece(alloc, LayerInput::of(own, Some(mask), None), 9, 7)
}

/// What is to be painted of a random layer without mask.
pub fn alone(alloc: Global, seed: &mut u32, shape: Shape) -> Result<Piece, Fail> {
    let symbol = all_parts(seed, shape);
    let own = single(alloc, 1, features(alloc, seed)?.as_str(), symbol, None)?;
    piece(alloc, LayerInput::of(own, None, None), 9, 7)
}

/// How many pixels of a piece are the same by both painters, and how many aren't clear.
pub fn agreement(alloc: Global, piece: &Piece) -> Result<(usize, usize), Fail> {
    let by_runs = paint(alloc, piece, &mut Never)?;
    let by_tests = plain(alloc, piece, &mut Never)?;
    let (mut same, mut seen) = (0usize, 0usize);
    let both = by_runs
        .image()
        .pixels()
        .as_slice()
        .iter()
        .zip(by_tests.image().pixels().as_slice());
    for (one, other) in both {
        same = same.saturating_add(usize::from(one == other));
        seen = seen.saturating_add(usize::from(one.a > 0));
    }
    Ok((same, seen))
}

/// The marks of an input's pixels by `paint`, and whether `plain` gives the same pixels.
pub fn agreed(
    alloc: Global,
    input: LayerInput,
    across: u16,
    upwards: u16,
) -> Result<(String, bool), Fail> {
    let piece = piece(alloc, input, across, upwards)?;
    let (same, _) = agreement(alloc, &piece)?;
    let painted = paint(alloc, &piece, &mut Never)?;
    let all = usize::from(across) * usize::from(upwards);
    Ok((marks(alloc, painted.image())?, same == all))
}

#[test]
fn random_layers_are_painted_as_by_centres(rt: HostRuntime) -> Result<(), Fail> {
    let alloc = rt.alloc();
    let (mut seed, mut shown) = (21, 0usize);
    for _ in 0..20 {
        let piece = alone(alloc, &mut seed, Shape::Circle)?;
        let (same, seen) = agreement(alloc, &piece)?;
        assert_eq!(rt; same, 63);
        shown = shown.saturating_add(seen);
    }
    assert!(rt; shown > 0);
    Ok(())
}

#[test]
fn random_masks_show_what_they_show_by_centres(rt: HostRuntime) -> Result<(), Fail> {
    let alloc = rt.alloc();
    let mut seed = 22;
    for _ in 0..20 {
        let piece = masked(alloc, &mut seed, Shape::Diamond)?;
        let (same, _) = agreement(alloc, &piece)?;
        assert_eq!(rt; same, 63);
    }
    Ok(())
}
