//! A graduated layer: each feature by the first range that holds its number.

ghost use Rattle.std.specs.Prelude.{◌≡◌, false, IfOk};
ghost use Rattle.cv_model.specs.ProjectFiles.{is_ramp};

use crate::layers::{fill, layer, piece, single};
use crate::marks;
use crate::random::{agreement, all_parts, mask, next, push_geometry};
use cv_layer::{LayerInput, Piece};
use cv_model::{
    Field, Join, NoMemory, Range, RangeList, Rgba, Sequence, Shape, Style, Symbol, Text,
};
use cv_outside::Never;
use cv_paint::paint;
use std::alloc::Global;
use std::test::Fail;

/// An opaque colour.
fn opaque(r: u8, g: u8) -> Rgba {
    Rgba { r, g, b: 0, a: 255 }
}

/// One symbol from 0 to 1,000, another from there to 10,000.
fn by_number(alloc: Global, joined: bool, first: Symbol, second: Symbol) -> Result<Style, NoMemory>
    ensures { IfOk result (λ made. is_ramp made ≡ false) }
{
    let mut ranges = Sequence::new(alloc);
    ranges.put(Range {
        lower: 0,
        upper: 1_000_000_000,
        symbol: first,
    })?;
    ranges.put(Range {
        lower: 1_000_000_000,
        upper: 10_000_000_000,
        symbol: second,
    })?;
    let field = Field {
        joined,
        name: Text::of(alloc, "n")?,
    };
    Ok(Style::Graduated(field, RangeList::of(ranges)))
}

/// The mark of the one pixel of a feature with this number.
fn graded(alloc: Global, text: &str) -> Result<String, Fail> {
    let (red, green) = (fill(opaque(255, 0)), fill(opaque(0, 255)));
    let own = layer(
        alloc,
        1,
        text,
        by_number(alloc, false, red, green)?,
        None,
        None,
    )?;
    let piece = piece(alloc, LayerInput::of(own, None, None), 1, 1)?;
    let painted = paint(alloc, &piece, &mut Never)?;
    Ok(marks(alloc, painted.image())?)
}

#[test]
fn both_bounds_belong_to_a_range(rt: HostRuntime) -> Result<(), Fail> {
    let alloc = rt.alloc();
    let first = graded(alloc, "wkt;n\nPOLYGON((0 0,1 0,1 1,0 1));1000\n")?;
    assert_eq!(rt; first.as_str(), "r");
    let second = graded(alloc, "wkt;n\nPOLYGON((0 0,1 0,1 1,0 1));10000\n")?;
    assert_eq!(rt; second.as_str(), "g");
    let beyond = graded(alloc, "wkt;n\nPOLYGON((0 0,1 0,1 1,0 1));10000.5\n")?;
    assert_eq!(rt; beyond.as_str(), ".");
    let text = graded(alloc, "wkt;n\nPOLYGON((0 0,1 0,1 1,0 1));abc\n")?;
    assert_eq!(rt; text.as_str(), ".");
    Ok(())
}

/// Puts a random number, or a text that is none, behind a text.
fn push_number(text: &mut String, seed: &mut u32) -> Result<(), NoMemory> {
    text.push_str(match next(seed) % 6 {
        0 => ";0\n",
        1 => ";1000\n",
        2 => ";1000.000001\n",
        3 => ";10000\n",
        4 => ";10000.5\n",
        _ => ";none\n",
    })
}

/// Four features with random geometries and numbers.
fn numbered(alloc: Global, seed: &mut u32) -> Result<String, NoMemory> {
    let mut text = String::from_str(alloc, "wkt;n\n")?;
    for _ in 0..4 {
        push_geometry(&mut text, seed)?;
        push_number(&mut text, seed)?;
    }
    Ok(text)
}

/// A style of all parts in the first range and a fill in the second.
fn by_parts(alloc: Global, seed: &mut u32, joined: bool) -> Result<Style, NoMemory>
    ensures { IfOk result (λ made. is_ramp made ≡ false) }
{
    let parts = all_parts(seed, Shape::Square);
    by_number(alloc, joined, parts, fill(opaque(0, 255)))
}

/// What is to be painted of a random graduated layer without mask.
fn alone(alloc: Global, seed: &mut u32) -> Result<Piece, Fail> {
    let text = numbered(alloc, seed)?;
    let style = by_parts(alloc, seed, false)?;
    let own = layer(alloc, 1, text.as_str(), style, None, None)?;
    piece(alloc, LayerInput::of(own, None, None), 9, 7)
}

#[test]
fn random_graduated_layers_are_painted_as_by_centres(rt: HostRuntime) -> Result<(), Fail> {
    let alloc = rt.alloc();
    let (mut seed, mut shown) = (28, 0usize);
    for _ in 0..20 {
        let piece = alone(alloc, &mut seed)?;
        let (same, seen) = agreement(alloc, &piece)?;
        assert_eq!(rt; same, 63);
        shown = shown.saturating_add(seen);
    }
    assert!(rt; shown > 0);
    Ok(())
}

/// Puts a random key of three behind a text.
fn push_key(text: &mut String, seed: &mut u32) -> Result<(), NoMemory> {
    text.push(';')?;
    text.push(char::from(b'a' + next(seed) % 3))
}

/// Four features with random geometries and keys, and three with random keys and numbers.
fn keyed(alloc: Global, seed: &mut u32) -> Result<(String, String), NoMemory> {
    let mut own = String::from_str(alloc, "wkt;key\n")?;
    for _ in 0..4 {
        push_geometry(&mut own, seed)?;
        push_key(&mut own, seed)?;
        own.push('\n')?;
    }
    let mut there = String::from_str(alloc, "wkt;key;n\n")?;
    for _ in 0..3 {
        push_key(&mut there, seed)?;
        push_number(&mut there, seed)?;
    }
    Ok((own, there))
}

/// A join by the keys.
fn by_key(alloc: Global) -> Result<Join, NoMemory>
    ensures { IfOk result (λ made. made.layer ≡ 2) }
{
    Ok(Join {
        layer: 2,
        local: Text::of(alloc, "key")?,
        key: Text::of(alloc, "key")?,
    })
}

/// What is to be painted of a random layer, graduated by joined numbers, through a random mask layer.
fn joined(alloc: Global, seed: &mut u32) -> Result<Piece, Fail> {
    let (own, there) = keyed(alloc, seed)?;
    let (style, join) = (by_parts(alloc, seed, true)?, by_key(alloc)?);
    let own = layer(alloc, 1, own.as_str(), style, Some(3), Some(join))?;
    let there = single(alloc, 2, there.as_str(), fill(opaque(9, 9)), None)?;
    let mask = mask(alloc, seed)?;
    piece(alloc, LayerInput::of(own, Some(mask), Some(there)), 9, 7)
}

#[test]
fn random_joined_numbers_through_masks_are_painted_as_by_centres(
    rt: HostRuntime,
) -> Result<(), Fail> {
    let alloc = rt.alloc();
    let (mut seed, mut shown) = (29, 0usize);
    for _ in 0..20 {
        let piece = joined(alloc, &mut seed)?;
        let (same, seen) = agreement(alloc, &piece)?;
        assert_eq!(rt; same, 63);
        shown = shown.saturating_add(seen);
    }
    assert!(rt; shown > 0);
    Ok(())
}
