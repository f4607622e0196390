//! Joins: the symbols of features by the texts that they take from another layer.

ghost use Rattle.std.specs.Prelude.{◌≡◌, ◌+◌, false, length, IfOk, OnOk};
ghost use Rattle.cv_model.specs.ProjectFiles.{is_ramp};

use crate::layers::{fill, layer, piece, single};
use crate::random::{agreed, agreement, all_parts, mask, next, push_geometry};
use cv_layer::{LayerInput, Piece};
use cv_model::{
    Class, ClassList, Field, Join, NoMemory, Rgba, Sequence, Shape, Style, Symbol, Text,
};
use std::alloc::Global;
use std::test::Fail;

/// Three squares from left to right, with the keys a, b and c.
const SQUARES: &str = "wkt;key\n\
    POLYGON((0 0,1 0,1 1,0 1));a\n\
    POLYGON((1 0,2 0,2 1,1 1));b\n\
    POLYGON((2 0,3 0,3 1,2 1));c\n";

/// An opaque colour.
fn opaque(r: u8, g: u8, b: u8) -> Rgba {
    Rgba { r, g, b, a: 255 }
}

/// Puts a class behind others.
fn put_class(
    alloc: Global,
    classes: &mut Sequence<Class>,
    value: &str,
    symbol: Symbol,
) -> Result<(), NoMemory>
    ensures { OnOk result (length classes.new ≡ length classes.old + 1) }
{
    classes.put(Class {
        value: Text::of(alloc, value)?,
        symbol,
    })
}

/// Red for `red`, blue for `blue`, green for any other; a second class of `red` is grey.
fn by_kind(alloc: Global, joined: bool) -> Result<Style, NoMemory>
    ensures { IfOk result (λ made. is_ramp made ≡ false) }
{
    let mut classes = Sequence::new(alloc);
    put_class(alloc, &mut classes, "red", fill(opaque(255, 0, 0)))?;
    put_class(alloc, &mut classes, "blue", fill(opaque(0, 0, 255)))?;
    put_class(alloc, &mut classes, "red", fill(opaque(200, 200, 200)))?;
    let field = Field {
        joined,
        name: Text::of(alloc, "kind")?,
    };
    let other = Some(fill(opaque(0, 255, 0)));
    Ok(Style::Categorised(field, ClassList::of(classes), other))
}

/// A join by the keys.
fn by_key(alloc: Global) -> Result<Join, NoMemory>
    ensures { IfOk result (λ made. made.layer ≡ 2) }
{
    Ok(Join {
        layer: 2,
        local: Text::of(alloc, "key")?,
        key: Text::of(alloc, "key")?,
    })
}

/// The marks of features joined with others, and whether both painters agree.
fn joined(alloc: Global, own: &str, there: &str, across: u16) -> Result<(String, bool), Fail> {
    let style = by_kind(alloc, true)?;
    let own = layer(alloc, 1, own, style, None, Some(by_key(alloc)?))?;
    let there = single(alloc, 2, there, fill(opaque(9, 9, 9)), None)?;
    agreed(alloc, LayerInput::of(own, None, Some(there)), across, 1)
}

/// The marks of features by a text of their own, and whether both painters agree.
fn alone(alloc: Global, own: &str, across: u16) -> Result<(String, bool), Fail> {
    let own = layer(alloc, 1, own, by_kind(alloc, false)?, None, None)?;
    agreed(alloc, LayerInput::of(own, None, None), across, 1)
}

#[test]
fn the_first_feature_with_a_key_is_joined(rt: HostRuntime) -> Result<(), Fail> {
    let there = "wkt;key;kind\n;b;blue\n;a;red\n;b;red\n;a;blue\n";
    let (marks, same) = joined(rt.alloc(), SQUARES, there, 3)?;
    assert_eq!(rt; (marks.as_str(), same), ("rbg", true));
    Ok(())
}

#[test]
fn the_first_column_of_a_name_is_read(rt: HostRuntime) -> Result<(), Fail> {
    let there = "wkt;kind;key;kind;key\n;blue;a;red;b\n;red;b;blue;a\n";
    let (marks, same) = joined(rt.alloc(), SQUARES, there, 3)?;
    assert_eq!(rt; (marks.as_str(), same), ("brg", true));
    Ok(())
}

#[test]
fn without_a_column_nothing_is_joined(rt: HostRuntime) -> Result<(), Fail> {
    let alloc = rt.alloc();
    let (no_key, same) = joined(alloc, SQUARES, "wkt;kind\n;red\n", 3)?;
    assert_eq!(rt; (no_key.as_str(), same), ("ggg", true));
    let (no_kind, same) = joined(alloc, SQUARES, "wkt;key\n;a\n", 3)?;
    assert_eq!(rt; (no_kind.as_str(), same), ("ggg", true));
    let own = "wkt\nPOLYGON((0 0,1 0,1 1,0 1))\n";
    let (no_local, same) = joined(alloc, own, "wkt;key;kind\n;;red\n", 1)?;
    assert_eq!(rt; (no_local.as_str(), same), ("g", true));
    Ok(())
}

#[test]
fn the_first_class_with_a_text_gives_its_symbol(rt: HostRuntime) -> Result<(), Fail> {
    let alloc = rt.alloc();
    let own = "wkt;kind\nPOLYGON((0 0,1 0,1 1,0 1));red\nPOLYGON((1 0,2 0,2 1,1 1));Red\n";
    let (marks, same) = alone(alloc, own, 2)?;
    assert_eq!(rt; (marks.as_str(), same), ("rg", true));
    Ok(())
}

/// Puts a square and a random key of four behind a text.
fn push_square(text: &mut String, seed: &mut u32, i: u8) -> Result<(), NoMemory> {
    let (west, east) = (char::from(b'0' + i % 8), char::from(b'1' + i % 8));
    text.push_str("POLYGON((")?;
    text.push(west)?;
    text.push_str(" 0,")?;
    text.push(east)?;
    text.push_str(" 0,")?;
    text.push(east)?;
    text.push_str(" 1,")?;
    text.push(west)?;
    text.push_str(" 1));")?;
    text.push(char::from(b'a' + next(seed) % 4))?;
    text.push('\n')
}

/// Puts a random key of four and a random kind behind a text.
fn push_kind(text: &mut String, seed: &mut u32) -> Result<(), NoMemory> {
    text.push(';')?;
    text.push(char::from(b'a' + next(seed) % 4))?;
    text.push_str(match next(seed) % 3 {
        0 => ";red\n",
        1 => ";blue\n",
        _ => ";dry\n",
    })
}

/// Eight squares with random keys, and four features with random keys and kinds.
fn random_texts(alloc: Global, seed: &mut u32) -> Result<(String, String), NoMemory> {
    let mut own = String::from_str(alloc, "wkt;key\n")?;
    for i in 0..8 {
        push_square(&mut own, seed, i)?;
    }
    let mut there = String::from_str(alloc, "wkt;key;kind\n")?;
    for _ in 0..4 {
        push_kind(&mut there, seed)?;
    }
    Ok((own, there))
}

#[test]
fn random_joins_are_painted_as_by_centres(rt: HostRuntime) -> Result<(), Fail> {
    let alloc = rt.alloc();
    let mut seed = 23;
    for _ in 0..20 {
        let (own, there) = random_texts(alloc, &mut seed)?;
        let (_, same) = joined(alloc, own.as_str(), there.as_str(), 8)?;
        assert!(rt; same);
    }
    Ok(())
}

/// What is to be painted of random squares joined with random features, through a random mask layer.
fn masked(alloc: Global, seed: &mut u32) -> Result<Piece, Fail> {
    let (own, there) = random_texts(alloc, seed)?;
    let (style, join) = (by_kind(alloc, true)?, by_key(alloc)?);
    let own = layer(alloc, 1, own.as_str(), style, Some(3), Some(join))?;
    let there = single(alloc, 2, there.as_str(), fill(opaque(9, 9, 9)), None)?;
    let mask = mask(alloc, seed)?;
    piece(alloc, LayerInput::of(own, Some(mask), Some(there)), 8, 1)
}

#[test]
fn random_joins_through_masks_are_painted_as_by_centres(rt: HostRuntime) -> Result<(), Fail> {
    let alloc = rt.alloc();
    let (mut seed, mut shown) = (27, 0usize);
    for _ in 0..20 {
        let piece = masked(alloc, &mut seed)?;
        let (same, seen) = agreement(alloc, &piece)?;
        assert_eq!(rt; same, 8);
        shown = shown.saturating_add(seen);
    }
    assert!(rt; 0 < shown && shown < 160);
    Ok(())
}

/// All parts for `red`, a green fill for `blue`, nothing for any other.
fn by_parts(alloc: Global, seed: &mut u32) -> Result<Style, NoMemory>
    ensures { IfOk result (λ made. is_ramp made ≡ false) }
{
    let mut classes = Sequence::new(alloc);
    put_class(alloc, &mut classes, "red", all_parts(seed, Shape::Circle))?;
    put_class(alloc, &mut classes, "blue", fill(opaque(0, 255, 0)))?;
    let field = Field {
        joined: false,
        name: Text::of(alloc, "kind")?,
    };
    Ok(Style::Categorised(field, ClassList::of(classes), None))
}

/// What is to be painted of four features with random geometries, each by its own random kind.
fn of_kinds(alloc: Global, seed: &mut u32) -> Result<Piece, Fail> {
    let mut text = String::from_str(alloc, "wkt;key;kind\n")?;
    for _ in 0..4 {
        push_geometry(&mut text, seed)?;
        push_kind(&mut text, seed)?;
    }
    let style = by_parts(alloc, seed)?;
    let own = layer(alloc, 1, text.as_str(), style, None, None)?;
    piece(alloc, LayerInput::of(own, None, None), 9, 7)
}

#[test]
fn random_kinds_are_painted_as_by_centres(rt: HostRuntime) -> Result<(), Fail> {
    let alloc = rt.alloc();
    let (mut seed, mut shown) = (31, 0usize);
    for _ in 0..20 {
        let piece = of_kinds(alloc, &mut seed)?;
        let (same, seen) = agreement(alloc, &piece)?;
        assert_eq!(rt; same, 63);
        shown = shown.saturating_add(seen);
    }
    assert!(rt; shown > 0);
    Ok(())
}
