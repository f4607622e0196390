//! Kinds of arguments: what a word says.

ghost use Rattle.std.specs.Prelude.{◌≡◌, ◌≤◌, ◌≤ℤ◌, ◌&&◌, ◌^◌, nat_le, int_le, length, IfOk, bytes_eq, codes};
ghost use Rattle.std.specs.Prelude.{option_map};
ghost use Rattle.std.specs.Char.{is_ascii_digit};
ghost use Rattle.std.specs.List.{list_all};
ghost use Rattle.std.specs.Str.{is_utf8};
ghost use Rattle.cv_model.specs.Positions.{IsCoordinate};
ghost use Rattle.cv_script.specs.Answers.{Answers};
ghost use Rattle.cv_script.specs.Kinds.{digits_value, is_short, is_whole, whole_in, number, id, step};
ghost use Rattle.cv_script.specs.Kinds.{text, texts};
ghost use Rattle.cv_script.specs.Kinds.{is_name, name, names, is_none_word, or_none, decimal_in, coordinate};
ghost use Rattle.cv_script.specs.Kinds.{cell_of, cell, geometry, rgb, colour};

use crate::error::Refusal;
use crate::words::Word;
use cv_decimal::Fixed;
use cv_model::{Cell, Geometry, Rgb, Rgba, Sequence, Text, Values, WktError};
use std::alloc::Global;

/// The number that up to ten decimal digits write.
fn digits_value(digits: &[u8]) -> u64
    requires { length digits.now ≤ 10 }
    ensures { result ≡ digits_value digits.now }
{
    let mut number = 0u64;
    for digit in digits {
        number = 10 * number + u64::from(digit.saturating_sub(b'0'));
    }
    number
}

/// Whether a word has one byte to so many.
fn is_short(word: &[u8], most: usize) -> bool
    ensures { result ≡ is_short most word.now }
{
    1 <= word.len() && word.len() <= most
}

fn are_digits(word: &[u8]) -> bool
    ensures { result ≡ list_all is_ascii_digit word.now }
{
    word.iter().all(|byte| byte.is_ascii_digit())
}

/// Whether a word is one to ten digits.
fn is_whole(word: &[u8]) -> bool
    ensures { result ≡ is_whole word.now }
{
    is_short(word, 10) && are_digits(word)
}

/// A whole number in a range.
#[tactic(auto, unfolding(crate::specs::Kinds::whole_in))]
pub fn whole(word: &[u8], least: u64, most: u64) -> Result<u64, Refusal>
    ensures exact { Answers result (whole_in least most word.now) }
    ensures least { IfOk result (λ n. least ≤ n) }
    ensures most { IfOk result (λ n. n ≤ most) }
{
    if !is_whole(word) {
        return Err(Refusal::Bad);
    }
    let number = digits_value(word);
    if least <= number && number <= most {
        Ok(number)
    } else {
        Err(Refusal::Bad)
    }
}

/// A canvas, a layer, a place, a row or a column.
pub fn number(word: &[u8]) -> Result<u32, Refusal>
    ensures { Answers result (number word.now) }
{
    let number = whole(word, 0, 4_294_967_295)?;
    Ok(number as u32)
}

/// The id of a feature, or that of a new layer.
pub fn id(word: &[u8]) -> Result<u32, Refusal>
    ensures { Answers result (id word.now) }
{
    let id = whole(word, 1, 4_294_967_295)?;
    Ok(id as u32)
}

/// A number of pixels from -4,096 to 4,096.
#[tactic(auto, unfolding(crate::specs::Kinds::step))]
pub fn step(word: &[u8]) -> Result<i32, Refusal>
    ensures { Answers result (step word.now) }
{
    match word {
        [] => Err(Refusal::Bad),
        [b'-', digits @ ..] => {
            let size = whole(digits, 0, 4096)?;
            Ok(-(size as i32))
        }
        _ => {
            let size = whole(word, 0, 4096)?;
            Ok(size as i32)
        }
    }
}

/// A text.
#[tactic(auto, using(crate::proofs::KindLemmas::text_some, crate::proofs::KindLemmas::text_none))]
pub fn text(alloc: Global, word: &[u8]) -> Result<Text, Refusal>
    ensures { Answers result (text word.now) }
{
    let Ok(text) = str::from_utf8(word) else {
        return Err(Refusal::Bad);
    };
    let copy = Text::of(alloc, text)?;
    Ok(copy)
}

/// Some texts.
#[tactic(auto, unfolding(crate::specs::Kinds::texts))]
pub fn texts(alloc: Global, words: &[Word]) -> Result<Values, Refusal>
    ensures { Answers result (texts words.now) }
{
    let mut texts = Values::new(alloc);
    for word in words {
        match text(alloc, word.as_slice()) {
            Ok(text) => texts.put(text)?,
            Err(refusal) => return Err(refusal),
        }
    }
    Ok(texts)
}

/// Whether a word may be a name, by its length.
fn is_name(word: &[u8]) -> bool
    ensures { result ≡ is_name word.now }
{
    is_short(word, 256)
}

/// The name of a file, a layer or a column.
#[tactic(auto, unfolding(crate::specs::Kinds::name))]
pub fn name(alloc: Global, word: &[u8]) -> Result<Text, Refusal>
    ensures { Answers result (name word.now) }
{
    if is_name(word) {
        text(alloc, word)
    } else {
        Err(Refusal::Bad)
    }
}

fn are_names(words: &[Word]) -> bool
    ensures { result ≡ list_all is_name words.now }
{
    words.iter().all(|word| is_name(word.as_slice()))
}

/// The names of columns.
#[tactic(auto, unfolding(crate::specs::Kinds::names))]
pub fn names(alloc: Global, words: &[Word]) -> Result<Values, Refusal>
    ensures { Answers result (names words.now) }
{
    if are_names(words) {
        texts(alloc, words)
    } else {
        Err(Refusal::Bad)
    }
}

/// Whether a word is `none`.
pub fn is_none_word(word: &[u8]) -> bool
    ensures { result ≡ is_none_word word.now }
{
    word == b"none".as_slice()
}

/// A layer, or `none`.
pub fn number_or_none(word: &[u8]) -> Result<Option<u32>, Refusal>
    ensures { Answers result (or_none number word.now) }
{
    if is_none_word(word) {
        return Ok(None);
    }
    let number = number(word)?;
    Ok(Some(number))
}

/// A decimal that is a value, in millionths.
pub fn coordinate(word: &[u8]) -> Result<i64, Refusal>
    ensures exact { Answers result (coordinate word.now) }
    ensures kept { IfOk result IsCoordinate }
{
    match cv_decimal::read(word) {
        Ok(Fixed::Value(millionths)) => Ok(millionths),
        _ => Err(Refusal::Bad),
    }
}

/// A decimal in a range of millionths.
#[tactic(auto, unfolding(crate::specs::Kinds::decimal_in))]
pub fn decimal(word: &[u8], least: i64, most: i64) -> Result<i64, Refusal>
    ensures exact { Answers result (decimal_in least most word.now) }
    ensures least { IfOk result (λ z. least ≤ℤ z) }
    ensures most { IfOk result (λ z. z ≤ℤ most) }
{
    let millionths = coordinate(word)?;
    if least <= millionths && millionths <= most {
        Ok(millionths)
    } else {
        Err(Refusal::Bad)
    }
}

/// The cell of a decimal.
fn cell_of(value: Fixed) -> Cell
    ensures { result ≡ cell_of value }
{
    match value {
        Fixed::Value(millionths) => Cell::Value(millionths),
        Fixed::High => Cell::Value(1_000_000_000_000_000),
        Fixed::Low => Cell::Value(-1_000_000_000_000_000),
        Fixed::NotNumber => Cell::Void,
    }
}

/// The cell of a grid.
pub fn cell(word: &[u8]) -> Result<Cell, Refusal>
    ensures { Answers result (cell word.now) }
{
    match cv_decimal::read(word) {
        Ok(value) => Ok(cell_of(value)),
        Err(_) => Err(Refusal::Bad),
    }
}

/// A well-known text.
pub fn geometry(alloc: Global, word: &[u8]) -> Result<Geometry, Refusal>
    ensures { Answers result (geometry word.now) }
{
    match cv_wkt::read(alloc, word) {
        Ok(geometry) => Ok(geometry),
        Err(WktError::NoMemory) => Err(Refusal::NoMemory),
        Err(_) => Err(Refusal::Bad),
    }
}

/// A well-known text, or `none`.
pub fn geometry_or_none(alloc: Global, word: &[u8]) -> Result<Option<Geometry>, Refusal>
    ensures { Answers result (or_none geometry word.now) }
{
    if is_none_word(word) {
        return Ok(None);
    }
    let geometry = geometry(alloc, word)?;
    Ok(Some(geometry))
}

/// The colour of six hexadecimal digits.
fn spelled_rgb(word: &[u8]) -> Option<Rgb>
    ensures { result ≡ rgb word.now }
{
    let mut bytes = [0; 3];
    hex::decode_to_slice(word, &mut bytes).ok()?;
    Some(Rgb {
        r: bytes[0],
        g: bytes[1],
        b: bytes[2],
    })
}

/// The colour of six hexadecimal digits, which is opaque, or of eight.
fn spelled_rgba(word: &[u8]) -> Option<Rgba>
    ensures { result ≡ colour word.now }
{
    if let Some(Rgb { r, g, b }) = spelled_rgb(word) {
        return Some(Rgba { r, g, b, a: 255 });
    }
    let mut bytes = [0; 4];
    hex::decode_to_slice(word, &mut bytes).ok()?;
    Some(Rgba {
        r: bytes[0],
        g: bytes[1],
        b: bytes[2],
        a: bytes[3],
    })
}

/// The colour of six hexadecimal digits.
pub fn rgb(word: &[u8]) -> Result<Rgb, Refusal>
    ensures { Answers result (rgb word.now) }
{
    match spelled_rgb(word) {
        Some(colour) => Ok(colour),
        None => Err(Refusal::Bad),
    }
}

/// The colour of six or eight hexadecimal digits.
pub fn colour(word: &[u8]) -> Result<Rgba, Refusal>
    ensures { Answers result (colour word.now) }
{
    match spelled_rgba(word) {
        Some(colour) => Ok(colour),
        None => Err(Refusal::Bad),
    }
}
