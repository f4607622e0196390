//! The arguments of styles: the parts of a symbol, and the stops of a ramp.

ghost use Rattle.std.specs.Prelude.{◌≡◌, ◌≤◌, ◌&&◌, ◌<◌, ◌≢◌, nat_le, int_lt, length, All, IfOk, IfErr};
ghost use Rattle.std.specs.Prelude.{OnOk, is_none, bytes_eq, codes, None};
ghost use Rattle.cv_model.specs.Positions.{IsCoordinate};
ghost use Rattle.cv_script.specs.Answers.{Answers};
ghost use Rattle.cv_script.specs.Styles.{Draws, no_parts, with_fill, with_pen, with_marker, with_part};
ghost use Rattle.cv_script.specs.Styles.{symbol};
ghost use Rattle.cv_script.specs.Styles.{stop, stops, with_others, ascends, are_stops, ramp};

use crate::error::Refusal;
use crate::kinds::{colour, coordinate, whole};
use crate::spelling::value;
use crate::words::Word;
use cv_model::{Marker, Pen, Ramp, Stop, StopList, Symbol};
use std::alloc::Global;

/// Puts in `fill colour`; answers the words behind it.
#[tactic(auto, unfolding(crate::specs::Styles::with_fill))]
fn with_fill<'a>(symbol: &mut Symbol, words: &'a [Word]) -> Result<&'a [Word], Refusal>
    ensures { Draws result symbol.new (with_fill symbol.old words.now) }
{
    let [first, rest @ ..] = words else {
        return Err(Refusal::Bad);
    };
    if symbol.fill.is_some() {
        return Err(Refusal::Bad);
    }
    let colour = colour(first.as_slice())?;
    symbol.fill = Some(colour);
    Ok(rest)
}

/// Puts in `pen colour width`; answers the words behind it.
#[tactic(auto, unfolding(crate::specs::Styles::with_pen))]
fn with_pen<'a>(symbol: &mut Symbol, words: &'a [Word]) -> Result<&'a [Word], Refusal>
    ensures { Draws result symbol.new (with_pen symbol.old words.now) }
{
    let [first, second, rest @ ..] = words else {
        return Err(Refusal::Bad);
    };
    if symbol.pen.is_some() {
        return Err(Refusal::Bad);
    }
    let colour = colour(first.as_slice())?;
    let width = whole(second.as_slice(), 1, 64)?;
    let width = width as u32;
    symbol.pen = Some(Pen { colour, width });
    Ok(rest)
}

/// Puts in `marker shape colour size`; answers the words behind it.
#[tactic(auto, unfolding(crate::specs::Styles::with_marker))]
fn with_marker<'a>(symbol: &mut Symbol, words: &'a [Word]) -> Result<&'a [Word], Refusal>
    ensures { Draws result symbol.new (with_marker symbol.old words.now) }
{
    let [first, second, third, rest @ ..] = words else {
        return Err(Refusal::Bad);
    };
    if symbol.marker.is_some() {
        return Err(Refusal::Bad);
    }
    let shape = value(first.as_slice())?;
    let colour = colour(second.as_slice())?;
    let size = whole(third.as_slice(), 1, 256)?;
    let size = size as u32;
    symbol.marker = Some(Marker {
        shape,
        colour,
        size,
    });
    Ok(rest)
}

/// Whether a word is the name of a part.
fn is_part(word: &Word, name: &str) -> bool
    ensures { result ≡ bytes_eq word.now name.now }
{
    word.as_slice() == name.as_bytes()
}

/// Puts in one part more, which the symbol hasn't yet; nothing more where no word is left.
#[tactic(auto, unfolding(crate::specs::Styles::with_part))]
fn with_part<'a>(symbol: &mut Symbol, words: &'a [Word]) -> Result<&'a [Word], Refusal>
    ensures { Draws result symbol.new (with_part symbol.old words.now) }
{
    let [word, rest @ ..] = words else {
        return Ok(words);
    };
    if is_part(word, "fill") {
        with_fill(symbol, rest)
    } else if is_part(word, "pen") {
        with_pen(symbol, rest)
    } else if is_part(word, "marker") {
        with_marker(symbol, rest)
    } else {
        Err(Refusal::Bad)
    }
}

/// The symbol of some parts, of which there are at most three.
#[tactic(auto, unfolding(crate::specs::Styles::symbol))]
pub fn symbol(words: &[Word]) -> Result<Symbol, Refusal>
    ensures { Answers result (symbol words.now) }
{
    let mut symbol = Symbol {
        fill: None,
        pen: None,
        marker: None,
    };
    let rest = with_part(&mut symbol, words)?;
    let rest = with_part(&mut symbol, rest)?;
    let rest = with_part(&mut symbol, rest)?;
    if rest.is_empty() {
        Ok(symbol)
    } else {
        Err(Refusal::Bad)
    }
}

/// A value and the colour there.
#[tactic(auto, unfolding(crate::specs::Styles::stop))]
fn stop(value: &Word, behind: &Word) -> Result<Stop, Refusal>
    ensures exact { Answers result (stop value.now behind.now) }
    ensures kept { IfOk result (λ s. IsCoordinate s.value) }
{
    let value = coordinate(value.as_slice())?;
    let colour = colour(behind.as_slice())?;
    Ok(Stop { value, colour })
}

/// Puts the stop of the first two words behind the others; answers the words behind it.
#[tactic(auto, unfolding(crate::specs::Styles::stops), using(crate::proofs::StyleLemmas::with_one))]
fn put_stop<'a>(list: &mut StopList, words: &'a [Word]) -> Result<&'a [Word], Refusal>
    requires { 1 ≤ length words.now }
    ensures more { IfOk result (λ rest.
        with_others list.new (stops rest.now) ≡ with_others list.old (stops words.now)) }
    ensures less { IfOk result (λ rest. length rest.now < length words.now) }
    ensures kept { All (λ s. IsCoordinate s.value) list.old
        → OnOk result (All (λ s. IsCoordinate s.value) list.new) }
    ensures bad { IfErr result (λ e. (e ≢ Refusal.NoMemory) → stops words.now ≡ None) }
{
    let [value, colour, rest @ ..] = words else {
        return Err(Refusal::Bad);
    };
    let stop = stop(value, colour)?;
    list.put(stop)?;
    Ok(rest)
}

/// Pairs of a value and a colour.
fn stops(alloc: Global, words: &[Word]) -> Result<StopList, Refusal>
    ensures exact { Answers result (stops words.now) }
    ensures kept { IfOk result (All (λ s. IsCoordinate s.value)) }
{
    let mut stops = StopList::new(alloc);
    let mut rest = words;
    while !rest.is_empty() {
        match put_stop(&mut stops, rest) {
            Ok(behind) => rest = behind,
            Err(refusal) => return Err(refusal),
        }
    }
    Ok(stops)
}

/// Whether a stop's value is above a number.
fn is_above(stop: &Stop, value: i64) -> bool
    ensures { result ≡ int_lt value stop.now.value }
{
    value < stop.value
}

/// Whether each stop's value is above the one before it.
fn ascends(stops: &[Stop]) -> bool
    ensures { result ≡ ascends stops.now }
{
    let Some((first, rest)) = stops.split_first() else {
        return true;
    };
    let mut last = first.value;
    for stop in rest {
        if !is_above(stop, last) {
            return false;
        }
        last = stop.value;
    }
    true
}

/// Whether there are 1 to 256 stops, which ascend.
fn are_stops(stops: &[Stop]) -> bool
    ensures { result ≡ are_stops stops.now }
{
    1 <= stops.len() && stops.len() <= 256 && ascends(stops)
}

/// A ramp of a kind and some stops.
#[tactic(auto, unfolding(crate::specs::Styles::ramp))]
pub fn ramp(alloc: Global, words: &[Word]) -> Result<Ramp, Refusal>
    ensures { Answers result (ramp words.now) }
{
    let [kind, rest @ ..] = words else {
        return Err(Refusal::Bad);
    };
    let kind = value(kind.as_slice())?;
    let stops = stops(alloc, rest)?;
    if are_stops(stops.as_slice()) {
        Ok(Ramp::of(kind, stops))
    } else {
        Err(Refusal::Bad)
    }
}
