//! The one colour of all strokes of a style, if they have one.

ghost use Rattle.std.specs.Prelude.{◌≡◌, IfSome, true};
ghost use Rattle.std.specs.Option.{option_map_or};
ghost use Rattle.std.specs.List.{list_all};
ghost use Rattle.cv_model.specs.declared.style.Class.{Class};
ghost use Rattle.cv_model.specs.declared.style.Range.{Range};
ghost use Rattle.cv_model.specs.Pens.{PenParts};
ghost use Rattle.cv_model.specs.Markers.{MarkerParts};
ghost use Rattle.cv_paint.specs.Inks.{is_colour, draws_only, is_ink_of};

use cv_model::{Class, Marker, Pen, Range, Rgba, Style, Symbol};

/// The colour that all strokes of a style have, where they have one and it is found: that of the first
/// symbol that has one.
pub fn ink_of(style: &Style) -> Option<Rgba>
    ensures { IfSome result (λ ink. is_ink_of ink style.now ≡ true) }
{
    let ink = first_of(style)?;
    if is_ink_of(ink, style) {
        Some(ink)
    } else {
        None
    }
}

/// The colour of a stroke of a style, if there is one.
fn first_of(style: &Style) -> Option<Rgba> {
    match style {
        Style::Single(symbol) => colour_of(symbol),
        Style::Categorised(_, classes, fallback) => match classes.get(0) {
            Some(class) => colour_of(&class.symbol),
            None => colour_of(fallback.as_ref()?),
        },
        Style::Graduated(_, classes) => colour_of(&classes.get(0)?.symbol),
        Style::Ramp(_) => None,
    }
}

/// The colour of a stroke of a symbol, if there is one.
fn colour_of(symbol: &Symbol) -> Option<Rgba> {
    if let Some(fill) = symbol.fill {
        return Some(fill);
    }
    if let Some(pen) = symbol.pen {
        return Some(pen.colour);
    }
    Some(symbol.marker?.colour)
}

/// Whether each stroke of each symbol of a style has this colour.
fn is_ink_of(ink: Rgba, style: &Style) -> bool
    ensures { result ≡ is_ink_of ink style.now }
{
    match style {
        Style::Single(symbol) => draws_only(ink, symbol),
        Style::Categorised(_, classes, fallback) => {
            are_classes(ink, classes.as_slice()) && is_fallback(ink, fallback)
        }
        Style::Graduated(_, classes) => are_ranges(ink, classes.as_slice()),
        Style::Ramp(_) => true,
    }
}

/// Whether each stroke of some classes has this colour.
fn are_classes(ink: Rgba, classes: &[Class]) -> bool
    ensures { result ≡ list_all (λ (c : Class). draws_only ink c.symbol) classes.now }
{
    classes.iter().all(|class| draws_only(ink, &class.symbol))
}

/// Whether each stroke of some classes has this colour.
fn are_ranges(ink: Rgba, classes: &[Range]) -> bool
    ensures { result ≡ list_all (λ (c : Range). draws_only ink c.symbol) classes.now }
{
    classes.iter().all(|class| draws_only(ink, &class.symbol))
}

/// Whether each stroke of a symbol, if there is one, has this colour.
fn is_fallback(ink: Rgba, fallback: &Option<Symbol>) -> bool
    ensures { result ≡ option_map_or (draws_only ink) fallback.now true }
{
    match fallback {
        Some(symbol) => draws_only(ink, symbol),
        None => true,
    }
}

/// Whether each stroke of a symbol has this colour.
fn draws_only(ink: Rgba, symbol: &Symbol) -> bool
    ensures { result ≡ draws_only ink symbol.now }
{
    is_fill(ink, symbol.fill) && is_pen(ink, symbol.pen) && is_marker(ink, symbol.marker)
}

/// Whether a fill has this colour.
fn is_fill(ink: Rgba, fill: Option<Rgba>) -> bool
    ensures { result ≡ option_map_or (is_colour ink) fill true }
{
    match fill {
        Some(colour) => is_colour(ink, colour),
        None => true,
    }
}

/// Whether a pen has this colour.
fn is_pen(ink: Rgba, pen: Option<Pen>) -> bool
    ensures { result ≡ option_map_or (λ (pen : PenParts). is_colour ink pen.colour) pen true }
{
    match pen {
        Some(pen) => is_colour(ink, pen.colour),
        None => true,
    }
}

/// Whether a marker has this colour.
fn is_marker(ink: Rgba, marker: Option<Marker>) -> bool
    ensures { result ≡ option_map_or (λ (marker : MarkerParts). is_colour ink marker.colour) marker true }
{
    match marker {
        Some(marker) => is_colour(ink, marker.colour),
        None => true,
    }
}

/// Whether two colours are the same.
fn is_colour(a: Rgba, b: Rgba) -> bool
    ensures { result ≡ is_colour a b }
{
    a.r == b.r && (a.g == b.g && (a.b == b.b && a.a == b.a))
}
