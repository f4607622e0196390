//! How wide the pens and markers of symbols are, and the widest of a style.

ghost use Rattle.std.specs.Prelude.{◌≡◌, ◌≤◌, max};
ghost use Rattle.std.specs.Option.{option_map_or};
ghost use Rattle.std.specs.List.{fold};
ghost use Rattle.cv_model.specs.declared.style.Class.{Class};
ghost use Rattle.cv_model.specs.declared.style.Range.{Range};
ghost use Rattle.cv_model.specs.Pens.{PenParts};
ghost use Rattle.cv_model.specs.Markers.{MarkerParts};
ghost use Rattle.cv_paint.specs.Widths.{width_of, IsWidest};

use cv_model::{Class, Marker, Pen, Range, Style, Symbol};

/// How many pixels wide a pen is; 1 where there is none.
fn pen_side(pen: Option<Pen>) -> u32
    ensures side { result ≡ option_map_or (λ (pen : PenParts). pen.width) pen 1 }
    ensures least { 1 ≤ result }
    ensures most { result ≤ 256 }
{
    match pen {
        Some(pen) => pen.side(),
        None => 1,
    }
}

/// How many pixels wide a marker is; 1 where there is none.
fn marker_side(marker: Option<Marker>) -> u32
    ensures side { result ≡ option_map_or (λ (marker : MarkerParts). marker.size) marker 1 }
    ensures least { 1 ≤ result }
    ensures most { result ≤ 256 }
{
    match marker {
        Some(marker) => marker.side(),
        None => 1,
    }
}

/// How many pixels wide the pen or the marker of a symbol is, whichever is wider; 1 where it has neither.
fn width_of(symbol: &Symbol) -> u32
    ensures width { result ≡ width_of symbol.now }
    ensures least { 1 ≤ result }
    ensures most { result ≤ 256 }
{
    pen_side(symbol.pen).max(marker_side(symbol.marker))
}

/// The same of a symbol that may not be there; 1 where it isn't.
fn fallback_width(fallback: &Option<Symbol>) -> u32
    ensures width { result ≡ option_map_or width_of fallback.now 1 }
    ensures least { 1 ≤ result }
    ensures most { result ≤ 256 }
{
    match fallback {
        Some(symbol) => width_of(symbol),
        None => 1,
    }
}

/// The width of the widest symbol of some classes; 1 where there is none.
fn widest_class(classes: &[Class]) -> u32
    ensures width { result ≡ fold (λ n (c : Class). max n (width_of c.symbol)) 1 classes.now }
    ensures least { 1 ≤ result }
    ensures most { result ≤ 256 }
{
    let mut widest = 1;
    for class in classes {
        widest = widest.max(width_of(&class.symbol));
    }
    widest
}

/// The width of the widest symbol of some classes; 1 where there is none.
fn widest_range(classes: &[Range]) -> u32
    ensures width { result ≡ fold (λ n (c : Range). max n (width_of c.symbol)) 1 classes.now }
    ensures least { 1 ≤ result }
    ensures most { result ≤ 256 }
{
    let mut widest = 1;
    for class in classes {
        widest = widest.max(width_of(&class.symbol));
    }
    widest
}

/// The width in pixels of the widest pen or marker that a style can give; 1 where there is none.
pub fn widest_of(style: &Style) -> u32
    ensures { IsWidest style.now result }
{
    match style {
        Style::Single(symbol) => width_of(symbol),
        Style::Categorised(_, classes, fallback) => {
            widest_class(classes.as_slice()).max(fallback_width(fallback))
        }
        Style::Graduated(_, classes) => widest_range(classes.as_slice()),
        Style::Ramp(_) => 1,
    }
}
