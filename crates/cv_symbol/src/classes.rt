//! The classes of styles.

ghost use Rattle.std.specs.Prelude.{◌≡◌, option_and_then};
ghost use Rattle.std.specs.Option.{option_copied, option_or};
ghost use Rattle.cv_model.specs.Styles.{symbol_of, class_of, range_of, number_of, number_in};

use cv_decimal::Fixed;
use cv_model::{Class, Range, Style, Symbol, Text};

/// The symbol that a style gives to the text of its field, if it gives one; the text may be absent.
///
/// A single style gives its symbol; a categorised one that of the first class with an equal text, else its
/// fallback; a graduated one that of the first class that holds the text as a decimal; a ramp none.
#[tactic(auto, unfolding(cv_model::specs::Styles::symbol_of))]
pub fn symbol<'a>(style: &'a Style, value: Option<&Text>) -> Option<&'a Symbol>
    ensures { option_copied result ≡ symbol_of style.now (option_copied value.entry) }
{
    match style {
        Style::Single(symbol) => Some(symbol),
        Style::Categorised(_, classes, fallback) => {
            categorised(classes.as_slice(), fallback, value)
        }
        Style::Graduated(_, classes) => graduated(classes.as_slice(), value),
        Style::Ramp(_) => None,
    }
}

/// The symbol of the first class with the text, else the fallback.
fn categorised<'a>(
    classes: &'a [Class],
    fallback: &'a Option<Symbol>,
    value: Option<&Text>,
) -> Option<&'a Symbol>
    ensures { option_copied result
        ≡ option_or (option_and_then (class_of classes.now) (option_copied value.entry)) fallback.now }
{
    match value {
        Some(text) => match class(classes, text) {
            Some(symbol) => Some(symbol),
            None => fallback.as_ref(),
        },
        None => fallback.as_ref(),
    }
}

/// The symbol of the first class with the text.
fn class<'a>(classes: &'a [Class], text: &Text) -> Option<&'a Symbol>
    ensures { option_copied result ≡ class_of classes.now text.now }
{
    for class in classes {
        if class.value.as_str() == text.as_str() {
            return Some(&class.symbol);
        }
    }
    None
}

/// The symbol of the first class that holds the text as a decimal.
fn graduated<'a>(classes: &'a [Range], value: Option<&Text>) -> Option<&'a Symbol>
    ensures { option_copied result
        ≡ option_and_then (range_of classes.now) (option_and_then number_of (option_copied value.entry)) }
{
    range(classes, number(value?)?)
}

/// The number that a text spells, in millionths, if it is a decimal in range.
fn number(text: &Text) -> Option<i64>
    ensures { result ≡ number_of text.now }
{
    in_range(cv_decimal::read(text.as_str().as_bytes()).ok()?)
}

/// The number of a decimal in range.
fn in_range(decimal: Fixed) -> Option<i64>
    ensures { result ≡ number_in decimal }
{
    match decimal {
        Fixed::Value(number) => Some(number),
        Fixed::High | Fixed::Low | Fixed::NotNumber => None,
    }
}

/// The symbol of the first class that holds a number, with both its bounds.
fn range(classes: &[Range], number: i64) -> Option<&Symbol>
    ensures { option_copied result ≡ range_of classes.now number }
{
    for range in classes {
        if range.lower <= number && number <= range.upper {
            return Some(&range.symbol);
        }
    }
    None
}
