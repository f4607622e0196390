//! Decimals, read and written in whole millionths.
//!
//! Contract: `read` answers the value that the grammar spells, all digits taken as one number and
//! rounded half away from zero, and else the first byte that can't stand; `write` gives the written
//! form, which `read` reads back. Definitions: `Spellings` and, as a function, `Reader` of `cv_number`;
//! `Written`.
//! `read` takes no memory, goes over a plain text once and over any other twice at most, and keeps 18
//! digits, whatever the lengths.
#![tactic(auto)]

ghost use Rattle.std.specs.Prelude.{◌≡◌, ◌↔◌, ℕ, ℤ, List, [], Some, None, IfOk, string_bytes};
ghost use Rattle.cv_model.specs.Positions.{IsCoordinate};
ghost use Rattle.std.specs.Result.{result_ok};
ghost use Rattle.cv_number.specs.Spellings.{Spells, IsBadByte};
ghost use Rattle.cv_decimal.specs.Ranges.{IsInRange};
ghost use Rattle.cv_number.specs.Reader.{decimal_of};
ghost use Rattle.cv_decimal.specs.Written.{written};

mod error;
mod kept;
mod plain;
mod scan;
mod written;

pub use cv_number::Fixed;
pub use error::DecimalError;
use std::alloc::{AllocError, Global};

/// The value of a decimal, rounded half away from zero to whole millionths.
///
/// A decimal is an optional `+` or `-`, then `nan` in any case, or a mantissa and an optional exponent. The
/// mantissa is digits, or digits and a point, or digits, a point and digits, or a point and digits. The
/// exponent is `e` or `E`, an optional sign, and digits. Source: the decimals of `strtod` in ISO C (C17,
/// 7.22.1.3), without white space in front, hexadecimals and infinities; the rounding is this project's own.
#[tactic(auto, unfolding(cv_number::specs::Reader::decimal_of))]
pub fn read(text: &[u8]) -> Result<Fixed, DecimalError>
    ensures found { IfOk result (Spells text.now) }
    ensures only { (v : Fixed) → Spells text.now v → result ≡ Ok v }

    // From -10^15 to 10^15, so that a value may be a point's coordinate.
    ensures range { IfOk result IsInRange }
    ensures empty { (result ≡ Err DecimalError.Empty) ↔ (text.now ≡ []) }
    ensures fault { (at : ℕ) → (result ≡ Err (DecimalError.BadByte at)) ↔ IsBadByte text.now at }

    // The same as a function, for readers of tokens.
    ensures exact { result_ok result ≡ decimal_of text.now }
{
    if text.is_empty() {
        return Err(DecimalError::Empty);
    }
    match scan::scan(text) {
        Ok(value) => Ok(value),
        Err(at) => Err(DecimalError::BadByte(at)),
    }
}

/// The written form of a number of millionths: `-` if negative, the whole part without leading zeros,
/// and, where the rest isn't zero, a point and the rest without trailing zeros.
#[tactic(auto, unfolding(crate::specs::Written::written))]
pub fn write(alloc: Global, millionths: i64) -> Result<String, AllocError>
    ensures { IfOk result (λ text. string_bytes text ≡ written millionths) }
{
    let mut text = String::new(alloc);
    if millionths < 0 {
        text.push('-')?;
    }
    written::push_size(&mut text, millionths.unsigned_abs())?;
    Ok(text)
}

/// The function that the grammars of other texts cite says what the grammar of decimals says: a value
/// exactly where the text spells it, and none exactly where it spells none.
pub fn decimals_are_spelt()
    ensures value { (text : List ℕ) (v : Fixed) → (decimal_of text ≡ Some v) ↔ Spells text v }
    ensures none { (text : List ℕ) → (decimal_of text ≡ None) ↔ ((v : Fixed) → Spells text v → ⊥) }
{}

/// What is written is read back: the written form of a number in the range of values spells that value.
pub fn written_is_read()
    ensures spelt { (z : ℤ) → IsCoordinate z → Spells (written z) (Fixed.Value z) }
    ensures exact { (z : ℤ) → IsCoordinate z → decimal_of (written z) ≡ Some (Fixed.Value z) }
{}

#[cfg(test)]
mod tests;
