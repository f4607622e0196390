//! The decimals of the cells.

ghost use Rattle.std.specs.Prelude.{◌≡◌, ◌≤◌, ◌<◌, ◌*◌, ◌^◌, length, take, drop, IfSome, IfNone, None};
ghost use Rattle.std.specs.Prelude.{true, slice_index, pos};
ghost use Rattle.cv_reading.specs.Space.{is_space};
ghost use Rattle.cv_number.specs.Reader.{decimal_of};
ghost use Rattle.cv_grid.specs.Scanning.{front_len, IsFront, AreDigits};

use crate::token::{front, token_len};
use cv_decimal::Fixed;
use cv_reading::is_space;

/// A decimal at the front of a text, and how many bytes it has.
#[derive(Clone, Copy)]
pub struct Spelt {
    pub value: Fixed,
    pub len: usize,
}

/// Digits at the front of a text: the number that they write, and how many there are.
#[derive(Clone, Copy)]
struct Digits {
    number: u32,
    len: usize,
}

/// Up to nine digits at the front of a text.
#[inline]
fn front_digits(text: &[u8]) -> Digits
    ensures { AreDigits text.now result.number result.len }
{
    let mut number = 0u32;
    for (at, byte) in text.iter().enumerate() {
        if at >= 9 || !byte.is_ascii_digit() {
            return Digits { number, len: at };
        }
        number = 10 * number + u32::from(*byte - b'0');
    }
    Digits {
        number,
        len: text.len(),
    }
}

/// Whether a token ends before an offset: white space stands there, or nothing.
#[inline]
fn ends_before(text: &[u8], at: usize) -> bool
    ensures { result ≡ true → at < length text.now → is_space (slice_index text.now at) ≡ true }
{
    match text.get(at) {
        Some(byte) => is_space(*byte),
        None => true,
    }
}

/// A whole number in millionths.
#[inline]
pub fn millionths(number: u32) -> i64
    requires { number < 1000000000 }
    ensures { result ≡ pos (1000000 * number) }
{
    (1_000_000 * u64::from(number)) as i64
}

/// The decimal at the front of a text, if it is up to nine digits: what most cells are.
#[inline]
fn short(text: &[u8]) -> Option<Spelt>
    ensures { IfSome result (IsFront text.now) }
{
    let digits = front_digits(text);
    if digits.len == 0 {
        return None;
    }
    if !ends_before(text, digits.len) {
        return None;
    }
    Some(Spelt {
        value: Fixed::Value(millionths(digits.number)),
        len: digits.len,
    })
}

/// The decimal at the front of a text, whatever its form.
fn long(text: &[u8]) -> Option<Spelt>
    ensures some { IfSome result (IsFront text.now) }
    ensures none { IfNone result (decimal_of (take (front_len text.now) text.now) ≡ None) }
{
    let len = token_len(text);
    let value = cv_decimal::read(front(text, len)).ok()?;
    Some(Spelt { value, len })
}

/// The decimal at the front of a text; `None` where the token there is none.
#[inline]
pub fn first_value(text: &[u8]) -> Option<Spelt>
    ensures some { IfSome result (IsFront text.now) }
    ensures none { IfNone result (decimal_of (take (front_len text.now) text.now) ≡ None) }
{
    match short(text) {
        Some(spelt) => Some(spelt),
        None => long(text),
    }
}
