//! The values of a header's words.

ghost use Rattle.std.specs.Prelude.{◌≡◌, ◌≤◌, ◌<◌, ◌^◌, length, IfSome};
ghost use Rattle.std.specs.Char.{is_ascii_digit};
ghost use Rattle.std.specs.List.{list_all};
ghost use Rattle.cv_model.specs.Positions.{IsCoordinate};
ghost use Rattle.cv_number.specs.Reader.{decimal_of};
ghost use Rattle.cv_grid.specs.Words.{number_of, count_in, count_of, coordinate_of, size_of};

use cv_decimal::Fixed;

/// The value of a decimal; `None` where the token is none.
pub fn decimal(token: &[u8]) -> Option<Fixed>
    ensures { result ≡ decimal_of token.now }
{
    cv_decimal::read(token).ok()
}

fn are_digits(token: &[u8]) -> bool
    ensures { result ≡ list_all is_ascii_digit token.now }
{
    token.iter().all(|byte| byte.is_ascii_digit())
}

/// The number that up to ten decimal digits write.
fn number(digits: &[u8]) -> u64
    requires { length digits.now ≤ 10 }
    ensures { result ≡ number_of digits.now }
{
    let mut number = 0u64;
    for digit in digits {
        number = 10 * number + u64::from(digit.saturating_sub(b'0'));
    }
    number
}

/// A number of columns or rows, from 1 to 4,294,967,295.
fn count_in(number: u64) -> Option<u32>
    ensures value { result ≡ count_in number }
    ensures some { IfSome result (λ n. 1 ≤ n) }
{
    if number == 0 {
        return None;
    }
    if number > 4_294_967_295 {
        return None;
    }
    Some(number as u32)
}

/// A number of columns or rows: one to ten digits from 1 to 4,294,967,295.
#[tactic(auto, unfolding(crate::specs::Words::count_of))]
pub fn count(token: &[u8]) -> Option<u32>
    ensures value { result ≡ count_of token.now }
    ensures some { IfSome result (λ n. 1 ≤ n) }
{
    if token.len() > 10 {
        return None;
    }
    if !are_digits(token) {
        return None;
    }
    count_in(number(token))
}

/// A coordinate in millionths: a decimal that is a value.
pub fn coordinate(token: &[u8]) -> Option<i64>
    ensures value { result ≡ coordinate_of token.now }
    ensures range { IfSome result IsCoordinate }
{
    match cv_decimal::read(token) {
        Ok(Fixed::Value(millionths)) => Some(millionths),
        _ => None,
    }
}

/// The side of a cell in millionths: a decimal that is a value of at least one.
pub fn size(token: &[u8]) -> Option<u64>
    ensures value { result ≡ size_of token.now }
    ensures some { IfSome result (λ n. 1 ≤ n) }
    ensures range { IfSome result (λ n. n ≤ 1000000000000000) }
{
    let millionths = coordinate(token)?;
    if millionths > 0 {
        Some(millionths.unsigned_abs())
    } else {
        None
    }
}
