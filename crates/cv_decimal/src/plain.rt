//! The short way for decimals of digits and a point alone, as most are.

ghost use Rattle.std.specs.Prelude.{◌≡◌, ◌+◌, ◌^◌, ◌<◌, length, Ok, IfSome, is_some};
ghost use Rattle.cv_decimal.specs.Kept.{nothing_kept, answer_at};
ghost use Rattle.cv_decimal.specs.Plain.{is_plain, is_plain_size, is_plain_rest};
ghost use Rattle.cv_number.specs.declared.place.Place.{Place};

use crate::kept::Kept;
use cv_number::Fixed;

/// The value of a decimal without an exponent, a `+` or a point in front; `None` for any other text.
pub fn plain(text: &[u8]) -> Option<Fixed>
    ensures value { IfSome result (λ v. answer_at Place.Start nothing_kept text.now ≡ Ok v) }
    ensures form { is_some result ≡ is_plain text.now }
{
    match text.split_first() {
        Some((b'-', digits)) => unsigned(digits, Kept::negative()),
        _ => unsigned(text, Kept::nothing()),
    }
}

/// The value of digits and a point behind a sign, or without one.
fn unsigned(text: &[u8], kept: Kept) -> Option<Fixed>
    requires first { kept.digits ≡ 0 }
    requires dropped { kept.dropped ≡ 0 }
    requires places { kept.places ≡ 0 }
    ensures start { IfSome result (λ v. answer_at Place.Start kept text.now ≡ Ok v) }
    ensures signed { IfSome result (λ v. answer_at Place.Signed kept text.now ≡ Ok v) }
    ensures form { is_some result ≡ is_plain_size text.now }
{
    let mut kept = kept;
    let whole = kept.keep_digits(text);
    if whole == 0 {
        return None;
    }
    behind_whole(text.split_at(whole).1, kept)
}

/// The value where some digits were read, and a point and digits may come.
fn behind_whole(text: &[u8], kept: Kept) -> Option<Fixed>
    requires few { kept.digits < 2000000000000000000 }
    requires short { kept.dropped + length text.now < 2 ^ 63 }
    requires places { kept.places ≡ 0 }
    ensures value { IfSome result (λ v. answer_at Place.Whole kept text.now ≡ Ok v) }
    ensures form { is_some result ≡ is_plain_rest text.now }
{
    let Some((point, digits)) = text.split_first() else {
        return Some(kept.worth());
    };
    if *point != b'.' {
        return None;
    }
    let mut kept = kept;
    let places = kept.keep_digits(digits);
    if places < digits.len() {
        return None;
    }
    kept.point_before(places);
    Some(kept.worth())
}
