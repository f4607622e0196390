//! The places in a decimal's spelling, and the marks that may follow each.
ghost use Rattle.std.specs.Prelude.{◌≡◌};
ghost use Rattle.cv_number.specs.Place.{next_of, worth_at};

use crate::fixed::Fixed;
use crate::mark::Mark;

/// Where a text stands behind some marks.
#[derive(Clone, Copy)]
pub enum Place {
    /// Before the first mark.
    Start,
    /// Behind the sign.
    Signed,
    /// Behind `n`.
    OneLetter,
    /// Behind `na`.
    TwoLetters,
    /// Behind `nan`.
    Nan,
    /// Behind digits, with no point.
    Whole,
    /// Behind a point with no digit before it.
    Bare,
    /// Behind a point, with a digit before or behind it.
    Dotted,
    /// Behind `e`.
    Marked,
    /// Behind the sign of the exponent.
    MarkedSigned,
    /// Behind digits of the exponent.
    Powered,
}

/// What a mark says at its place.
#[derive(Clone, Copy)]
pub enum Role {
    /// Nothing about the numbers.
    Form,
    /// The number is negative.
    Negative,
    /// A digit before the point.
    WholeDigit(u8),
    /// A digit behind the point.
    RestDigit(u8),
    /// The exponent is negative.
    Lowering,
    /// A digit of the exponent.
    PowerDigit(u8),
}

impl Place {
    /// The place behind a mark, and what the mark says; `None` where it can't stand.
    pub fn next(self, mark: Mark) -> Option<(Place, Role)>
        ensures { result ≡ next_of self mark }
    {
        match mark {
            Mark::Digit(digit) => self.next_at_digit(digit),
            Mark::Point => match self {
                Place::Start | Place::Signed => Some((Place::Bare, Role::Form)),
                Place::Whole => Some((Place::Dotted, Role::Form)),
                _ => None,
            },
            Mark::Plus => match self {
                Place::Start => Some((Place::Signed, Role::Form)),
                Place::Marked => Some((Place::MarkedSigned, Role::Form)),
                _ => None,
            },
            Mark::Minus => match self {
                Place::Start => Some((Place::Signed, Role::Negative)),
                Place::Marked => Some((Place::MarkedSigned, Role::Lowering)),
                _ => None,
            },
            Mark::LetterE => match self {
                Place::Whole | Place::Dotted => Some((Place::Marked, Role::Form)),
                _ => None,
            },
            Mark::LetterN => match self {
                Place::Start | Place::Signed => Some((Place::OneLetter, Role::Form)),
                Place::TwoLetters => Some((Place::Nan, Role::Form)),
                _ => None,
            },
            Mark::LetterA => match self {
                Place::OneLetter => Some((Place::TwoLetters, Role::Form)),
                _ => None,
            },
            Mark::Other => None,
        }
    }

    fn next_at_digit(self, digit: u8) -> Option<(Place, Role)>
        ensures { result ≡ next_of self (Mark.Digit digit) }
    {
        match self {
            Place::Start | Place::Signed | Place::Whole => {
                Some((Place::Whole, Role::WholeDigit(digit)))
            }
            Place::Bare | Place::Dotted => Some((Place::Dotted, Role::RestDigit(digit))),
            Place::Marked | Place::MarkedSigned | Place::Powered => {
                Some((Place::Powered, Role::PowerDigit(digit)))
            }
            Place::OneLetter | Place::TwoLetters | Place::Nan => None,
        }
    }

    /// What a text that ends here is worth, where its numbers are worth `value`.
    pub fn worth(self, value: Fixed) -> Option<Fixed>
        ensures { result ≡ worth_at self value }
    {
        match self {
            Place::Nan => Some(Fixed::NotNumber),
            Place::Whole | Place::Dotted | Place::Powered => Some(value),
            _ => None,
        }
    }
}
