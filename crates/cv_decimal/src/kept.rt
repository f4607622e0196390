//! What is kept of a decimal's numbers while it is read.
ghost use Rattle.std.specs.Prelude.{◌≡◌, ◌+◌, ◌*◌, ◌^◌, ◌<◌, ◌≤◌, min, length};
ghost use Rattle.std.specs.List.{prefix_len};
ghost use Rattle.cv_number.specs.Rounding.{rnd};
ghost use Rattle.cv_number.specs.Mark.{is_digit};
ghost use Rattle.cv_number.specs.Spellings.{fixed};
ghost use Rattle.cv_decimal.specs.Kept.{with_digit, with_places, kept_role, settled, kept_worth};
ghost use Rattle.cv_decimal.specs.Kept.{nothing_kept, Goes};

use cv_number::{Fixed, Mark, Place, Role};

/// The largest value, 10^15 millionths.
const LIMIT: u64 = 1_000_000_000_000_000;

/// The first digits of a number, how many digits more there were, how many of all stand behind the
/// point, and the exponent, or 2^64 - 1 where it is larger.
#[derive(Clone, Copy)]
pub struct Kept {
    negative: bool,
    digits: u64,
    dropped: u64,
    places: u64,
    lowers: bool,
    power: u64,
}

impl Kept {
    /// What is kept before the first mark: no digit, no sign, no exponent.
    pub fn nothing() -> Kept
        ensures { result ≡ nothing_kept }
    {
        Kept {
            negative: false,
            digits: 0,
            dropped: 0,
            places: 0,
            lowers: false,
            power: 0,
        }
    }

    /// What is kept behind a minus.
    pub fn negative() -> Kept
        ensures { result ≡ kept_role Role.Negative nothing_kept }
    {
        Kept {
            negative: true,
            ..Kept::nothing()
        }
    }

    #[inline]
    fn push_digit(&mut self, digit: u8)
        requires dropped { self.old.dropped < 2 ^ 63 }
        ensures { self.new ≡ with_digit digit self.old }
    {
        if self.digits < 100_000_000_000_000_000 {
            self.digits = 10 * self.digits + u64::from(digit);
        } else {
            self.dropped += 1;
        }
    }

    /// Keeps what a mark says. In place, since a copy for each byte would take most of a reader's time.
    pub fn keep(&mut self, role: Role)
        requires dropped { self.old.dropped < 2 ^ 63 }
        requires places { self.old.places < 2 ^ 63 }
        ensures { self.new ≡ kept_role role self.old }
    {
        match role {
            Role::Form => {}
            Role::Negative => self.negative = true,
            Role::WholeDigit(digit) => self.push_digit(digit),
            Role::RestDigit(digit) => {
                self.push_digit(digit);
                self.places += 1;
            }
            Role::Lowering => self.lowers = true,
            Role::PowerDigit(digit) => {
                self.power = self
                    .power
                    .saturating_mul(10)
                    .saturating_add(u64::from(digit));
            }
        }
    }

    /// Keeps the digits at the front of a text, and answers how many they are. On which side of the
    /// point they stand is left to `point_before`.
    pub fn keep_digits(&mut self, text: &[u8]) -> usize
        requires few { self.old.digits < 2000000000000000000 }
        requires short { self.old.dropped + length text.now < 2 ^ 63 }
        ensures few { self.new.digits < 2000000000000000000 }
        ensures dropped { self.new.dropped ≤ self.old.dropped + result }
        ensures places { self.new.places ≡ self.old.places }
        ensures within { result ≤ length text.now }
        ensures all { result ≡ prefix_len is_digit text.now }
        ensures start { 0 < result → Goes text.now Place.Start self.old result Place.Whole self.new }
        ensures signed { 0 < result → Goes text.now Place.Signed self.old result Place.Whole self.new }
        ensures rest { Goes text.now Place.Dotted self.old result Place.Dotted (with_places result self.new) }
    {
        for (at, byte) in text.iter().enumerate() {
            match Mark::digit(*byte) {
                Some(digit) => self.push_digit(digit),
                None => return at,
            }
        }
        text.len()
    }

    /// Says that so many more digits stand behind the point.
    pub fn point_before(&mut self, digits: usize)
        requires { self.old.places + digits < 2 ^ 63 }
        ensures { self.new ≡ with_places digits self.old }
    {
        self.places += digits as u64;
    }

    /// What the numbers are worth.
    pub fn worth(self) -> Fixed
        requires digits { self.digits < 2000000000000000000 }
        requires dropped { self.dropped < 2 ^ 63 }
        requires places { self.places < 2 ^ 63 }
        ensures { result ≡ kept_worth self }
    {
        let power = u128::from(self.power);
        let (up, down) = if self.lowers { (0, power) } else { (power, 0) };
        let high = u128::from(self.dropped) + 6 + up;
        let low = u128::from(self.places) + down;
        signed(self.negative, millionths(self.digits, high, low))
    }
}

/// `digits` times 10^`high` over 10^`low`, or the limit and one where it is above the limit.
#[tactic(auto, unfolding(crate::specs::Kept::settled))]
fn millionths(digits: u64, high: u128, low: u128) -> u64
    requires digits { digits < 2000000000000000000 }
    requires high { high < 2 ^ 100 }
    requires low { low < 2 ^ 100 }
    ensures { result ≡ settled digits high low }
{
    if high >= low + 16 {
        if digits == 0 { 0 } else { LIMIT + 1 }
    } else if high >= low {
        capped(raised(digits, (high - low) as u32))
    } else if low >= high + 19 {
        0
    } else {
        capped(u128::from(divided(digits, (low - high) as u32)))
    }
}

fn capped(n: u128) -> u64
    ensures { result ≡ min n 1000000000000001 }
{
    n.min(u128::from(LIMIT + 1)) as u64
}

fn raised(digits: u64, power: u32) -> u128
    requires digits { digits < 2000000000000000000 }
    requires power { power < 16 }
    ensures { result ≡ digits * 10 ^ power }
{
    u128::from(digits) * u128::from(10u64.pow(power))
}

/// Rounds a half upwards.
fn divided(digits: u64, power: u32) -> u64
    requires digits { digits < 2000000000000000000 }
    requires power { power < 19 }
    ensures { result ≡ rnd digits (10 ^ power) }
{
    let unit = 10u64.pow(power);
    let halves = 2 * digits + unit;
    halves / (2 * unit)
}

fn signed(negative: bool, millionths: u64) -> Fixed
    ensures { result ≡ fixed negative millionths }
{
    if millionths > LIMIT {
        if negative { Fixed::Low } else { Fixed::High }
    } else {
        let value = millionths as i64;
        Fixed::Value(if negative { -value } else { value })
    }
}
