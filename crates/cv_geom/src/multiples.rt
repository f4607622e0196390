//! The multiples of a number, counted by one multiplication.

ghost use Rattle.std.specs.Prelude.{◌≡◌, ◌*◌, ◌/◌, ◌≤◌, ◌<◌, pos, int_le};
ghost use Rattle.cv_geom.specs.Falls.{FallsAt};

use std::marker::Model;

/// A positive number with its reciprocal, so that to divide by it takes one multiplication.
#[derive(Drop)]
pub struct Multiples {
    step: u64,
    reciprocal: u64,
}

impl Model for Multiples {
    ghost use Rattle.std.specs.Prelude.{ℕ};
    ghost use Rattle.cv_geom.specs.Multiples.{AreMultiples};

    ghost Value = { ℕ };

    ghost view = { λ m. m.step };

    ghost invariant = { λ m. AreMultiples m.step m.reciprocal };
}

impl Multiples {
    /// The multiples of a number.
    pub fn of(step: u64) -> Self
        requires some { 0 < step }
        requires small { step ≤ 9007199254740992 }
        ensures { result ≡ step }
    {
        Multiples {
            step,
            reciprocal: u64::MAX / step,
        }
    }

    /// How many of the first `most` multiples, of which 0 is the first, are at most `n`.
    pub fn count(&self, n: i64, most: u32) -> u32
        ensures { FallsAt (λ k. int_le (pos (k * self.now)) n) 0 most result }
    {
        if n < 0 {
            return 0;
        }
        let quotient = self.quotient(n as u64);
        if quotient < u64::from(most) {
            quotient as u32 + 1
        } else {
            most
        }
    }

    /// How often the number goes into another.
    fn quotient(&self, n: u64) -> u64
        requires { n < 9223372036854775808 }
        ensures value { result ≡ n / self.now }
        ensures some { 0 < self.now }
    {
        let guess = upper_half(n, self.reciprocal);
        if n - guess * self.step < self.step {
            guess
        } else {
            guess + 1
        }
    }
}

/// The upper half of a product.
fn upper_half(a: u64, b: u64) -> u64
    ensures { result ≡ (a * b) / 18446744073709551616 }
{
    ((u128::from(a) * u128::from(b)) >> 64) as u64
}
