//! How far rows of pixels reach, in doubled millionths.

ghost use Rattle.std.specs.Prelude.{◌≡◌, ◌^◌, ◌≤◌, pos, ◌*ℤ◌, unsigned_abs};

use crate::measures::product;

/// How far a row of pixels with sides of `u` millionths reaches.
pub fn span(pixels: i64, u: i64) -> i128
    requires { unsigned_abs pixels ≤ 2 ^ 32 }
    ensures value { result ≡ pos 2 *ℤ pixels *ℤ u }
    ensures bound { unsigned_abs result ≤ 2 ^ 96 }
{
    product(2 * pixels, u)
}

/// Half as far as a row of pixels with sides of `u` millionths reaches.
pub fn half_span(pixels: u32, u: i64) -> i128
    ensures value { result ≡ pos pixels *ℤ u }
    ensures bound { unsigned_abs result ≤ 2 ^ 96 }
{
    product(i64::from(pixels), u)
}
