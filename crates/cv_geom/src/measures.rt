//! Distances between coordinates, and their products.

ghost use Rattle.std.specs.Prelude.{◌≡◌, ◌≤◌, ◌^◌, pos, ◌-ℤ◌, ◌*ℤ◌, unsigned_abs};
ghost use Rattle.cv_model.specs.Positions.{IsCoordinate, IsDoubled};

/// The doubled distance from one coordinate to another.
pub fn distance(from: i64, to: i64) -> i64
    requires from_in { IsCoordinate from }
    requires to_in { IsCoordinate to }
    ensures value { result ≡ pos 2 *ℤ to -ℤ pos 2 *ℤ from }
    ensures bound { unsigned_abs result ≤ 2 ^ 52 }
{
    2 * to - 2 * from
}

/// The distance from a coordinate, doubled, to a doubled one.
pub fn distance_to(from: i64, to: i64) -> i64
    requires from_in { IsCoordinate from }
    requires to_in { IsDoubled to }
    ensures value { result ≡ to -ℤ pos 2 *ℤ from }
    ensures bound { unsigned_abs result ≤ 2 ^ 53 }
{
    to - 2 * from
}

/// The product of two distances.
pub fn product(a: i64, b: i64) -> i128
    ensures { result ≡ a *ℤ b }
{
    i128::from(a) * i128::from(b)
}
