//! The number at which a test falls, found by halves.

ghost use Rattle.std.specs.Prelude.{◌≡◌, ℕ, Bool, ◌≤◌, ◌<◌};
ghost use Rattle.cv_geom.specs.Falls.{FallsAt};

/// The least number from `low` on at which a test fails; `high` where it holds at all below.
///
/// The test has to fail behind the first number at which it fails. It is called some log2(high - low)
/// times, at numbers from `low` up to and without `high`.
pub fn search<F: Fn(u32) -> bool>(low: u32, high: u32, test: F) -> u32
    requires callable { (k : ℕ) → low ≤ k → k < high → F.pre test k }
    requires order { low ≤ high }
    ensures from { low ≤ result }
    ensures end { result ≤ high }
    ensures found { (p : ℕ → Bool) (t : ℕ)
        → ((k : ℕ) (r : Bool) → low ≤ k → k < high → F.post test k r → r ≡ p k)
        → FallsAt p low high t → result ≡ t }
{
    let mut at = low;
    let mut room = high - low;
    while 0 < room {
        let half = room / 2;
        if test(at + half) {
            at += half + 1;
            room -= half + 1;
        } else {
            room = half;
        }
    }
    at
}
