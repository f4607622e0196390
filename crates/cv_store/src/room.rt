//! How much an edit may still put into a store.

ghost use Rattle.std.specs.Prelude.{◌≡◌, ◌+◌, ◌||◌, nat_lt};
ghost use Rattle.cv_store.specs.Tallies.{IsPartOf, exchange, passes};

use crate::tally::Tally;

/// What all layers of a store hold, counted, and whether as many edits were accepted as may be.
#[derive(Clone, Copy, Debug)]
pub struct Room {
    pub sums: Tally,
    pub spent: bool,
}

/// Whether two counts together are above a bound.
fn exceeds(held: u64, more: u64, most: u64) -> bool
    ensures { result ≡ nat_lt most (held + more) }
{
    match held.checked_add(more) {
        Some(sum) => sum > most,
        None => true,
    }
}

impl Room {
    /// Whether a limit is passed by counts in place of a part of all.
    pub fn is_passed(self, part: Tally, more: Tally) -> bool
        requires { IsPartOf part self.sums }
        ensures { result ≡ (self.spent || passes (exchange self.sums part more)) }
    {
        self.spent
            || (exceeds(self.sums.features - part.features, more.features, 1_000_000)
                || (exceeds(self.sums.vertices - part.vertices, more.vertices, 4_000_000)
                    || (exceeds(self.sums.values - part.values, more.values, 16_000_000)
                        || exceeds(self.sums.cells - part.cells, more.cells, 64_000_000))))
    }
}
