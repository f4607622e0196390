//! Stretches of features whose ids ascend, by which a table finds a feature.

ghost use Rattle.std.specs.Prelude.{◌≡◌, ℕ, List, ◌+◌, ◌++◌, ◌≤◌, ◌<◌, ◌↔◌, ◌∷◌, [], true, IfOk, OnOk};
ghost use Rattle.cv_layer.specs.Stretches.{IsStretch, AreStretches};

use cv_chunks::NoMemory;
use std::alloc::AllocError;

/// How many features stand side by side with ids that ascend, and bounds of these ids.
#[derive(Clone, Copy)]
pub struct Stretch {
    /// How many features there are.
    pub count: u64,
    /// No id is less.
    pub least: u32,
    /// No id is greater.
    pub greatest: u32,
}

/// The sum of two counts. One that 64 bits don't hold is want of memory, which no such count fits.
pub fn sum(a: u64, b: u64) -> Result<u64, NoMemory>
    ensures { IfOk result (λ sum. sum ≡ a + b) }
{
    a.checked_add(b).ok_or(AllocError)
}

impl Stretch {
    /// The stretch of one feature.
    pub fn of(id: u32) -> Stretch
        ensures { IsStretch result (id ∷ []) }
    {
        Stretch {
            count: 1,
            least: id,
            greatest: id,
        }
    }

    /// Whether an id is within the bounds.
    pub fn spans(&self, id: u32) -> bool
        ensures { (result ≡ true) ↔ ((self.now.least ≤ id) × (id ≤ self.now.greatest)) }
    {
        self.least <= id && id <= self.greatest
    }
}

/// Puts a stretch behind the others. Where ids ascend from the last one on to it, it is joined with that one
/// if it is to be, or if both have several features: one that stands out of order would widen the bounds.
pub fn put(stretches: &mut Vec<Stretch>, next: Stretch, joins: bool) -> Result<(), NoMemory>
    ensures { OnOk result ((before ids : List ℕ) → AreStretches stretches.old.items before
        → IsStretch next ids → AreStretches stretches.new.items (before ++ ids)) }
{
    let count = stretches.len();
    if let Some(last) = stretches.last()
        && last.greatest < next.least
        && (joins || last.count.min(next.count) > 1)
    {
        stretches[count - 1] = Stretch {
            count: sum(last.count, next.count)?,
            least: last.least,
            greatest: next.greatest,
        };
        return Ok(());
    }
    stretches.push(next)?;
    Ok(())
}
