//! The run of columns between those before a shape and those behind it.

ghost use Rattle.std.specs.Prelude.{◌≡◌, ℕ, Bool, not, ◌&&◌, ◌≤◌, ◌<◌, option_to_list};
ghost use Rattle.cv_geom.specs.Falls.{FallsIn};
ghost use Rattle.cv_geom.specs.Spans.{AreRuns};

use cv_geom::search;
use cv_model::Span;

/// The run of columns that don't lie before a shape and are reached by it, if there is one.
///
/// Those that lie before it have to be the first ones, and those that it reaches too.
pub fn run_between<F: Fn(u32) -> bool, G: Fn(u32) -> bool>(
    columns: Span,
    before: F,
    reached: G,
) -> Option<Span>
    requires order { columns.from ≤ columns.end }
    requires before { (k : ℕ) → columns.from ≤ k → k < columns.end → F.pre before k }
    requires reached { (k : ℕ) → columns.from ≤ k → k < columns.end → G.pre reached k }
    ensures { (p q : ℕ → Bool)
        → ((k : ℕ) (r : Bool) → columns.from ≤ k → k < columns.end → F.post before k r → r ≡ p k)
        → ((k : ℕ) (r : Bool) → columns.from ≤ k → k < columns.end → G.post reached k r → r ≡ q k)
        → FallsIn p columns.from columns.end → FallsIn q columns.from columns.end
        → AreRuns (λ i. not (p i) && q i) columns.from columns.end (option_to_list result) }
{
    let from = search(columns.from, columns.end, before);
    let end = search(from, columns.end, reached);
    if from < end {
        Some(Span { from, end })
    } else {
        None
    }
}
