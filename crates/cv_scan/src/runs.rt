//! The runs of a row, made of the reaches of crossings.

ghost use Rattle.std.specs.Prelude.{◌≡◌, ◌+◌, ◌≤◌, ◌%◌, ℕ, ◌++◌, OnOk, OnErr, IfOk, length};
ghost use Rattle.cv_scan.specs.Runs.{beyond, above, Rises, IsPaired, unless_empty, joined};

use cv_model::{NoMemory, Span, Spans};
use std::alloc::Global;

/// Puts a reach behind the others, if it goes beyond a column.
pub fn put(reaches: &mut Vec<u32>, from: u32, reach: u32) -> Result<(), NoMemory>
    ensures { OnOk result (reaches.new.items ≡ reaches.old.items ++ above from reach) }
{
    if from < reach {
        reaches.push(reach)?;
    }
    Ok(())
}

/// Puts a span behind the others, unless it is empty.
fn put_span(spans: &mut Spans, from: u32, end: u32) -> Result<(), NoMemory>
    ensures { OnOk result (spans.new ≡ spans.old ++ unless_empty from end) }
{
    if from < end {
        spans.put(Span { from, end })?;
    }
    Ok(())
}

/// The runs between each reach with an odd place and the next, joined where they touch, the first from
/// column `from` on.
pub fn joined(alloc: Global, from: u32, reaches: &[u32]) -> Result<Spans, NoMemory>
    ensures { IfOk result (λ spans. spans ≡ joined from from reaches.now) }
{
    let mut spans = Spans::new(alloc);
    let (mut start, mut end) = (from, from);
    let mut rest = reaches;
    while let [begin, stop, behind @ ..] = rest {
        if end != *begin {
            put_span(&mut spans, start, end)?;
            start = *begin;
        }
        end = *stop;
        rest = behind;
    }
    put_span(&mut spans, start, end)?;
    Ok(spans)
}
