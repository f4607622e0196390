//! Steps counted for pixels, and a colour laid on a row with its count.

ghost use Rattle.std.specs.Prelude.{◌≡◌, ◌+◌, ◌-◌, ◌≤◌, ◌++◌, length, map, take, drop};
ghost use Rattle.std.specs.List.{between};
ghost use Rattle.cv_model.specs.Colours.{over};

use cv_canvas::lay_on;
use cv_geom::Steps;
use cv_model::{Rgba, Span};
use std::sync::ledger::Ledger;

/// So many steps more, one for each of so many pixels. It is no code, since a step is none.
pub fn count<L: Ledger>(steps: &mut Steps<L>, pixels: u32)
    ensures { steps.new ≡ steps.old + pixels }
{
    for _pixel in 0..pixels {
        steps.tick();
    }
}

/// Lays a colour on the pixels of a row that lie in a span, over what they have, and leaves the others. Each
/// of these pixels is a step. A span may be empty. Takes no memory and can't fail.
///
/// The painter lays whole runs on canvases; this is for hosts that lay spans of their own on rows. Source:
/// W3C Compositing and Blending Level 1, source-over, in whole numbers.
pub fn lay<L: Ledger>(row: &mut [Rgba], span: Span, colour: Rgba, steps: &mut Steps<L>)
    requires order { span.from ≤ span.end }
    requires within { span.end ≤ length row.old }
    ensures laid { row.new ≡ take span.from row.old
        ++ (map (over colour) (between span.from span.end row.old) ++ drop span.end row.old) }
    ensures cost { steps.new ≡ steps.old + (span.end - span.from) }
{
    lay_on(&mut row[span.from as usize..span.end as usize], colour);
    count(steps, span.end - span.from);
}
