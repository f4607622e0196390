//! The run of pixels that a pen along a segment hits in a row.

ghost use Rattle.std.specs.Prelude.{◌≡◌, ◌+◌, ◌≤◌, ◌<◌, pos, ◌*ℤ◌, ◌≤ℤ◌, int_le, not, ◌&&◌, option_to_list};
ghost use Rattle.cv_model.specs.Positions.{doubled};
ghost use Rattle.cv_model.specs.Pens.{IsRadius, is_near};
ghost use Rattle.cv_model.specs.Pictures.{half_side};
ghost use Rattle.cv_model.specs.Views.{centre_of};
ghost use Rattle.cv_geom.specs.Spans.{AreRuns};
ghost use Rattle.cv_pen.specs.Strokes.{IsPenWidth, is_before, is_reached};

use crate::between::run_between;
use crate::boxes::columns_by;
use crate::sides::{corner_way, is_before, is_reached, rise_at};
use cv_geom::{Steps, centre, doubled_sides, overlaps_upwards};
use cv_model::{Point, Span, View};
use std::marker::Brand;
use std::sync::ledger::{Blank, Ledger};

/// The run of columns from `from` up to and without `to` that a pen hits in a row while it follows the
/// segment between two points; none where it hits none.
///
/// The width is in pixels. The visit is one step.
pub fn stroke_in<L: Ledger>(
    a: Point,
    b: Point,
    width: u32,
    view: &View,
    row: u32,
    from: u32,
    to: u32,
    steps: &mut Steps<L>,
) -> Option<Span>
    requires width { IsPenWidth width }
    requires row { row < view.now.h }
    requires order { from ≤ to }
    requires within { to ≤ view.now.w }
    ensures run { AreRuns (λ i. is_near (half_side view.now width) (centre_of view.now i row) (a, b))
        from to (option_to_list result) }
    ensures cost { steps.new ≡ steps.old + 1 }
{
    steps.tick();
    let r = half_side(view, width);
    let sides = doubled_sides(view);
    let columns = columns_by(a, b, r, view, &sides, Span { from, end: to });
    stroke_between(a, b, r, view, row, columns)
}

/// The run of columns that a pen hits in a row while it follows the segment between two points; none
/// where it hits none. The width is in pixels.
pub fn stroke(a: Point, b: Point, width: u32, view: &View, row: u32) -> Option<Span>
    requires width { IsPenWidth width }
    requires row { row < view.now.h }
    ensures { AreRuns (λ i. is_near (half_side view.now width) (centre_of view.now i row) (a, b))
        0 view.now.w (option_to_list result) }
{
    whole_stroke::<Brand>(a, b, width, view, row, Blank::new(1))
}

/// The run over all columns, with a count that nobody reads.
fn whole_stroke<L: Ledger>(
    a: Point,
    b: Point,
    width: u32,
    view: &View,
    row: u32,
    blank: Blank,
) -> Option<Span>
    requires width { IsPenWidth width }
    requires row { row < view.now.h }
    requires name { blank.name ≡ L.name }
    requires parts { blank.parts ≡ L.parts }
    requires some { 0 < L.parts }
    ensures { AreRuns (λ i. is_near (half_side view.now width) (centre_of view.now i row) (a, b))
        0 view.now.w (option_to_list result) }
{
    let mut steps = Steps::<L>::of(blank);
    stroke_in(a, b, width, view, row, 0, view.w, &mut steps)
}

/// Half the side of so many pixels, in doubled millionths.
pub fn half_side(view: &View, size: u32) -> i64
    requires { size ≤ 256 }
    ensures value { result ≡ half_side view.now size }
    ensures radius { IsRadius result }
{
    let _width = view.w;
    times(size, view.u)
}

/// So many times the side of a pixel.
fn times(size: u32, u: i64) -> i64
    requires few { size ≤ 256 }
    requires side { pos 1 ≤ℤ u }
    requires small { u ≤ℤ pos 4000000000000000 }
    ensures value { result ≡ pos size *ℤ u }
    ensures radius { IsRadius result }
{
    i64::from(size) * u
}

/// The run of columns that a pen of half-side `r` hits.
pub fn stroke_between(
    a: Point,
    b: Point,
    r: i64,
    view: &View,
    row: u32,
    columns: Span,
) -> Option<Span>
    requires radius { IsRadius r }
    requires row { row < view.now.h }
    requires order { columns.from ≤ columns.end }
    requires within { columns.end ≤ view.now.w }
    ensures { AreRuns (λ i. is_near r (centre_of view.now i row) (a, b)) columns.from columns.end
        (option_to_list result) }
{
    let _width = view.w;
    if !overlaps_upwards(a, b, centre(view, 0, row), r) {
        return None;
    }
    if is_upwards(a, b) {
        stroke_up(a, b, r, view, row, columns)
    } else {
        stroke_up(b, a, r, view, row, columns)
    }
}

/// Whether a point stands at a height of at most that of another.
fn is_upwards(a: Point, b: Point) -> bool
    ensures { result ≡ int_le a.y b.y }
{
    a.y <= b.y
}

/// The run of columns that a pen of half-side `r` hits along a segment from its lower end up, at a height
/// at which they overlap.
fn stroke_up(low: Point, high: Point, r: i64, view: &View, row: u32, columns: Span) -> Option<Span>
    requires radius { IsRadius r }
    requires rises { low.y ≤ℤ high.y }
    requires row { row < view.now.h }
    requires order { columns.from ≤ columns.end }
    requires within { columns.end ≤ view.now.w }
    ensures { AreRuns
        (λ i. not (is_before r (centre_of view.now i row) (doubled low) (doubled high))
        && is_reached r (centre_of view.now i row) (doubled low) (doubled high))
        columns.from columns.end (option_to_list result) }
{
    let _width = view.w;
    let rise = rise_at(low, high, centre(view, 0, row));
    let way = corner_way(low, high, r);
    let (least, most) = (rise - way, rise + way);
    run_between(
        columns,
        |i| is_before(low, high, centre(view, i, row), r, least),
        |i| is_reached(low, high, centre(view, i, row), r, most),
    )
}
