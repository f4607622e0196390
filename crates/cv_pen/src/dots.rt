//! The run of pixels that a marker covers in a row.

ghost use Rattle.std.specs.Prelude.{◌≡◌, ◌+◌, ◌≤◌, ◌<◌, option_to_list};
ghost use Rattle.cv_model.specs.Pens.{IsRadius};
ghost use Rattle.cv_model.specs.Markers.{is_marked};
ghost use Rattle.cv_model.specs.Pictures.{half_side};
ghost use Rattle.cv_model.specs.Views.{centre_of};
ghost use Rattle.cv_geom.specs.Spans.{AreRuns};
ghost use Rattle.cv_pen.specs.Dots.{IsMarkerSize, is_before, is_reached};

use crate::between::run_between;
use crate::boxes::columns_by;
use crate::strokes::half_side;
use cv_geom::{Steps, centre, distance_to, doubled_sides, marked};
use cv_model::{Point, Point2, Shape, Span, View};
use std::marker::Brand;
use std::sync::ledger::{Blank, Ledger};

/// The run of columns from `from` up to and without `to` that a marker on a point covers in a row; none
/// where it covers none.
///
/// The size is in pixels. The visit is one step.
pub fn marker_in<L: Ledger>(
    shape: Shape,
    at: Point,
    size: u32,
    view: &View,
    row: u32,
    from: u32,
    to: u32,
    steps: &mut Steps<L>,
) -> Option<Span>
    requires size { IsMarkerSize size }
    requires row { row < view.now.h }
    requires order { from ≤ to }
    requires within { to ≤ view.now.w }
    ensures run { AreRuns (λ i. is_marked shape (half_side view.now size) (centre_of view.now i row) at)
        from to (option_to_list result) }
    ensures cost { steps.new ≡ steps.old + 1 }
{
    steps.tick();
    let r = half_side(view, size);
    let sides = doubled_sides(view);
    let columns = columns_by(at, at, r, view, &sides, Span { from, end: to });
    marker_between(shape, at, r, view, row, columns)
}

/// The run of columns that a marker on a point covers in a row; none where it covers none. The size is in
/// pixels.
pub fn marker(shape: Shape, at: Point, size: u32, view: &View, row: u32) -> Option<Span>
    requires size { IsMarkerSize size }
    requires row { row < view.now.h }
    ensures { AreRuns (λ i. is_marked shape (half_side view.now size) (centre_of view.now i row) at)
        0 view.now.w (option_to_list result) }
{
    whole_marker::<Brand>(shape, at, size, view, row, Blank::new(1))
}

/// The run over all columns, with a count that nobody reads.
fn whole_marker<L: Ledger>(
    shape: Shape,
    at: Point,
    size: u32,
    view: &View,
    row: u32,
    blank: Blank,
) -> Option<Span>
    requires size { IsMarkerSize size }
    requires row { row < view.now.h }
    requires name { blank.name ≡ L.name }
    requires parts { blank.parts ≡ L.parts }
    requires some { 0 < L.parts }
    ensures { AreRuns (λ i. is_marked shape (half_side view.now size) (centre_of view.now i row) at)
        0 view.now.w (option_to_list result) }
{
    let mut steps = Steps::<L>::of(blank);
    marker_in(shape, at, size, view, row, 0, view.w, &mut steps)
}

/// The run of columns that a marker of radius `r` covers.
pub fn marker_between(
    shape: Shape,
    at: Point,
    r: i64,
    view: &View,
    row: u32,
    columns: Span,
) -> Option<Span>
    requires radius { IsRadius r }
    requires row { row < view.now.h }
    requires order { columns.from ≤ columns.end }
    requires within { columns.end ≤ view.now.w }
    ensures { AreRuns (λ i. is_marked shape r (centre_of view.now i row) at) columns.from columns.end
        (option_to_list result) }
{
    let _width = view.w;
    run_between(
        columns,
        |i| is_before(shape, at, centre(view, i, row), r),
        |i| is_reached(shape, at, centre(view, i, row), r),
    )
}

/// Whether a position lies left of the middle of a marker, below or above it, and isn't covered.
fn is_before(shape: Shape, at: Point, p: Point2, r: i64) -> bool
    requires { IsRadius r }
    ensures { result ≡ is_before shape r p at }
{
    distance_to(at.x, p.x) <= 0 && !marked(shape, at, p, r)
}

/// Whether a position is covered or lies left of the middle.
fn is_reached(shape: Shape, at: Point, p: Point2, r: i64) -> bool
    requires { IsRadius r }
    ensures { result ≡ is_reached shape r p at }
{
    distance_to(at.x, p.x) < 0 || marked(shape, at, p, r)
}
