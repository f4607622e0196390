//! How far the crossing of an edge with a row's height reaches.

ghost use Rattle.std.specs.Prelude.{◌≡◌, ◌≤◌, ◌<◌, true, false, pos, ◌*ℤ◌};
ghost use Rattle.cv_model.specs.Positions.{doubled};
ghost use Rattle.cv_model.specs.Polygons.{is_low, is_crossed};
ghost use Rattle.cv_model.specs.Views.{centre_of};
ghost use Rattle.cv_geom.specs.Falls.{FallsAt};
ghost use Rattle.cv_scan.specs.Reaches.{edge_reach, EdgesCrossTheFirst};

use crate::crossings::{column_of_crossing, columns_between};
use cv_geom::{Multiples, centre, doubled_sides, is_low};
use cv_model::{Point, Span, View};

/// How many centres of a row lie strictly left of the edge between two points; none where the edge doesn't
/// pass the row's height.
pub fn reach(a: Point, b: Point, view: &View, row: u32) -> u32
    requires { row < view.now.h }
    ensures { result ≡ edge_reach view.now row (a, b) }
{
    let sides = doubled_sides(view);
    let columns = Span {
        from: 0,
        end: view.w,
    };
    reach_in(a, b, view, &sides, row, columns)
}

/// The first of some columns whose centre in a row doesn't lie strictly left of the edge between two points:
/// the end of the columns if each does, their first one where the edge doesn't pass the row's height.
pub fn reach_in(a: Point, b: Point, view: &View, sides: &Multiples, row: u32, columns: Span) -> u32
    requires sides { pos sides.now ≡ pos 2 *ℤ view.now.u }
    requires row { row < view.now.h }
    requires order { columns.from ≤ columns.end }
    requires within { columns.end ≤ view.now.w }
    ensures { FallsAt (λ i. is_crossed (centre_of view.now i row) (a, b)) columns.from columns.end result }
{
    let _width = view.w;
    let p = centre(view, 0, row);
    let low_a = is_low(a, p);
    if low_a == is_low(b, p) {
        columns.from
    } else if low_a {
        reach_up(a, b, view, sides, row, columns)
    } else {
        reach_up(b, a, view, sides, row, columns)
    }
}

/// As `reach_in`, of the line from a point that is low at the row's height up to one that isn't.
fn reach_up(low: Point, high: Point, view: &View, sides: &Multiples, row: u32, columns: Span) -> u32
    requires sides { pos sides.now ≡ pos 2 *ℤ view.now.u }
    requires row { row < view.now.h }
    requires order { columns.from ≤ columns.end }
    requires within { columns.end ≤ view.now.w }
    requires low { is_low (centre_of view.now 0 row) (doubled low) ≡ true }
    requires high { is_low (centre_of view.now 0 row) (doubled high) ≡ false }
    ensures { FallsAt (λ i. is_crossed (centre_of view.now i row) (low, high)) columns.from columns.end
        result }
{
    let between = columns_between(low, high, view, sides, columns);
    column_of_crossing(low, high, view, row, between)
}

/// A column lies left of an edge's crossing exactly where it is below the edge's reach.
pub fn edges_cross_the_first()
    ensures { EdgesCrossTheFirst }
{}
