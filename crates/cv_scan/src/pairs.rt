//! Marks by rows: up to two for each row that an area inside a polygon may reach.

ghost use Rattle.std.specs.Prelude.{◌≡◌, ◌+◌, ◌≤◌, ◌<◌, ◌==◌, ◌%◌, ℕ, true, false, pos, ◌*ℤ◌};
ghost use Rattle.std.specs.Prelude.{OnOk, IfSome, length, All};
ghost use Rattle.cv_geom.specs.Runs.{Adds, IsIn};
ghost use Rattle.cv_scan.specs.Marks.{MarkIn, marks_right};
ghost use Rattle.cv_scan.specs.Pairs.{HasMark, PairsIn, PutsMark, ReachesTo, pairs_right, row_right};

use crate::crossings::row_of;
use crate::marks::{Mark, put_run};
use cv_geom::{Area, Multiples, Runs};
use cv_model::{NoMemory, Point, Polygon, Span, View};

/// Up to two marks of a row, by how far each reaches; 0 where there is none.
#[derive(Clone, Copy, Debug, PartialEq, Eq)]
pub struct Pair {
    pub one: u32,
    pub other: u32,
}

/// No mark.
const EMPTY: Pair = Pair { one: 0, other: 0 };

/// The rows of an area between the highest and the lowest point of a polygon's first ring. Whoever puts marks
/// looks whether they lie in these rows.
pub fn rows_reached(polygon: &Polygon, view: &View, sides: &Multiples, rows: Span) -> Span
    requires sides { pos sides.now ≡ pos 2 *ℤ view.now.u }
    requires order { rows.from ≤ rows.end }
    requires within { rows.end ≤ view.now.h }
    ensures north { rows.from ≤ result.from }
    ensures order { result.from ≤ result.end }
    ensures south { result.end ≤ rows.end }
{
    let none = Span {
        from: rows.from,
        end: rows.from,
    };
    let Some(ring) = polygon.as_slice().first() else {
        return none;
    };
    let Some(first) = ring.as_slice().first() else {
        return none;
    };
    let ends = ends_of(ring.as_slice(), *first);
    let from = row_of(ends.1, view, sides, rows);
    let end = row_of(ends.0, view, sides, rows);
    Span {
        from: from.min(end),
        end: from.max(end),
    }
}

/// The lowest and the highest of some points and one more.
fn ends_of(points: &[Point], first: Point) -> (Point, Point) {
    let (mut low, mut high) = (first, first);
    for point in points {
        if point.y < low.y {
            low = *point;
        }
        if high.y < point.y {
            high = *point;
        }
    }
    (low, high)
}

/// Makes so many pairs without marks, in place of what a list held.
pub fn have_pairs(pairs: &mut Vec<Pair>, count: usize) -> Result<(), NoMemory>
    ensures count { OnOk result (length pairs.new.items ≡ count) }
    ensures none { OnOk result ((i j first : ℕ) → pairs_right i j first pairs.new.items ≡ 0) }
    ensures reaches { OnOk result ((most : ℕ) → All (ReachesTo most) pairs.new.items) }
{
    pairs.clear();
    pairs.resize(count, EMPTY)?;
    Ok(())
}

/// Puts a mark with the one of its row, if these are pairs of its row, and it has no two yet.
#[inline(always)]
pub fn put_in_pair(pairs: &mut [Pair], first: u32, mark: Mark) -> bool
    ensures put { result ≡ true → PutsMark first mark pairs.old pairs.new }
    ensures left { result ≡ false → pairs.new ≡ pairs.old }
{
    if mark.row < first || pairs.len() <= (mark.row - first) as usize {
        return false;
    }
    put_in_row(pairs, first, mark)
}

/// Puts a mark with the one of its row, of which these are pairs, if it has no two yet.
#[inline(always)]
pub fn put_in_row(pairs: &mut [Pair], first: u32, mark: Mark) -> bool
    requires north { first ≤ mark.row }
    requires south { mark.row < first + length pairs.old }
    ensures put { result ≡ true → PutsMark first mark pairs.old pairs.new }
    ensures left { result ≡ false → pairs.new ≡ pairs.old }
{
    let at = (mark.row - first) as usize;
    match with_mark(pairs[at], mark.column) {
        Some(pair) => {
            pairs[at] = pair;
            true
        }
        None => false,
    }
}

/// A pair with a mark more in front, unless it has two.
#[inline(always)]
fn with_mark(pair: Pair, column: u32) -> Option<Pair>
    ensures { IfSome result (HasMark pair column) }
{
    if pair.other == 0 {
        Some(Pair {
            one: column,
            other: pair.one,
        })
    } else {
        None
    }
}

/// Puts the runs that lie left of an odd number of the marks of pairs behind others.
pub fn put_pair_runs(
    pairs: &[Pair],
    first: u32,
    area: Area,
    into: &mut Runs,
) -> Result<(), NoMemory>
    requires { PairsIn area first pairs.now }
    ensures { OnOk result
        (Adds (λ i j. pairs_right i j first pairs.now % 2 == 1) area into.old into.new) }
{
    for at in 0..pairs.len() {
        let Pair { one, other } = pairs[at];
        let from = one.min(other).max(area.columns.from);
        put_run(first + at as u32, from, one.max(other), into)?;
    }
    Ok(())
}

/// Puts the marks of pairs that lie in an area behind others.
pub fn list_pairs(
    pairs: &[Pair],
    first: u32,
    area: Area,
    marks: &mut Vec<Mark>,
) -> Result<(), NoMemory>
    requires pairs { PairsIn area first pairs.now }
    requires within { All (MarkIn area) marks.old.items }
    ensures within { OnOk result (All (MarkIn area) marks.new.items) }
    ensures counted { OnOk result ((i j : ℕ) → IsIn area i j
        → marks_right i j marks.new.items
        ≡ marks_right i j marks.old.items + pairs_right i j first pairs.now) }
{
    for at in 0..pairs.len() {
        let row = first + at as u32;
        list_mark(row, pairs[at].one, area, marks)?;
        list_mark(row, pairs[at].other, area, marks)?;
    }
    Ok(())
}

/// Puts a mark behind others, if some pixel of an area lies left of it.
fn list_mark(row: u32, column: u32, area: Area, marks: &mut Vec<Mark>) -> Result<(), NoMemory>
    requires north { area.rows.from ≤ row }
    requires south { row < area.rows.end }
    requires east { column ≤ area.columns.end }
    requires within { All (MarkIn area) marks.old.items }
    ensures within { OnOk result (All (MarkIn area) marks.new.items) }
    ensures counted { OnOk result ((i j : ℕ) → IsIn area i j
        → marks_right i j marks.new.items ≡ marks_right i j marks.old.items + row_right i j row column) }
{
    if area.columns.from < column {
        marks.push(Mark { row, column })?;
    }
    Ok(())
}
