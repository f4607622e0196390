//! Marks that a scan holds: up to two for each row, others in a list, and once that is full in a plane of one
//! bit for each pixel.

ghost use Rattle.std.specs.Prelude.{◌≡◌, ◌≤◌, ◌==◌, ◌%◌, ℕ, OnOk, [], if◌then◌else◌, pos, ◌*ℤ◌};
ghost use Rattle.cv_geom.specs.Runs.{Adds, IsArea};
ghost use Rattle.cv_scan.specs.Held.{AddsMarks, IsHeld, held_right};
ghost use Rattle.cv_scan.specs.Marks.{MarkIn, is_right};
ghost use Rattle.cv_scan.specs.Planes.{HasBits};

use crate::marks::{Mark, put_sorted_runs};
use crate::pairs::{have_pairs, list_pairs, put_in_pair, put_pair_runs, rows_reached};
use crate::planes::{have_plane, put_bit_rows, size, toggle_all};
use crate::scratch::Scratch;
use cv_geom::{Area, Multiples, Runs};
use cv_model::{NoMemory, Polygon, View};

/// Lets go of the marks of a scan, keeps its memory, and makes pairs for the rows that a polygon may reach.
pub fn begin(
    scratch: &mut Scratch,
    polygon: &Polygon,
    view: &View,
    sides: &Multiples,
    area: Area,
) -> Result<(), NoMemory>
    requires sides { pos sides.now ≡ pos 2 *ℤ view.now.u }
    requires area { IsArea view.now.w view.now.h area }
    ensures held { OnOk result (IsHeld area scratch.new) }
    ensures none { OnOk result ((i j : ℕ) → held_right i j area scratch.new ≡ 0) }
{
    let rows = rows_reached(polygon, view, sides, area.rows);
    scratch.marks.clear();
    scratch.bits.clear();
    scratch.first = rows.from;
    have_pairs(&mut scratch.pairs, (rows.end - rows.from) as usize)?;
    Ok(())
}

/// Puts a mark with the others: with those of its row, or in the list.
#[inline(always)]
pub fn put_mark(scratch: &mut Scratch, area: &Area, mark: Mark) -> Result<(), NoMemory>
    requires columns { area.now.columns.from ≤ area.now.columns.end }
    requires rows { area.now.rows.from ≤ area.now.rows.end }
    requires mark { MarkIn area.now mark }
    requires held { IsHeld area.now scratch.old }
    ensures { OnOk result
        (AddsMarks (λ i j. if is_right i j mark then 1 else 0) area.now scratch.old scratch.new) }
{
    if put_in_pair(&mut scratch.pairs, scratch.first, mark) {
        return Ok(());
    }
    put_in_list(scratch, area, mark)
}

/// Puts a mark with the others, in the list.
#[inline(never)]
fn put_in_list(scratch: &mut Scratch, area: &Area, mark: Mark) -> Result<(), NoMemory>
    requires columns { area.now.columns.from ≤ area.now.columns.end }
    requires rows { area.now.rows.from ≤ area.now.rows.end }
    requires mark { MarkIn area.now mark }
    requires held { IsHeld area.now scratch.old }
    ensures { OnOk result
        (AddsMarks (λ i j. if is_right i j mark then 1 else 0) area.now scratch.old scratch.new) }
{
    make_room(scratch, *area)?;
    scratch.marks.push(mark)?;
    Ok(())
}

/// Brings the marks of the list into the plane, if they are more than the words of a plane.
fn make_room(scratch: &mut Scratch, area: Area) -> Result<(), NoMemory>
    requires columns { area.columns.from ≤ area.columns.end }
    requires rows { area.rows.from ≤ area.rows.end }
    requires held { IsHeld area scratch.old }
    ensures { OnOk result (AddsMarks (λ i j. 0) area scratch.old scratch.new) }
{
    if scratch.marks.len() <= size(area) / 64 {
        return Ok(());
    }
    to_plane(scratch, area)
}

/// Brings the marks of the list into the plane.
fn to_plane(scratch: &mut Scratch, area: Area) -> Result<(), NoMemory>
    requires columns { area.columns.from ≤ area.columns.end }
    requires rows { area.rows.from ≤ area.rows.end }
    requires held { IsHeld area scratch.old }
    ensures same { OnOk result (AddsMarks (λ i j. 0) area scratch.old scratch.new) }
    ensures room { OnOk result (HasBits area scratch.new.bits.items) }
    ensures none { OnOk result (scratch.new.marks.items ≡ []) }
    ensures pairs { OnOk result (scratch.new.pairs.items ≡ scratch.old.pairs.items) }
{
    have_plane(&mut scratch.bits, area)?;
    toggle_all(&mut scratch.bits, &scratch.marks, area);
    scratch.marks.clear();
    Ok(())
}

/// Puts the runs that lie left of an odd number of marks behind others.
///
/// Marks by rows alone are read row by row. Else they are brought into the list, and that is sorted, or, once
/// there is a plane, brought into it.
pub fn put_runs(scratch: &mut Scratch, area: Area, into: &mut Runs) -> Result<(), NoMemory>
    requires columns { area.columns.from ≤ area.columns.end }
    requires rows { area.rows.from ≤ area.rows.end }
    requires held { IsHeld area scratch.old }
    ensures { OnOk result
        (Adds (λ i j. held_right i j area scratch.old % 2 == 1) area into.old into.new) }
{
    if !scratch.marks.is_empty() || !scratch.bits.is_empty() {
        to_list(scratch, area)?;
        put_listed_runs(scratch, area, into)?;
        return Ok(());
    }
    put_pair_runs(&scratch.pairs, scratch.first, area, into)?;
    Ok(())
}

/// Brings the marks by rows into the list.
fn to_list(scratch: &mut Scratch, area: Area) -> Result<(), NoMemory>
    requires held { IsHeld area scratch.old }
    ensures same { OnOk result (AddsMarks (λ i j. 0) area scratch.old scratch.new) }
    ensures none { OnOk result (scratch.new.pairs.items ≡ []) }
{
    list_pairs(&scratch.pairs, scratch.first, area, &mut scratch.marks)?;
    scratch.pairs.clear();
    Ok(())
}

/// Puts the runs that lie left of an odd number of marks behind others, where none is kept by rows.
fn put_listed_runs(scratch: &mut Scratch, area: Area, into: &mut Runs) -> Result<(), NoMemory>
    requires columns { area.columns.from ≤ area.columns.end }
    requires rows { area.rows.from ≤ area.rows.end }
    requires held { IsHeld area scratch.old }
    requires none { scratch.old.pairs.items ≡ [] }
    ensures { OnOk result
        (Adds (λ i j. held_right i j area scratch.old % 2 == 1) area into.old into.new) }
{
    if !scratch.bits.is_empty() {
        return put_runs_by_bits(scratch, area, into);
    }
    put_sorted_runs(&mut scratch.marks, area, into)?;
    Ok(())
}

/// Puts the runs that lie left of an odd number of marks behind others, by the plane.
fn put_runs_by_bits(scratch: &mut Scratch, area: Area, into: &mut Runs) -> Result<(), NoMemory>
    requires columns { area.columns.from ≤ area.columns.end }
    requires rows { area.rows.from ≤ area.rows.end }
    requires held { IsHeld area scratch.old }
    requires none { scratch.old.pairs.items ≡ [] }
    ensures { OnOk result
        (Adds (λ i j. held_right i j area scratch.old % 2 == 1) area into.old into.new) }
{
    to_plane(scratch, area)?;
    put_bit_rows(&scratch.bits, area, &mut scratch.marks, into)?;
    Ok(())
}
