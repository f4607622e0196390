//! Many marks brought into order by a plane of one bit for each pixel.

ghost use Rattle.std.specs.Prelude.{◌≡◌, ◌+◌, ◌-◌, ◌*◌, ◌≤◌, ◌<◌, ◌==◌, ◌%◌, ◌⊎◌, ℕ, [], OnOk, length, All};
ghost use Rattle.cv_geom.specs.Runs.{Adds, rows_of};
ghost use Rattle.cv_scan.specs.Marks.{MarkIn};
ghost use Rattle.cv_scan.specs.Planes.{bit_of, bits_right, toggled, width_of, first_of, HasBits, HoldMarks};
ghost use Rattle.cv_scan.specs.Planes.{set_marks};

use crate::marks::{Mark, put_pairs};
use cv_geom::{Area, Runs};
use cv_model::NoMemory;

/// How many pixels an area has.
pub fn size(area: Area) -> usize
    requires columns { area.columns.from ≤ area.columns.end }
    requires rows { area.rows.from ≤ area.rows.end }
    ensures { result ≡ rows_of area * width_of area }
{
    let rows = (area.rows.end - area.rows.from) as usize;
    let columns = (area.columns.end - area.columns.from) as usize;
    rows * columns
}

/// Makes a plane of an area none of whose bits is set, if there is none yet.
pub fn have_plane(bits: &mut Vec<u64>, area: Area) -> Result<(), NoMemory>
    requires columns { area.columns.from ≤ area.columns.end }
    requires rows { area.rows.from ≤ area.rows.end }
    requires plane { (bits.old.items ≡ []) ⊎ HasBits area bits.old.items }
    ensures room { OnOk result (HasBits area bits.new.items) }
    ensures same { OnOk result ((place : ℕ) → bit_of bits.new.items place ≡ bit_of bits.old.items place) }
{
    if bits.is_empty() {
        clear(bits, area)
    } else {
        Ok(())
    }
}

/// Makes a bit for each pixel of an area, none of which is set.
fn clear(bits: &mut Vec<u64>, area: Area) -> Result<(), NoMemory>
    requires columns { area.columns.from ≤ area.columns.end }
    requires rows { area.rows.from ≤ area.rows.end }
    ensures room { OnOk result (HasBits area bits.new.items) }
    ensures clear { OnOk result ((place : ℕ) → bit_of bits.new.items place ≡ 0) }
{
    let count = size(area) / 64 + 1;
    bits.clear();
    let mut n = 0;
    while n < count {
        bits.push(0)?;
        n += 1;
    }
    Ok(())
}

/// The place of a pixel's bit.
fn place_of(area: Area, row: u32, column: u32) -> usize
    requires north { area.rows.from ≤ row }
    requires south { row < area.rows.end }
    requires west { area.columns.from ≤ column }
    requires east { column < area.columns.end }
    ensures value { result ≡ first_of area row + (column - area.columns.from) }
    ensures within { result < rows_of area * width_of area }
{
    let rows = (row - area.rows.from) as usize;
    let columns = (area.columns.end - area.columns.from) as usize;
    rows * columns + (column - area.columns.from) as usize
}

/// Changes the bit at a place.
fn toggle(bits: &mut Vec<u64>, place: usize)
    requires { place < 64 * length bits.old.items }
    ensures { bits.new.items ≡ toggled bits.old.items place }
{
    bits[place / 64] ^= 1 << (place % 64);
}

/// Whether the bit at a place is set.
fn is_set(bits: &[u64], place: usize) -> bool
    requires { place < 64 * length bits.now }
    ensures { result ≡ (bit_of bits.now place == 1) }
{
    (bits[place / 64] >> (place % 64)) & 1 == 1
}

/// Changes the bit of the last pixel left of each mark, if there is one.
pub fn toggle_all(bits: &mut Vec<u64>, marks: &[Mark], area: Area)
    requires marks { All (MarkIn area) marks.now }
    requires room { HasBits area bits.old.items }
    ensures { HoldMarks area marks.now bits.old.items bits.new.items }
{
    for mark in marks {
        let Mark { row, column } = *mark;
        if area.columns.from < column {
            toggle(bits, place_of(area, row, column - 1));
        }
    }
}

/// Puts the runs of all rows of an area behind others, which end at each other set bit. The list holds the
/// marks of a row.
pub fn put_bit_rows(
    bits: &[u64],
    area: Area,
    marks: &mut Vec<Mark>,
    into: &mut Runs,
) -> Result<(), NoMemory>
    requires columns { area.columns.from ≤ area.columns.end }
    requires rows { area.rows.from ≤ area.rows.end }
    requires room { HasBits area bits.now }
    ensures { OnOk result (Adds (λ i j. bits_right i j area bits.now % 2 == 1) area into.old into.new) }
{
    for row in area.rows.from..area.rows.end {
        read_row(bits, area, row, marks)?;
        put_pairs(marks, area.columns.from, into)?;
    }
    Ok(())
}

/// Puts the marks of a row's set bits into a list in place of what it held, the rightmost first.
fn read_row(bits: &[u64], area: Area, row: u32, marks: &mut Vec<Mark>) -> Result<(), NoMemory>
    requires north { area.rows.from ≤ row }
    requires south { row < area.rows.end }
    requires columns { area.columns.from ≤ area.columns.end }
    requires room { HasBits area bits.now }
    ensures { OnOk result (marks.new.items ≡ set_marks bits.now area row (width_of area)) }
{
    marks.clear();
    let mut column = area.columns.end;
    while area.columns.from < column {
        if is_set(bits, place_of(area, row, column - 1)) {
            marks.push(Mark { row, column })?;
        }
        column -= 1;
    }
    Ok(())
}
