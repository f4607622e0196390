//! The cells of a grid.

ghost use Rattle.std.specs.Prelude.{◌≡◌, ◌≢◌, ◌≤◌, ◌<◌, ◌*◌, false, length, drop, slice_index, [], Ok, Err};
ghost use Rattle.std.specs.Prelude.{IfOk, IfErr};
ghost use Rattle.cv_reading.specs.Space.{is_space};
ghost use Rattle.cv_reading.specs.Tokens.{cut};
ghost use Rattle.cv_grid.specs.Tokens.{byte_kind};
ghost use Rattle.cv_grid.specs.Cells.{void_number, cell_of, limited};
ghost use Rattle.cv_grid.specs.Answers.{cells_from};
ghost use Rattle.cv_grid.specs.Scanning.{CellsAlong};

use crate::error::GridError;
use crate::token::rest;
use crate::value::{first_value, millionths};
use crate::window::{guessed_ends, short_number};
use cv_decimal::Fixed;
use cv_model::{Cell, CellList, NoMemory};
use cv_reading::is_space;
use std::alloc::Global;

/// The largest value, 10^15 millionths.
const LIMIT: i64 = 1_000_000_000_000_000;

/// The number of a decimal; one beyond the range counts as the limit, and `nan` is none.
#[inline]
fn limited(value: Fixed) -> Option<i64>
    ensures { result ≡ limited value }
{
    match value {
        Fixed::Value(millionths) => Some(millionths),
        Fixed::High => Some(LIMIT),
        Fixed::Low => Some(-LIMIT),
        Fixed::NotNumber => None,
    }
}

/// The number that stands for no data, by what a header said.
pub fn void_number(nodata: Option<Fixed>) -> Option<i64>
    ensures { result ≡ void_number nodata }
{
    match nodata {
        None => Some(-9_999_000_000),
        Some(value) => limited(value),
    }
}

/// The cell of a decimal, where `void` stands for no data.
#[inline]
fn cell(void: Option<i64>, value: Fixed) -> Cell
    ensures { result ≡ cell_of void value }
{
    match limited(value) {
        None => Cell::Void,
        Some(number) => match void {
            None => Cell::Value(number),
            Some(none) => {
                if number == none {
                    Cell::Void
                } else {
                    Cell::Value(number)
                }
            }
        },
    }
}

/// Puts up to eight cells from an offset on, each of one to three digits before a space, as far as there are
/// such; none near the end of the text. Answers where it stopped.
#[inline]
fn put_short(
    text: &[u8],
    start: usize,
    total: u32,
    void: Option<i64>,
    cells: &mut CellList,
) -> Result<usize, NoMemory>
    requires start { start ≤ length text.now }
    requires few { length cells.old ≤ total }
    ensures { IfOk result (λ at. CellsAlong text.now start total void cells.old at cells.new) }
{
    if start < 2 || text.len() - start <= 64 {
        return Ok(start);
    }
    let mut at = start;
    let mut ends = guessed_ends(text, start);
    for _ in 0..8u32 {
        let end = start + ends.trailing_zeros() as usize;
        if cells.len() == u64::from(total) {
            return Ok(at);
        }
        match short_number(text, at, end) {
            Some(number) => {
                cells.put(cell(void, Fixed::Value(millionths(number))))?;
                at = end + 1;
            }
            None => return Ok(at),
        }
        ends &= ends.wrapping_sub(1);
    }
    Ok(at)
}

/// Puts the cell of the token at an offset, whatever its form. Answers where the token ends.
fn put_first(
    text: &[u8],
    at: usize,
    total: u32,
    void: Option<i64>,
    cells: &mut CellList,
) -> Result<usize, GridError>
    requires at { at < length text.now }
    requires token { is_space (slice_index text.now at) ≡ false }
    requires few { length cells.old ≤ total }
    ensures ok { IfOk result (λ next. CellsAlong text.now at total void cells.old next cells.new) }
    ensures further { IfOk result (λ next. at < next) }
    ensures err { IfErr result (λ e. (e ≢ GridError.NoMemory)
        → cells_from total void (cut byte_kind at (drop at text.now)) cells.old ≡ Err e) }
{
    if cells.len() >= u64::from(total) {
        return Err(GridError::TooMany);
    }
    match first_value(rest(text, at)) {
        Some(spelt) => match cells.put(cell(void, spelt.value)) {
            Ok(()) => Ok(at + spelt.len),
            Err(_) => Err(GridError::NoMemory),
        },
        None => Err(GridError::BadNumber(at as u64)),
    }
}

/// The cells of the decimals from an offset on, which are to be so many; or the first refusal.
pub fn read_cells(
    alloc: Global,
    text: &[u8],
    start: usize,
    total: u32,
    void: Option<i64>,
) -> Result<CellList, GridError>
    requires start { start ≤ length text.now }
    ensures ok { IfOk result (λ cells.
        cells_from total void (cut byte_kind start (drop start text.now)) [] ≡ Ok cells) }
    ensures whole { IfOk result (λ cells. length cells ≡ total) }
    ensures err { IfErr result (λ e. (e ≢ GridError.NoMemory)
        → cells_from total void (cut byte_kind start (drop start text.now)) [] ≡ Err e) }
{
    let room = u64::from(total).min((text.len() - start) as u64 / 2 + 1);
    let mut cells = match CellList::with_room(alloc, room) {
        Ok(cells) => cells,
        Err(_) => return Err(GridError::NoMemory),
    };
    let mut at = start;
    while at < text.len() {
        if is_space(text[at]) {
            at += 1;
        } else {
            let next = match put_short(text, at, total, void, &mut cells) {
                Ok(next) => next,
                Err(_) => return Err(GridError::NoMemory),
            };
            if next > at {
                at = next;
            } else {
                at = match put_first(text, at, total, void, &mut cells) {
                    Ok(end) => end,
                    Err(refusal) => return Err(refusal),
                };
            }
        }
    }
    if cells.len() == u64::from(total) {
        Ok(cells)
    } else {
        Err(GridError::TooFew(cells.len() as u32))
    }
}
