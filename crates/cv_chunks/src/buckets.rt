//! The ranges that cover a row, for each row.

ghost use Rattle.std.specs.Prelude.{◌≡◌, ◌<◌, ◌≤◌, ◌^◌, ◌-◌, [], All, length, sum_by, slice_get, Some};
ghost use Rattle.std.specs.Prelude.{IfOk, OnOk, vec_len};
ghost use Rattle.cv_chunks.specs.Buckets.{IsWithinRows, IsEntered, buckets_of, length_of, numbers_of};

use crate::NoMemory;
use std::alloc::Global;
use std::marker::Model;

/// The rows from `first` to before `end`.
#[derive(Clone, Copy, Debug, PartialEq, Eq)]
pub struct RowRange {
    /// The first row.
    pub first: u32,
    /// The row behind the last.
    pub end: u32,
}

/// How many numbers the buckets of these ranges hold in all: the sum of the ranges' lengths. Each has four
/// bytes.
///
/// It takes one step a range. So a caller can ask it before [`Buckets::build`], and take another way where
/// it is too much: a million ranges over 4,096 rows each make 16 GB.
pub fn total_length(ranges: &[RowRange]) -> u64
    requires { length ranges.now < 2 ^ 32 }
    ensures { result ≡ sum_by length_of ranges.now }
{
    let mut total = 0;
    for range in ranges {
        total += u64::from(range.end.saturating_sub(range.first));
    }
    total
}

/// So many buckets with no number.
fn empty_buckets(alloc: Global, rows: u32) -> Result<Vec<Vec<u32>>, NoMemory>
    ensures { IfOk result (λ made. numbers_of made ≡ buckets_of rows []) }
{
    let mut buckets = Vec::with_capacity(alloc, rows as usize)?;
    for _ in 0..rows {
        buckets.push(Vec::new(alloc))?;
    }
    Ok(buckets)
}

/// Puts a number behind those of each row of a range.
fn enter(buckets: &mut Vec<Vec<u32>>, range: RowRange, number: u32) -> Result<(), NoMemory>
    requires { (range.first ≤ range.end) × (range.end ≤ vec_len buckets.old) }
    ensures { OnOk result
        (IsEntered (numbers_of buckets.old) (numbers_of buckets.new) range.first range.end number) }
{
    for row in range.first..range.end {
        buckets[row as usize].push(number)?;
    }
    Ok(())
}

/// For each row the numbers of the ranges that cover it, in ascending order, seen as a list of these lists.
#[derive(Drop)]
pub struct Buckets {
    rows: Vec<Vec<u32>>,
}

impl Model for Buckets {
    ghost use Rattle.std.specs.Prelude.{ℕ, List};
    ghost use Rattle.cv_chunks.specs.Buckets.{numbers_of};

    ghost Value = { List (List ℕ) };

    ghost view = { λ b. numbers_of b.rows };
}

impl Buckets {
    /// The numbers of the ranges that cover each row. Steps and memory grow with the rows, the ranges and
    /// [`total_length`]; the memory is at most about twice what the numbers need.
    pub fn build(alloc: Global, rows: u32, ranges: &[RowRange]) -> Result<Buckets, NoMemory>
        requires within { All (IsWithinRows rows) ranges.now }
        requires count { length ranges.now < 2 ^ 32 }
        ensures { IfOk result (λ made. made ≡ buckets_of rows ranges.now) }
    {
        let mut buckets = empty_buckets(alloc, rows)?;
        for (number, range) in ranges.iter().enumerate() {
            enter(&mut buckets, *range, number as u32)?;
        }
        Ok(Buckets { rows: buckets })
    }

    /// The numbers of the ranges that cover a row, in ascending order. Takes no memory.
    pub fn of_row(&self, row: u32) -> &[u32]
        requires { row < length self.now }
        ensures { slice_get self.now row ≡ Some result.now }
    {
        self.rows[row as usize].as_slice()
    }
}
