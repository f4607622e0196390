//! The reader of delimited text with a column of well-known text.
//!
//! Contract: the features and notes are those of the records, and of the records that are refused the first
//! decides.
//! Definitions: `Records`, which cites those of the crate `csv`; `Cell`, over the grammar of `cv_wkt`;
//! `Table`, the features of records; `Refusals`, the answer to them.
//! Memory is taken for what is read and for one record at a time; no handle is needed.
#![tactic(auto)]

ghost use Rattle.std.specs.Prelude.{◌≡◌, ◌≢◌, ◌≤◌, ◌↔◌, length, Ok, Err, IfOk};
ghost use Rattle.cv_model.specs.Features.{FeatureTable};
ghost use Rattle.cv_dtext.specs.Refusals.{IsRead, IsRefused, features_of};

mod cell;
mod counts;
mod features;
mod fields;
mod gathered;
mod laws;
mod options;
mod records;
mod table;

use cv_model::{FeatureList, MOST_BYTES};
pub use laws::features_are_read;
pub use options::{TextError, TextOptions};
use std::alloc::Global;

/// The features of a delimited text, or why it is refused.
///
/// The first record is the header, and each other one a feature, whose id is the record's number. Its
/// geometry is what the cell under the geometry's column says in well-known text; an empty or white cell says
/// nothing, and a cell that is refused gives a note. The first record that shows a cause of refusal decides.
/// Source: RFC 4180 as the crate `csv` reads it, without trimming; well-known text of OGC 06-103r4.
pub fn read(alloc: Global, bytes: &[u8], options: &TextOptions) -> Result<FeatureList, TextError>
    requires { length bytes.now ≤ MOST_BYTES }
    // There is a header with the geometry's column, no record shows a cause, and the table is theirs.
    ensures found { IfOk result (IsRead options.now bytes.now) }
    ensures only { (table : FeatureTable) → IsRead options.now bytes.now table
        → (result ≢ Err TextError.NoMemory) → result ≡ Ok table }

    // There is no record, or the first that shows a cause shows this one.
    ensures fault { (e : TextError) → (result ≢ Err TextError.NoMemory)
        → (result ≡ Err e) ↔ IsRefused options.now bytes.now e }

    // The same as a function.
    ensures exact { (result ≢ Err TextError.NoMemory) → result ≡ features_of options.now bytes.now }
{
    table::read_table(alloc, bytes, options)
}

#[cfg(test)]
mod tests;
