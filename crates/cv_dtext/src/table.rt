//! The whole text: its header, and the features behind it.

ghost use Rattle.std.specs.Prelude.{◌≡◌, ◌≢◌, ◌≤◌, length, Ok, Err, IfOk, IfErr};
ghost use Rattle.cv_dtext.specs.Refusals.{features_of};

use crate::features::gather;
use crate::fields::{column, other_texts};
use crate::options::{TextError, TextOptions};
use crate::records::{next_texts, records};
use csv::ByteRecord;
use cv_model::{FeatureList, MOST_BYTES};
use std::alloc::Global;

/// The features of a text, or why it is refused; or want of memory.
pub fn read_table(
    alloc: Global,
    bytes: &[u8],
    options: &TextOptions,
) -> Result<FeatureList, TextError>
    requires { length bytes.now ≤ MOST_BYTES }
    ensures ok { IfOk result (λ table. features_of options.now bytes.now ≡ Ok table) }
    ensures err { IfErr result (λ e. e ≢ TextError.NoMemory
        → features_of options.now bytes.now ≡ Err e) }
{
    let mut reader = records(alloc, bytes, options.delimiter);
    let next = next_texts(&mut reader, ByteRecord::new(alloc), 0)?;
    let Some(header) = next else {
        return Err(TextError::NoHeader);
    };
    let Some(place) = column(&header, options.geometry.as_str()) else {
        return Err(TextError::NoGeometryColumn);
    };
    let gathered = gather(alloc, &mut reader, &header, place, options)?;
    let Ok(columns) = other_texts(alloc, &header, place) else {
        return Err(TextError::NoMemory);
    };
    Ok(FeatureList::of(columns, gathered.features, gathered.notes))
}
