//! The features of all records behind the header.

ghost use Rattle.std.specs.Prelude.{◌≡◌, ◌≢◌, ◌<◌, ◌≤◌, [], length, Some, Ok, Err, IfOk, IfErr};
ghost use Rattle.csv.specs.Records.{fields_of};
ghost use Rattle.cv_model.specs.Features.{IsFeatureTable};
ghost use Rattle.cv_dtext.specs.Refusals.{answer_behind};
ghost use Rattle.cv_dtext.specs.Records.{slice_left, IsBetween, bytes_left, records_left};
ghost use Rattle.cv_dtext.specs.Gathered.{tabled};

use crate::gathered::Gathered;
use crate::options::{TextError, TextOptions};
use crate::records::next_texts;
use csv::{ByteRecord, Reader, StringRecord};
use cv_model::MOST_BYTES;
use std::alloc::Global;

/// Above the numbers of the turns: a record takes a byte at least, so there are as many as bytes at most, and
/// one turn more finds the end.
const END: u32 = MOST_BYTES as u32 + 2;

/// What is gathered of the records that are left behind a header, with the geometry's column at a place.
pub fn gather(
    alloc: Global,
    reader: &mut Reader<&[u8]>,
    header: &StringRecord,
    place: usize,
    options: &TextOptions,
) -> Result<Gathered, TextError>
    requires between { IsBetween slice_left options.now.delimiter reader.old }
    requires expects { reader.old.expected ≡ Some (length (fields_of header.now)) }
    requires within { place < length (fields_of header.now) }
    requires short { length (bytes_left slice_left reader.old) ≤ MOST_BYTES }
    ensures ok { IfOk result (λ g.
        answer_behind options.now.room place (fields_of header.now) []
        (records_left slice_left options.now.delimiter reader.old)
        ≡ Ok (tabled place (fields_of header.now) g)) }
    ensures table { IfOk result (λ g. IsFeatureTable (tabled place (fields_of header.now) g)) }
    ensures err { IfErr result (λ e. e ≢ TextError.NoMemory →
        answer_behind options.now.room place (fields_of header.now) []
        (records_left slice_left options.now.delimiter reader.old) ≡ Err e) }
{
    let mut gathered = Gathered::new(alloc);
    let mut spent = ByteRecord::new(alloc);
    for number in 1..END {
        let next = next_texts(reader, spent, number)?;
        let Some(texts) = next else {
            return Ok(gathered);
        };
        gathered.add(alloc, &texts, place, number, &options.room)?;
        spent = texts.into_byte_record();
    }
    Err(TextError::TooMany)
}
