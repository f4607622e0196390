//! One record after the other.

ghost use Rattle.std.specs.Prelude.{◌≡◌, ◌≤◌, Option, List, ℕ, Some, None, length};
ghost use Rattle.csv.specs.declared.parser.State.{State};
ghost use Rattle.cv_model.specs.declared.delimiter.Delimiter.{Delimiter};
ghost use Rattle.cv_dtext.specs.Records.{delimiter_byte, records_of};
ghost use Rattle.cv_dtext.specs.Records.{slice_left, Stands, IsNext, IsBetween, IsNextTexts, records_left};
ghost use Rattle.cv_dtext.specs.Records.{bytes_left};

use crate::options::TextError;
use csv::{ByteRecord, ErrorKind, Reader, ReaderBuilder, StringRecord};
use cv_model::Delimiter;
use std::alloc::Global;

fn delimiter_byte(delimiter: Delimiter) -> u8
    ensures { result ≡ delimiter_byte delimiter }
{
    match delimiter {
        Delimiter::Comma => b',',
        Delimiter::Semicolon => b';',
        Delimiter::Tab => b'\t',
    }
}

/// A reader of the records of these bytes, the header among them.
pub fn records(alloc: Global, bytes: &[u8], delimiter: Delimiter) -> Reader<&[u8]>
    ensures between { IsBetween slice_left delimiter result }
    ensures first { result.expected ≡ None }
    ensures all { records_left slice_left delimiter result ≡ records_of delimiter bytes.now }
    ensures short { length (bytes_left slice_left result) ≤ length bytes.now }
{
    ReaderBuilder::new()
        .delimiter(delimiter_byte(delimiter))
        .has_headers(false)
        .from_reader(alloc, bytes)
}

/// The next record as bytes, if there is one; it is counted by this number. The memory is that of a record
/// that is of no more use.
fn next_bytes(
    reader: &mut Reader<&[u8]>,
    spent: ByteRecord,
    number: u32,
) -> Result<Option<ByteRecord>, TextError>
    ensures { (d : Delimiter) (s : State) (left : List ℕ) (width : Option ℕ)
        → Stands slice_left d reader.old s left width
        → IsNext slice_left d s left width number reader.new result }
{
    let mut found = spent;
    match reader.read_byte_record(&mut found) {
        Ok(true) => Ok(Some(found)),
        Ok(false) => Ok(None),
        Err(error) => match error.into_kind() {
            ErrorKind::UnequalLengths { .. } => Err(TextError::Uneven(number)),
            _ => Err(TextError::NoMemory),
        },
    }
}

/// The next record of texts, if there is a record; it is counted by this number. The memory is that of a
/// record that is of no more use.
pub fn next_texts(
    reader: &mut Reader<&[u8]>,
    spent: ByteRecord,
    number: u32,
) -> Result<Option<StringRecord>, TextError>
    ensures { (d : Delimiter) → IsBetween slice_left d reader.old
        → IsNextTexts slice_left d number reader.old reader.new result }
{
    let next = next_bytes(reader, spent, number)?;
    let Some(found) = next else {
        return Ok(None);
    };
    match StringRecord::from_byte_record(found) {
        Ok(texts) => Ok(Some(texts)),
        Err(_) => Err(TextError::NotUtf8(number)),
    }
}
