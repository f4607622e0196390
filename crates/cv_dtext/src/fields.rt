//! The fields of a record.

ghost use Rattle.std.specs.Prelude.{◌≡◌, ◌++◌, ◌≤◌, ◌<◌, ◌-◌, [], length, take, drop, slice_index_or};
ghost use Rattle.std.specs.Prelude.{bytes_eq, IfOk, IfSome, OnOk};
ghost use Rattle.csv.specs.Records.{fields_of};
ghost use Rattle.cv_dtext.specs.Table.{column_of, others};

use csv::StringRecord;
use cv_model::{NoMemory, Text, Values};
use std::alloc::Global;

/// The field at a place.
fn field(texts: &StringRecord, place: usize) -> &str
    requires { place < length (fields_of texts.now) }
    ensures { result.now ≡ slice_index_or (fields_of texts.now) place [] }
{
    match texts.get(place) {
        Some(field) => field,
        None => "",
    }
}

/// Whether the field at a place is a name.
fn is_named(texts: &StringRecord, place: usize, name: &str) -> bool
    requires { place < length (fields_of texts.now) }
    ensures { result ≡ bytes_eq name.now (slice_index_or (fields_of texts.now) place []) }
{
    name == field(texts, place)
}

/// The place of the first field that is a name.
pub fn column(header: &StringRecord, name: &str) -> Option<usize>
    ensures first { result ≡ column_of name.now (fields_of header.now) }
    ensures within { IfSome result (λ place. place < length (fields_of header.now)) }
{
    for place in 0..header.len() {
        if is_named(header, place, name) {
            return Some(place);
        }
    }
    None
}

/// The bytes of the field at a place.
pub fn bytes_at(texts: &StringRecord, place: usize) -> &[u8]
    requires { place < length (fields_of texts.now) }
    ensures { result.now ≡ slice_index_or (fields_of texts.now) place [] }
{
    field(texts, place).as_bytes()
}

/// Puts copies of the fields from one place up to another behind the values.
fn push_texts(
    alloc: Global,
    values: &mut Values,
    texts: &StringRecord,
    from: usize,
    to: usize,
) -> Result<(), NoMemory>
    requires order { from ≤ to }
    requires within { to ≤ length (fields_of texts.now) }
    ensures { OnOk result (values.new ≡ values.old ++ take (to - from) (drop from (fields_of texts.now))) }
{
    for place in from..to {
        values.put(Text::of(alloc, field(texts, place))?)?;
    }
    Ok(())
}

/// Copies of the fields but the one at a place.
pub fn other_texts(alloc: Global, texts: &StringRecord, place: usize) -> Result<Values, NoMemory>
    requires { place < length (fields_of texts.now) }
    ensures { IfOk result (λ values. values ≡ others place (fields_of texts.now)) }
{
    let mut values = Values::new(alloc);
    push_texts(alloc, &mut values, texts, 0, place)?;
    push_texts(alloc, &mut values, texts, place + 1, texts.len())?;
    Ok(values)
}
