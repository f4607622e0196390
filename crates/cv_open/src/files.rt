//! Files that are read from a shelf.

ghost use Rattle.std.specs.Prelude.{◌≤◌, length, IfOk, IfSome};
ghost use Rattle.cv_outside.specs.Seen.{shelf_seen, ShelfStands};
ghost use Rattle.cv_open.specs.Readings.{IsFetched};

use crate::ends::{End, Which};
use cv_outside::{Shelf, Unread, read_file};
use std::alloc::Global;

/// The bytes under a name, which is asked once; none where they are more than `max`.
pub fn fetch<F: Shelf>(
    alloc: Global,
    shelf: &mut F,
    which: Which,
    name: &str,
    max: u64,
) -> Result<Option<Vec<u8>>, End>
    ensures within { IfOk result (λ got. IfSome got (λ bytes. length bytes.items ≤ max)) }
    ensures stands { ShelfStands (shelf_seen F.Shelf shelf.old) (shelf_seen F.Shelf shelf.new) }
    ensures read { IsFetched (record { which = which; name = name.now }) max result
        (shelf_seen F.Shelf shelf.old) (shelf_seen F.Shelf shelf.new) }
{
    match read_file(alloc, shelf, name, max) {
        Ok(bytes) => Ok(Some(bytes)),
        Err(Unread::TooLong) => Ok(None),
        Err(Unread::Absent) => Err(End::Missing(which)),
        Err(Unread::Failed) => Err(End::ReadFault(which)),
        Err(Unread::NoMemory) => Err(End::NoMemory),
    }
}
