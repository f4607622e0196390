//! What a chunk and a group of chunks have in common, and the edits of a row of either.

ghost use Rattle.std.specs.Prelude.{◌≡◌, ◌<◌, ◌≤◌, ◌+◌, ◌-◌, ◌++◌, ◌^◌, ℕ, List, [], Bool, true, false};
ghost use Rattle.std.specs.Prelude.{length, slice_set, slice_get, OnOk, OnErr, IfErr, IfOk, insert, remove};
ghost use Rattle.std.specs.Prelude.{IsSomeAnd};
ghost use Rattle.std.specs.List.{flat_map};
ghost use Rattle.cv_chunks.specs.Clones.{ClonesAreEqual};
ghost use Rattle.cv_chunks.specs.Parts.{IsWithin, IsRunFrom, IsSpot, CutsPart};

use crate::NoMemory;
use std::alloc::{AllocError, Global};

/// How many elements a chunk has at most, and how many chunks a group.
pub(crate) const ROW: usize = 128;

/// A part of a list.
pub(crate) trait Part<T> {
    ghost items: { Self → List T };

    /// How many elements it has.
    fn len(&self) -> u64
        ensures { result ≡ length (items self.now) };

    /// The elements from a place on that stand side by side in memory.
    fn run_from(&self, at: u64) -> &[T]
        requires { at < length (items self.now) }
        ensures { IsRunFrom (items self.now) at result.now };
}

/// A part of a list that can be changed, whoever else shares what it holds: what is shared is copied first.
pub(crate) trait EditedPart<T: Clone>: Part<T> + Drop {
    ghost full: { Self → Bool };

    /// A part with no element.
    fn empty(alloc: Global) -> Result<Self, NoMemory>
        ensures { IfOk result (λ made. (Self.items made ≡ []) × (full made ≡ false)) };

    /// Whether it has as many elements, or parts of its own, as it may have.
    fn is_full(&self) -> bool
        ensures { result ≡ full self.now };

    /// Cuts a full part in the middle, and hands out the second half.
    fn split(&mut self) -> Result<Self, NoMemory>
        requires full { full self.old ≡ true }
        requires clones { ClonesAreEqual T.is_clone }
        ensures ok { IfOk result (λ back. Self.items self.new ++ Self.items back ≡ Self.items self.old) }
        ensures not_full { IfOk result (λ back. (full self.new ≡ false) × (full back ≡ false)) }
        ensures err { OnErr result (self.new ≡ self.old) };

    /// Puts a value into the place of an element.
    fn set(&mut self, at: u64, value: T) -> Result<(), (T, NoMemory)>
        requires within { at < length (Self.items self.old) }
        requires clones { ClonesAreEqual T.is_clone }
        ensures ok { OnOk result (Self.items self.new ≡ slice_set (Self.items self.old) at value) }
        ensures err { IfErr result (λ e. (e.0 ≡ value) × (Self.items self.new ≡ Self.items self.old)) };

    /// Puts a value before the element at a place, or behind all.
    fn insert(&mut self, at: u64, value: T) -> Result<(), (T, NoMemory)>
        requires up_to_end { at ≤ length (Self.items self.old) }
        requires not_full { full self.old ≡ false }
        requires room { length (Self.items self.old) + 1 < 2 ^ 64 }
        requires clones { ClonesAreEqual T.is_clone }
        ensures ok { OnOk result (Self.items self.new ≡ insert (Self.items self.old) at value) }
        ensures err { IfErr result (λ e. (e.0 ≡ value) × (Self.items self.new ≡ Self.items self.old)) };

    /// Takes an element out.
    fn remove(&mut self, at: u64) -> Result<(), NoMemory>
        requires within { at < length (Self.items self.old) }
        requires clones { ClonesAreEqual T.is_clone }
        ensures ok { OnOk result (Self.items self.new ≡ remove (Self.items self.old) at) }
        ensures err { OnErr result (Self.items self.new ≡ Self.items self.old) };
}

/// What is made of a row of at most 128 items, and is seen as these.
pub(crate) trait OfRow<X>: Drop {
    ghost content: { Self → List X };

    fn of_row(items: Vec<X>) -> Result<Self, NoMemory>
        requires { length items.items ≤ 128 }
        ensures { IfOk result (λ made. content made ≡ items.items) };
}

/// Moves the items into rows, which are full but for the last.
pub(crate) fn rows_of<X: Drop, P: OfRow<X>>(mut items: Vec<X>) -> Result<Vec<P>, NoMemory>
    ensures { IfOk result (λ rows. flat_map P.content rows.items ≡ items.items) }
{
    let mut rows = Vec::new(*items.allocator());
    while !items.is_empty() {
        let last = (items.len() - 1) / ROW * ROW;
        let row = items.split_off(last)?;
        rows.push(P::of_row(row)?)?;
    }
    rows.reverse();
    Ok(rows)
}

/// Where an element stands: in which part, and behind how many others of that part.
#[derive(Clone, Copy)]
pub(crate) struct Place {
    pub part: usize,
    pub within: u64,
}

/// Where the element at a place of the whole stands.
pub(crate) fn place_of<T, P: Part<T>>(parts: &[P], at: u64) -> Place
    requires { at < length (flat_map P.items parts.now) }
    ensures { IsSomeAnd (slice_get parts.now result.part)
        (IsWithin P.items parts.now at result.part result.within) }
{
    let mut within = at;
    for (part, piece) in parts.iter().enumerate() {
        let count = piece.len();
        if within < count {
            return Place { part, within };
        }
        within -= count;
    }
    unreachable!()
}

/// How many elements the parts have in all. No list has 2^64 of them or more.
pub(crate) fn total_of<T, P: Part<T>>(parts: &[P]) -> Result<u64, NoMemory>
    ensures { IfOk result (λ total. total ≡ length (flat_map P.items parts.now)) }
{
    let mut total = 0u64;
    for part in parts {
        total = total.checked_add(part.len()).ok_or(AllocError)?;
    }
    Ok(total)
}

/// The elements from a place of the whole on that stand side by side in memory.
pub(crate) fn run_in<T, P: Part<T>>(parts: &[P], at: u64) -> &[T]
    requires { at < length (flat_map P.items parts.now) }
    ensures { IsRunFrom (flat_map P.items parts.now) at result.now }
{
    let place = place_of(parts, at);
    parts[place.part].run_from(place.within)
}

/// Puts a value into the place of an element of the whole.
pub(crate) fn set_in<T: Clone, P: EditedPart<T>>(
    parts: &mut Vec<P>,
    at: u64,
    value: T,
) -> Result<(), (T, NoMemory)>
    requires within { at < length (flat_map P.items parts.old.items) }
    requires clones { ClonesAreEqual T.is_clone }
    ensures ok { OnOk result
        (flat_map P.items parts.new.items ≡ slice_set (flat_map P.items parts.old.items) at value) }
    ensures err { IfErr result
        (λ e. (e.0 ≡ value) × (flat_map P.items parts.new.items ≡ flat_map P.items parts.old.items)) }
    ensures count { length parts.new.items ≡ length parts.old.items }
{
    let place = place_of(parts.as_slice(), at);
    parts[place.part].set(place.within, value)
}

/// Takes an element of the whole out, and its part too where that has no other.
pub(crate) fn remove_in<T: Clone, P: EditedPart<T>>(
    parts: &mut Vec<P>,
    at: u64,
) -> Result<(), NoMemory>
    requires within { at < length (flat_map P.items parts.old.items) }
    requires clones { ClonesAreEqual T.is_clone }
    ensures ok { OnOk result
        (flat_map P.items parts.new.items ≡ remove (flat_map P.items parts.old.items) at) }
    ensures err { OnErr result (flat_map P.items parts.new.items ≡ flat_map P.items parts.old.items) }
    ensures count { length parts.new.items ≤ length parts.old.items }
{
    let place = place_of(parts.as_slice(), at);
    let part = &mut parts[place.part];
    part.remove(place.within)?;
    if part.len() == 0 {
        drop(parts.remove(place.part));
    }
    Ok(())
}

/// Cuts a full part in two, and answers how long the first of them is.
fn split_in<T: Clone, P: EditedPart<T>>(parts: &mut Vec<P>, at: usize) -> Result<u64, NoMemory>
    requires full { IsSomeAnd (slice_get parts.old.items at) (λ part. P.full part ≡ true) }
    requires clones { ClonesAreEqual T.is_clone }
    ensures ok { IfOk result (CutsPart P.items P.full parts.old.items parts.new.items at) }
    ensures err { OnErr result (parts.new.items ≡ parts.old.items) }
    ensures count { length parts.new.items ≤ length parts.old.items + 1 }
{
    parts.reserve(1)?;
    let front = &mut parts[at];
    let back = front.split()?;
    let long = front.len();
    match parts.insert(at + 1, back) {
        Ok(()) => Ok(long),
        Err(_) => unreachable!(),
    }
}

/// Where a value may go before an element of the whole. A full part is cut for it.
fn spot_before<T: Clone, P: EditedPart<T>>(parts: &mut Vec<P>, at: u64) -> Result<Place, NoMemory>
    requires within { at < length (flat_map P.items parts.old.items) }
    requires clones { ClonesAreEqual T.is_clone }
    ensures same { flat_map P.items parts.new.items ≡ flat_map P.items parts.old.items }
    ensures ok { IfOk result (λ spot. IsSomeAnd (slice_get parts.new.items spot.part)
        (IsSpot P.items P.full parts.new.items at spot.part spot.within)) }
    ensures count { length parts.new.items ≤ length parts.old.items + 1 }
{
    let place = place_of(parts.as_slice(), at);
    if !parts[place.part].is_full() {
        return Ok(place);
    }
    let long = split_in(parts, place.part)?;
    if place.within < long {
        Ok(place)
    } else {
        Ok(Place {
            part: place.part + 1,
            within: place.within - long,
        })
    }
}

/// Sees to it that there is a last part and that it isn't full.
fn make_room_behind<T: Clone, P: EditedPart<T>>(
    parts: &mut Vec<P>,
    alloc: Global,
) -> Result<(), NoMemory>
    ensures same { flat_map P.items parts.new.items ≡ flat_map P.items parts.old.items }
    ensures ok { OnOk result
        (IsSomeAnd (slice_get parts.new.items (length parts.new.items - 1)) (λ part. P.full part ≡ false)) }
    ensures count { length parts.new.items ≤ length parts.old.items + 1 }
{
    if let Some(part) = parts.last()
        && !part.is_full()
    {
        return Ok(());
    }
    let part = P::empty(alloc)?;
    parts.push(part)?;
    Ok(())
}

/// Where a value may go behind all elements of the whole. A part is added for it where the last one is full.
fn spot_behind<T: Clone, P: EditedPart<T>>(
    parts: &mut Vec<P>,
    alloc: Global,
) -> Result<Place, NoMemory>
    ensures same { flat_map P.items parts.new.items ≡ flat_map P.items parts.old.items }
    ensures ok { IfOk result (λ spot. IsSomeAnd (slice_get parts.new.items spot.part)
        (IsSpot P.items P.full parts.new.items (length (flat_map P.items parts.old.items))
        spot.part spot.within)) }
    ensures count { length parts.new.items ≤ length parts.old.items + 1 }
{
    make_room_behind(parts, alloc)?;
    let part = parts.len() - 1;
    let within = parts[part].len();
    Ok(Place { part, within })
}

/// Where a value may go before an element of the whole, which has so many in all, or behind all.
fn spot_for<T: Clone, P: EditedPart<T>>(
    parts: &mut Vec<P>,
    alloc: Global,
    total: u64,
    at: u64,
) -> Result<Place, NoMemory>
    requires total { total ≡ length (flat_map P.items parts.old.items) }
    requires up_to_end { at ≤ total }
    requires clones { ClonesAreEqual T.is_clone }
    ensures same { flat_map P.items parts.new.items ≡ flat_map P.items parts.old.items }
    ensures ok { IfOk result (λ spot. IsSomeAnd (slice_get parts.new.items spot.part)
        (IsSpot P.items P.full parts.new.items at spot.part spot.within)) }
    ensures count { length parts.new.items ≤ length parts.old.items + 1 }
{
    if at < total {
        return spot_before(parts, at);
    }
    spot_behind(parts, alloc)
}

/// Puts a value before an element of the whole, which has so many in all, or behind all.
pub(crate) fn insert_in<T: Clone, P: EditedPart<T>>(
    parts: &mut Vec<P>,
    alloc: Global,
    total: u64,
    at: u64,
    value: T,
) -> Result<(), (T, NoMemory)>
    requires total { total ≡ length (flat_map P.items parts.old.items) }
    requires up_to_end { at ≤ total }
    requires room { total + 1 < 2 ^ 64 }
    requires clones { ClonesAreEqual T.is_clone }
    ensures ok { OnOk result
        (flat_map P.items parts.new.items ≡ insert (flat_map P.items parts.old.items) at value) }
    ensures err { IfErr result
        (λ e. (e.0 ≡ value) × (flat_map P.items parts.new.items ≡ flat_map P.items parts.old.items)) }
    ensures count { length parts.new.items ≤ length parts.old.items + 1 }
{
    match spot_for(parts, alloc, total, at) {
        Ok(spot) => parts[spot.part].insert(spot.within, value),
        Err(refused) => Err((value, refused)),
    }
}
