//! A few places of a list, in a list whose versions share what an edit didn't touch.

ghost use Rattle.std.specs.Prelude.{◌≡◌, ◌==◌, position, true, false, IfOk, IfSome, is_some, slice_get, Some};
ghost use Rattle.cv_model.specs.Packed.{is_among, IsMarked};

use cv_chunks::Chunked;
use cv_model::NoMemory;

/// Where a place stands among places that stand side by side, if it is there.
fn find_in(run: &[u64], at: u64) -> Option<usize>
    ensures { result ≡ position (λ place. place == at) run.now }
{
    run.iter().position(|place| *place == at)
}

/// Where a place stands among places, if it is there. It takes a step a place.
fn find(places: &Chunked<u64>, at: u64) -> Option<u64>
    ensures some { is_some result ≡ is_among places.now at }
    ensures there { IfSome result (λ k. slice_get places.now k ≡ Some at) }
{
    let mut from = 0;
    while from < places.len() {
        let run = places.run_from(from);
        match find_in(run, at) {
            Some(k) => return Some(from + k as u64),
            None => from += run.len() as u64,
        }
    }
    None
}

/// Whether a place is among places.
pub(crate) fn is_among(places: &Chunked<u64>, at: u64) -> bool
    ensures { result ≡ is_among places.now at }
{
    find(places, at).is_some()
}

/// The places and one more, if it isn't there yet.
fn with_place(places: &Chunked<u64>, at: u64) -> Result<Chunked<u64>, NoMemory>
    ensures { IfOk result (λ made. IsMarked places.now made at true) }
{
    let mut made = places.share()?;
    if is_among(places, at) {
        return Ok(made);
    }
    match made.push(at) {
        Ok(()) => Ok(made),
        Err(refused) => Err(refused.1),
    }
}

/// The places without one.
fn without_place(places: &Chunked<u64>, at: u64) -> Result<Chunked<u64>, NoMemory>
    ensures { IfOk result (λ made. IsMarked places.now made at false) }
{
    let mut made = places.share()?;
    while let Some(k) = find(&made, at) {
        made.remove(k)?;
    }
    Ok(made)
}

/// The places with one among them, or without it. The others stay.
pub(crate) fn marked(
    places: &Chunked<u64>,
    at: u64,
    is_there: bool,
) -> Result<Chunked<u64>, NoMemory>
    ensures { IfOk result (λ made. IsMarked places.now made at is_there) }
{
    if is_there {
        with_place(places, at)
    } else {
        without_place(places, at)
    }
}
