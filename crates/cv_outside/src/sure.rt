//! Devices in memory that never fail.
ghost use Rattle.std.specs.Prelude.{◌≡◌, ◌≤◌, ◌+◌, ◌++◌, ◌∷◌, ◌≢◌, [], ℕ, List, true, length, take};
ghost use Rattle.std.specs.Prelude.{option_map, IsTrue, IfOk, OnOk, OnErr, MatchResult, MatchBool};
ghost use Rattle.cv_outside.specs.Files.{bytes_under, names_of};
ghost use Rattle.cv_outside.specs.Reads.{SameFiles};
ghost use Rattle.cv_outside.specs.Writes.{OthersStay};

use crate::{ReadEnd, Shelf, Sink, SinkEnd, Tray, TrayEnd};
use std::alloc::{AllocError, Global};
use std::collections::BTreeMap;

/// Files by their names.
pub type Files = BTreeMap<String, Vec<u8>>;

/// The file of this name and these bytes, and no other.
pub fn one_file(alloc: Global, name: &str, bytes: &[u8]) -> Result<Files, AllocError>
    ensures file { IfOk result (λ files. bytes_under files name.now ≡ Some bytes.now) }
    ensures others { IfOk result (λ files. (q : List ℕ) → q ≢ name.now → bytes_under files q ≡ None) }
{
    let mut files = BTreeMap::new(alloc);
    keep_file(alloc, &mut files, name, bytes)?;
    Ok(files)
}

/// A shelf in memory that never fails: only a missing file and want of memory remain.
#[derive(Drop)]
pub struct SureShelf {
    alloc: Global,
    files: Files,
    asked: Vec<String>,
    misses: u64,
}

impl SureShelf {
    /// A shelf with these files, of which none was asked for.
    pub fn new(alloc: Global, files: Files) -> SureShelf
        ensures tells { IsTrue (⟦<SureShelf as Shelf>⟧.tells result) }
        ensures files { (q : List ℕ) → ⟦<SureShelf as Shelf>⟧.file_at result q ≡ bytes_under files q }
        ensures asked { ⟦<SureShelf as Shelf>⟧.asked result ≡ [] }
        ensures misses { ⟦<SureShelf as Shelf>⟧.misses result ≡ 0 }
    {
        SureShelf {
            alloc,
            files,
            asked: Vec::new(alloc),
            misses: 0,
        }
    }

    /// The names asked so far, first to last.
    pub fn asked(&self) -> &[String]
        ensures { names_of result.now ≡ ⟦<SureShelf as Shelf>⟧.asked self.now }
    {
        &self.asked
    }

    // Puts a name behind those that were asked.
    pub(crate) fn note(&mut self, name: &str) -> Result<(), AllocError>
        ensures asked { MatchResult result
            (λ _. names_of self.new.asked.items ≡ names_of self.old.asked.items ++ name.now ∷ [])
            (λ _. self.new.asked.items ≡ self.old.asked.items) }
        ensures files { self.new.files ≡ self.old.files }
        ensures misses { self.new.misses ≡ self.old.misses }
    {
        let name = String::from_str(self.alloc, name)?;
        self.asked.push(name)?;
        Ok(())
    }
}

impl Shelf for SureShelf {
    ghost tells = { λ _. true };

    ghost file_at = { λ s name. bytes_under s.files name };

    ghost asked = { λ s. names_of s.asked.items };

    ghost faults = { λ _. 0 };

    ghost misses = { λ s. s.misses };

    fn read(&mut self, name: &str, max: u64, into: &mut Vec<u8>) -> ReadEnd {
        let Ok(is_there) = copy_file(&self.files, name, max, into) else {
            return ReadEnd::NoMemory;
        };
        if self.note(name).is_err() {
            into.clear();
            return ReadEnd::NoMemory;
        }
        if is_there {
            return ReadEnd::Found;
        }
        self.misses = self.misses.saturating_add(1);
        ReadEnd::Absent
    }
}

// Puts the first `max + 1` bytes of a file in the place of what `into` held, and says whether the
// file is there.
fn copy_file(files: &Files, name: &str, max: u64, into: &mut Vec<u8>) -> Result<bool, AllocError>
    ensures found { MatchResult result
        (λ is_there. MatchBool is_there
        (option_map (take (max + 1)) (bytes_under files.now name.now) ≡ Some into.new.items)
        ((bytes_under files.now name.now ≡ None) × (into.new.items ≡ [])))
        (λ _. into.new.items ≡ []) }
    ensures size { length into.new.items ≤ max + 1 }
{
    into.clear();
    let Some(bytes) = files.get(name) else {
        return Ok(false);
    };
    into.extend_from_slice(first_bytes(bytes, max))?;
    Ok(true)
}

// The first `max + 1` bytes, or all if there are fewer.
fn first_bytes(bytes: &[u8], max: u64) -> &[u8]
    ensures bytes { result.now ≡ take (max + 1) bytes.now }
    ensures size { length result.now ≤ max + 1 }
{
    if max < bytes.len() as u64 {
        &bytes[..max as usize + 1]
    } else {
        bytes
    }
}

/// A tray in memory that never fails: only want of memory remains.
#[derive(Drop)]
pub struct SureTray {
    alloc: Global,
    files: Files,
}

impl SureTray {
    /// A tray that keeps these files.
    pub fn new(alloc: Global, files: Files) -> SureTray
        ensures tells { IsTrue (⟦<SureTray as Tray>⟧.tells result) }
        ensures files { (q : List ℕ) → ⟦<SureTray as Tray>⟧.file_at result q ≡ bytes_under files q }
    {
        SureTray { alloc, files }
    }

    /// The bytes of the file that it keeps under a name.
    pub fn file(&self, name: &str) -> Option<&[u8]>
        ensures { option_map (λ bytes. bytes.now) result ≡ ⟦<SureTray as Tray>⟧.file_at self.now name.now }
    {
        let bytes = self.files.get(name)?;
        Some(bytes.as_slice())
    }
}

impl Tray for SureTray {
    ghost tells = { λ _. true };

    ghost file_at = { λ t name. bytes_under t.files name };

    ghost faults = { λ _. 0 };

    fn write(&mut self, name: &str, bytes: &[u8]) -> TrayEnd {
        match keep_file(self.alloc, &mut self.files, name, bytes) {
            Ok(()) => TrayEnd::Kept,
            Err(_) => TrayEnd::NoMemory,
        }
    }
}

// Puts a copy of the bytes under a name. A refusal changes nothing.
#[tactic(auto, using(std::proofs::lemmas::Map::Text::text_keys))]
fn keep_file(alloc: Global, files: &mut Files, name: &str, bytes: &[u8]) -> Result<(), AllocError>
    ensures kept { OnOk result (bytes_under files.new name.now ≡ Some bytes.now) }
    ensures others { OnOk result (OthersStay (bytes_under files.old) (bytes_under files.new) name.now) }
    ensures err { OnErr result (SameFiles (bytes_under files.old) (bytes_under files.new)) }
{
    let copy = Vec::from_slice(alloc, bytes)?;
    let name = String::from_str(alloc, name)?;
    files.insert(name, copy)?;
    Ok(())
}

/// A sink in memory that never fails and takes each piece whole: only want of memory remains.
#[derive(Drop)]
pub struct SureSink {
    bytes: Vec<u8>,
}

impl SureSink {
    /// A sink that has taken these bytes.
    pub fn new(bytes: Vec<u8>) -> SureSink
        ensures tells { IsTrue (⟦<SureSink as Sink>⟧.tells result) }
        ensures taken { ⟦<SureSink as Sink>⟧.taken result ≡ bytes.items }
    {
        SureSink { bytes }
    }

    /// The bytes taken.
    pub fn bytes(&self) -> &[u8]
        ensures { result.now ≡ ⟦<SureSink as Sink>⟧.taken self.now }
    {
        &self.bytes
    }
}

impl Sink for SureSink {
    ghost tells = { λ _. true };

    ghost taken = { λ s. s.bytes.items };

    ghost faults = { λ _. 0 };

    fn write(&mut self, piece: &[u8]) -> SinkEnd {
        match self.bytes.extend_from_slice(piece) {
            Ok(()) => SinkEnd::Took(piece.len()),
            Err(_) => SinkEnd::NoMemory,
        }
    }
}
