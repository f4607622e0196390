//! What a session reads: a project with its layers, and a script.

ghost use Rattle.std.specs.Prelude.{◌≤◌, length, IfOk, List, ℕ};
ghost use Rattle.cv_model.specs.Openings.{CanOpen};
ghost use Rattle.cv_outside.specs.Seen.{shelf_seen, ShelfStands};
ghost use Rattle.cv_open.specs.Readings.{IsReadAs, IsSaid, StandsFor};
ghost use Rattle.cv_script.specs.Scripts.{script_of, IsScript};
ghost use Rattle.cv_top.specs.Sessions.{most_script, as_script, script_said, script_read, script_for};
ghost use Rattle.cv_top.specs.Sessions.{session_read};

use cv_open::{End, Opened, Which, fetch, open};
use cv_outside::Shelf;
use cv_script::{Script, ScriptError};
use std::alloc::Global;

/// The most bytes that a script's file may have: 16 times 2^20.
const MOST_SCRIPT: u64 = 16_777_216;

/// A project that was opened, and the script that is to be played on it.
#[derive(Drop)]
pub struct Staged {
    /// The project with the data of its layers.
    pub opened: Opened,
    /// The commands.
    pub script: Script,
}

/// The script that bytes say.
fn script_in(alloc: Global, bytes: &[u8]) -> Result<Script, End>
    ensures said { IsSaid (as_script (script_of bytes.now)) result }
    ensures kept { IfOk result IsScript }
{
    match cv_script::read(alloc, bytes) {
        Ok(script) => Ok(script),
        Err(ScriptError::BadLine(line)) => Err(End::BadScript(line)),
        Err(ScriptError::NoMemory) => Err(End::NoMemory),
    }
}

/// The script that bytes say; where there are none, they are too many.
fn script_of(alloc: Global, got: Option<Vec<u8>>) -> Result<Script, End>
    ensures said { (bytes : List ℕ) → StandsFor most_script got bytes
        → IsSaid (script_said bytes) result }
    ensures kept { IfOk result IsScript }
{
    match got {
        Some(bytes) => script_in(alloc, bytes.as_slice()),
        None => Err(End::BadScript(0)),
    }
}

/// Reads the script's file, once.
fn read_script<F: Shelf>(alloc: Global, shelf: &mut F, name: &str) -> Result<Script, End>
    ensures stands { ShelfStands (shelf_seen F.Shelf shelf.old) (shelf_seen F.Shelf shelf.new) }
    ensures read { IsReadAs (script_read name.now) result
        (shelf_seen F.Shelf shelf.old) (shelf_seen F.Shelf shelf.new) }
    ensures kept { IfOk result IsScript }
{
    match fetch(alloc, shelf, Which::Script, name, MOST_SCRIPT) {
        Ok(got) => script_of(alloc, got),
        Err(end) => Err(end),
    }
}

/// Reads the script for a project that was opened.
fn with_script<F: Shelf>(
    alloc: Global,
    shelf: &mut F,
    opened: Opened,
    script: &str,
) -> Result<Staged, End>
    requires { CanOpen opened.file opened.contents }
    ensures stands { ShelfStands (shelf_seen F.Shelf shelf.old) (shelf_seen F.Shelf shelf.new) }
    ensures read { IsReadAs (script_for script.now opened) result
        (shelf_seen F.Shelf shelf.old) (shelf_seen F.Shelf shelf.new) }
    ensures can { IfOk result (λ s. CanOpen s.opened.file s.opened.contents) }
    ensures kept { IfOk result (λ s. IsScript s.script) }
{
    match read_script(alloc, shelf, script) {
        Ok(script) => Ok(Staged { opened, script }),
        Err(end) => Err(end),
    }
}

/// Opens the project of a name, a file read once for each layer that names it, and then reads the script of
/// the other, once.
#[tactic(auto, using(cv_open::proofs::ReadingLemmas::stands_on))]
pub(crate) fn stage<F: Shelf>(
    alloc: Global,
    shelf: &mut F,
    project: &str,
    script: &str,
) -> Result<Staged, End>
    ensures stands { ShelfStands (shelf_seen F.Shelf shelf.old) (shelf_seen F.Shelf shelf.new) }
    ensures read { IsReadAs (session_read project.now script.now) result
        (shelf_seen F.Shelf shelf.old) (shelf_seen F.Shelf shelf.new) }
    ensures can { IfOk result (λ s. CanOpen s.opened.file s.opened.contents) }
    ensures kept { IfOk result (λ s. IsScript s.script) }
{
    match open(alloc, shelf, project) {
        Ok(opened) => with_script(alloc, shelf, opened, script),
        Err(end) => Err(end),
    }
}
