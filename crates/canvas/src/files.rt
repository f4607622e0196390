//! The real files, as a shelf and a tray. They tell nothing of content, count each failure of the system, and
//! keep the name that they were last given. A shelf may say which file it reads.

ghost use Rattle.std.specs.Prelude.{false, ◌≡◌, ◌≢◌, ◌+◌, ◌≤◌, min, [], length, take, OnOk, IfSome};
ghost use Rattle.cv_outside.specs.Counts.{Rose};
ghost use Rattle.cv_outside.specs.Reads.{ReadCause};

use cv_model::NoMemory;
use cv_outside::{ReadEnd, Shelf, Tray, TrayEnd};
use std::alloc::Global;
use std::io::{ErrorKind, Read, Write};
use std::rt::Files;
use std::{fs, io};

/// The files of the system, to be read.
#[derive(Drop)]
pub struct FileShelf<'a, R, P> {
    files: &'a R,
    progress: Option<P>,
    last: String,
    faults: u64,
    misses: u64,
}

impl<'a, R: Files, P: Write + Drop> FileShelf<'a, R, P> {
    /// The files that this runtime reaches. Before each is read, its name is told as a line on `progress`.
    pub fn new(files: &'a R, alloc: Global, progress: Option<P>) -> Self {
        FileShelf {
            files,
            progress,
            last: String::new(alloc),
            faults: 0,
            misses: 0,
        }
    }

    /// The name that was last asked, or nothing.
    pub fn last(&self) -> &str {
        self.last.as_str()
    }

    /// Says which file is read, as far as the writer takes it.
    fn say(&mut self, name: &str)
        ensures faults { self.new.faults ≡ self.old.faults }
        ensures misses { self.new.misses ≡ self.old.misses }
    {
        if let Some(to) = &mut self.progress {
            let _ = writeln!(to, "reading {name}");
        }
    }

    /// Counts an answer: a miss for an absent file, a fault for a failure.
    fn refuse(&mut self, end: ReadEnd) -> ReadEnd
        ensures faults { self.old.faults ≤ self.new.faults }
        ensures misses { self.old.misses ≤ self.new.misses }
        ensures cause { ReadCause result
            (Rose self.old.faults self.new.faults) (Rose self.old.misses self.new.misses) }
        ensures end { result ≡ end }
    {
        match end {
            ReadEnd::Absent => self.misses = self.misses.saturating_add(1),
            ReadEnd::Failed => self.faults = self.faults.saturating_add(1),
            ReadEnd::Found | ReadEnd::NoMemory => {}
        }
        end
    }
}

/// Keeps a name in the place of the one before.
fn keep(last: &mut String, name: &str) -> Result<(), NoMemory> {
    last.clear();
    last.push_str(name)?;
    Ok(())
}

/// Why a file's bytes did not come.
enum Broken {
    Read,
    NoMemory,
}

/// Reads the first `max + 1` bytes of a file, or all if there are fewer.
fn fill<R: Read + Drop>(file: R, max: u64, into: &mut Vec<u8>) -> Result<(), Broken>
    requires { into.old.items ≡ [] }
    ensures size { OnOk result (length into.new.items ≤ max + 1) }
    ensures bytes { OnOk result (IfSome (R.remaining file)
        (λ bytes. into.new.items ≡ take (min (max + 1) 18446744073709551615) bytes)) }
{
    let most = max.saturating_add(1);
    let mut front = file.take(most);
    match front.read_to_end(into) {
        Ok(_) => {
            into.truncate(most as usize);
            Ok(())
        }
        Err(error) => Err(broken_by(error.kind())),
    }
}

/// Why a read failed.
fn broken_by(kind: ErrorKind) -> Broken {
    match kind {
        ErrorKind::OutOfMemory => Broken::NoMemory,
        _ => Broken::Read,
    }
}

/// What an open that failed with this kind says of the file: it is absent only where none was found.
fn unopened(kind: ErrorKind) -> ReadEnd
    ensures absent { kind ≡ ErrorKind.NotFound → result ≡ ReadEnd.Absent }
    ensures memory { kind ≡ ErrorKind.OutOfMemory → result ≡ ReadEnd.NoMemory }
    ensures failed { kind ≢ ErrorKind.NotFound → kind ≢ ErrorKind.OutOfMemory → result ≡ ReadEnd.Failed }
{
    match kind {
        ErrorKind::NotFound => ReadEnd::Absent,
        ErrorKind::OutOfMemory => ReadEnd::NoMemory,
        _ => ReadEnd::Failed,
    }
}

impl<'a, R: Files, P: Write + Drop> Shelf for FileShelf<'a, R, P> {
    ghost use Rattle.std.specs.Prelude.{None, []};

    ghost tells = { λ _. false };

    ghost file_at = { λ _ _. None };

    ghost asked = { λ _. [] };

    ghost faults = { λ s. s.faults };

    ghost misses = { λ s. s.misses };

    fn read(&mut self, name: &str, max: u64, into: &mut Vec<u8>) -> ReadEnd {
        into.clear();
        if keep(&mut self.last, name).is_err() {
            return ReadEnd::NoMemory;
        }
        self.say(name);
        let file = match fs::open(self.files, name) {
            Ok(file) => file,
            Err(error) => return self.refuse(unopened(error.kind())),
        };
        match fill(file, max, into) {
            Ok(()) => ReadEnd::Found,
            Err(Broken::NoMemory) => {
                into.clear();
                ReadEnd::NoMemory
            }
            Err(Broken::Read) => {
                into.clear();
                self.refuse(ReadEnd::Failed)
            }
        }
    }
}

/// The files of the system, to be written.
#[derive(Drop)]
pub struct FileTray<'a, R> {
    files: &'a R,
    last: String,
    faults: u64,
}

impl<'a, R: Files> FileTray<'a, R> {
    /// The files that this runtime reaches.
    pub fn new(files: &'a R, alloc: Global) -> Self {
        FileTray {
            files,
            last: String::new(alloc),
            faults: 0,
        }
    }

    /// The name that was last written under, or nothing.
    pub fn last(&self) -> &str {
        self.last.as_str()
    }
}

impl<'a, R: Files> Tray for FileTray<'a, R> {
    ghost use Rattle.std.specs.Prelude.{None};

    ghost tells = { λ _. false };

    ghost file_at = { λ _ _. None };

    ghost faults = { λ t. t.faults };

    fn write(&mut self, name: &str, bytes: &[u8]) -> TrayEnd {
        if keep(&mut self.last, name).is_err() {
            return TrayEnd::NoMemory;
        }
        match fs::write(self.files, name, bytes) {
            Ok(()) => TrayEnd::Kept,
            Err(_) => {
                self.faults = self.faults.saturating_add(1);
                TrayEnd::Failed
            }
        }
    }
}
