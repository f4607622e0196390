//! Devices in memory of which listed calls fail.
ghost use Rattle.std.specs.Prelude.{◌≡◌, ◌≤◌, [], ℕ, List, true, option_map, IsTrue};
ghost use Rattle.cv_outside.specs.Counts.{Rose};
ghost use Rattle.cv_outside.specs.Files.{bytes_under, names_of};

use crate::{Files, ReadEnd, Shelf, Sink, SinkEnd, SureShelf, SureSink, SureTray, Tray, TrayEnd};
use std::alloc::Global;

// The calls of a device by number, from 1, and how often it failed.
#[derive(Drop)]
struct Calls {
    failing: Vec<u64>,
    made: u64,
    faults: u64,
}

impl Calls {
    fn new(failing: Vec<u64>) -> Calls
        ensures faults { result.faults ≡ 0 }
    {
        Calls {
            failing,
            made: 0,
            faults: 0,
        }
    }

    // Counts a call, and says whether it is to fail.
    fn is_next_failing(&mut self) -> bool
        ensures faults { self.new.faults ≡ self.old.faults }
    {
        self.made = self.made.saturating_add(1);
        self.failing.contains(&self.made)
    }

    // Counts a fault.
    fn fail(&mut self)
        ensures later { self.old.faults ≤ self.new.faults }
        ensures rose { Rose self.old.faults self.new.faults }
    {
        self.faults = self.faults.saturating_add(1);
    }
}

/// A shelf in memory of which listed calls fail.
#[derive(Drop)]
pub struct MemShelf {
    sure: SureShelf,
    calls: Calls,
}

impl MemShelf {
    /// A shelf with these files, and the numbers, from 1, of the reads that are to fail.
    pub fn new(alloc: Global, files: Files, failing: Vec<u64>) -> MemShelf
        ensures tells { IsTrue (⟦<MemShelf as Shelf>⟧.tells result) }
        ensures files { (q : List ℕ) → ⟦<MemShelf as Shelf>⟧.file_at result q ≡ bytes_under files q }
        ensures asked { ⟦<MemShelf as Shelf>⟧.asked result ≡ [] }
        ensures faults { ⟦<MemShelf as Shelf>⟧.faults result ≡ 0 }
        ensures misses { ⟦<MemShelf as Shelf>⟧.misses result ≡ 0 }
    {
        MemShelf {
            sure: SureShelf::new(alloc, files),
            calls: Calls::new(failing),
        }
    }

    /// The names asked so far, first to last.
    pub fn asked(&self) -> &[String]
        ensures { names_of result.now ≡ ⟦<MemShelf as Shelf>⟧.asked self.now }
    {
        self.sure.asked()
    }
}

impl Shelf for MemShelf {
    ghost tells = { λ _. true };

    ghost file_at = { λ s. ⟦<SureShelf as Shelf>⟧.file_at s.sure };

    ghost asked = { λ s. ⟦<SureShelf as Shelf>⟧.asked s.sure };

    ghost faults = { λ s. s.calls.faults };

    ghost misses = { λ s. ⟦<SureShelf as Shelf>⟧.misses s.sure };

    fn read(&mut self, name: &str, max: u64, into: &mut Vec<u8>) -> ReadEnd {
        if !self.calls.is_next_failing() {
            return self.sure.read(name, max, into);
        }
        into.clear();
        if self.sure.note(name).is_err() {
            return ReadEnd::NoMemory;
        }
        self.calls.fail();
        ReadEnd::Failed
    }
}

/// A tray in memory of which listed calls fail. What stands under the name then stays.
#[derive(Drop)]
pub struct MemTray {
    sure: SureTray,
    calls: Calls,
}

impl MemTray {
    /// A tray that keeps these files, and the numbers, from 1, of the writes that are to fail.
    pub fn new(alloc: Global, files: Files, failing: Vec<u64>) -> MemTray
        ensures tells { IsTrue (⟦<MemTray as Tray>⟧.tells result) }
        ensures files { (q : List ℕ) → ⟦<MemTray as Tray>⟧.file_at result q ≡ bytes_under files q }
        ensures faults { ⟦<MemTray as Tray>⟧.faults result ≡ 0 }
    {
        MemTray {
            sure: SureTray::new(alloc, files),
            calls: Calls::new(failing),
        }
    }

    /// The bytes of the file that it keeps under a name.
    pub fn file(&self, name: &str) -> Option<&[u8]>
        ensures { option_map (λ bytes. bytes.now) result ≡ ⟦<MemTray as Tray>⟧.file_at self.now name.now }
    {
        self.sure.file(name)
    }
}

impl Tray for MemTray {
    ghost tells = { λ _. true };

    ghost file_at = { λ t. ⟦<SureTray as Tray>⟧.file_at t.sure };

    ghost faults = { λ t. t.calls.faults };

    fn write(&mut self, name: &str, bytes: &[u8]) -> TrayEnd {
        if !self.calls.is_next_failing() {
            return self.sure.write(name, bytes);
        }
        self.calls.fail();
        TrayEnd::Failed
    }
}

/// A sink in memory of which listed calls fail, and that takes so many bytes at most in a write and
/// in all.
#[derive(Drop)]
pub struct MemSink {
    sure: SureSink,
    calls: Calls,
    piece: u64,
    room: u64,
}

impl MemSink {
    /// A sink that has taken these bytes, and the numbers, from 1, of the writes that are to fail.
    /// It takes each other piece whole.
    pub fn new(bytes: Vec<u8>, failing: Vec<u64>) -> MemSink
        ensures tells { IsTrue (⟦<MemSink as Sink>⟧.tells result) }
        ensures taken { ⟦<MemSink as Sink>⟧.taken result ≡ bytes.items }
        ensures faults { ⟦<MemSink as Sink>⟧.faults result ≡ 0 }
    {
        MemSink {
            sure: SureSink::new(bytes),
            calls: Calls::new(failing),
            piece: u64::MAX,
            room: u64::MAX,
        }
    }

    /// The same sink that takes `piece` bytes at most in a write, and `room` more bytes in all.
    pub fn with_limits(self, piece: u64, room: u64) -> MemSink
        ensures tells { IsTrue (⟦<MemSink as Sink>⟧.tells result) }
        ensures taken { ⟦<MemSink as Sink>⟧.taken result ≡ ⟦<MemSink as Sink>⟧.taken self }
        ensures faults { ⟦<MemSink as Sink>⟧.faults result ≡ ⟦<MemSink as Sink>⟧.faults self }
    {
        MemSink {
            piece,
            room,
            ..self
        }
    }

    /// The bytes taken.
    pub fn bytes(&self) -> &[u8]
        ensures { result.now ≡ ⟦<MemSink as Sink>⟧.taken self.now }
    {
        self.sure.bytes()
    }
}

impl Sink for MemSink {
    ghost tells = { λ _. true };

    ghost taken = { λ s. ⟦<SureSink as Sink>⟧.taken s.sure };

    ghost faults = { λ s. s.calls.faults };

    fn write(&mut self, piece: &[u8]) -> SinkEnd {
        let most = self.piece.min(self.room).min(piece.len() as u64);
        if self.calls.is_next_failing() || most == 0 && !piece.is_empty() {
            self.calls.fail();
            return SinkEnd::Failed;
        }
        let end = self.sure.write(&piece[..most as usize]);
        if let SinkEnd::Took(n) = end {
            self.room -= n as u64;
        }
        end
    }
}
