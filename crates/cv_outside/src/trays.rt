//! Where files are written to.
ghost use Rattle.std.specs.Prelude.{◌≡◌, ◌≤◌, Bool, ℕ, List, Option, IsTrue};
ghost use Rattle.cv_outside.specs.Counts.{Rose};
ghost use Rattle.cv_outside.specs.Writes.{TrayCause, Writes};

use crate::TrayEnd;

/// Where whole files are written to by name.
pub trait Tray {
    /// Whether the tray says which files it keeps.
    ghost tells: { Self → Bool };

    /// The bytes of the file under a name.
    ghost file_at: { Self → List ℕ → Option (List ℕ) };

    /// How often the tray has failed.
    ghost faults: { Self → ℕ };

    /// Puts the bytes in the place of what stood under the name.
    fn write(&mut self, name: &str, bytes: &[u8]) -> TrayEnd
        ensures told { tells self.new ≡ tells self.old }
        ensures counts { faults self.old ≤ faults self.new }
        ensures cause { TrayCause result (Rose (faults self.old) (faults self.new)) }
        ensures files { IsTrue (tells self.old)
            → Writes result (file_at self.old) (file_at self.new) name.now bytes.now };
}
