//! What a turn can hold.

/// A value with a part that never changes and a list of entries, each with the number of a caller.
pub trait Held: Drop {
    ghost use Rattle.std.specs.Prelude.{◌≡◌, ℕ, List, length};

    /// The part that never changes.
    type Fixed;

    type Entry;

    ghost fixed: { Self → Self.Fixed };

    // The entries, the oldest first.
    ghost entries: { Self → List Self.Entry };

    // The number of the caller that made an entry.
    ghost caller: { Self.Entry → ℕ };

    /// The number of entries. It takes no memory.
    fn len(&self) -> u64
        ensures { result ≡ length (entries self.now) };
}
