//! Where a painter may be held.

/// What whoever paints calls between the claim of a piece of work and its painting.
pub trait Gate {
    /// Comes back when the piece of this job and slot may be painted.
    fn at(&self, job: u32, slot: u32);
}

/// A gate that holds nobody.
#[derive(Clone, Copy, Debug, PartialEq, Eq)]
pub struct Open;

impl Gate for Open {
    fn at(&self, _job: u32, _slot: u32) {}
}
