//! Memory that scans use again.

use crate::marks::Mark;
use crate::pairs::Pair;
use std::alloc::Global;

/// The memory of a scan, which is used again from call to call. It holds nothing that a caller can see.
#[derive(Drop)]
pub struct Scratch {
    pub(crate) first: u32,
    pub(crate) pairs: Vec<Pair>,
    pub(crate) marks: Vec<Mark>,
    pub(crate) bits: Vec<u64>,
}

impl Scratch {
    /// No memory yet.
    pub fn new(alloc: Global) -> Self {
        Scratch {
            first: 0,
            pairs: Vec::new(alloc),
            marks: Vec::new(alloc),
            bits: Vec::new(alloc),
        }
    }
}
