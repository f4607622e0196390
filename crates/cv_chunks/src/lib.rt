//! Lists whose versions share what an edit didn't touch, and the rows that ranges cover.
//!
//! Contract: a `Chunked` is a list, each of its edits is that of a list, and no edit shows in a list that
//! shares its elements; a `Growing` makes one; `Buckets` are what the definition says. Definitions: `Clones`,
//! `Parts`, `Trees`, `Runs`, `Buckets`, in this order. `new`, `len`, `get`, `run_from`, `iter`, `of_row`,
//! `value` and `total_length` take no memory; `lengths_by_threads` alone starts a thread.
#![tactic(auto)]

mod buckets;
mod chunk;
mod chunked;
mod elements;
mod group;
mod growing;
mod part;
mod shared;
mod threads;

pub use buckets::{Buckets, RowRange, total_length};
pub use chunked::Chunked;
pub use elements::Elements;
pub use growing::Growing;
pub use shared::Shared;
pub use threads::lengths_by_threads;

/// The answer of a call that has got no memory.
pub type NoMemory = std::alloc::AllocError;

#[cfg(test)]
mod tests;
