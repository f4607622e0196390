//! A desk as its callers use it: what the tests share, and these tests.
//!
//! Contract: what a caller holds stays its own to deliver or to finish, whatever others do meanwhile; no
//! other code stands on this crate. Definitions: `Owed`. Takes memory for what it paints. No handles.
#![tactic(auto)]

#[cfg(test)]
mod caches;
#[cfg(test)]
mod fold;
#[cfg(test)]
mod play;
#[cfg(test)]
mod random;
mod table;
#[cfg(test)]
mod worked;

pub use table::{Held, Table};
