//! Worked edits of a store, from outside: what the tests share, and these tests.
//!
//! Contract: none; it has tests alone, and no other code stands on it. Definitions: none. Takes memory for
//! what the tests make. No handles.
#![tactic(auto)]

#[cfg(test)]
mod refusals;
#[cfg(test)]
mod tests;
#[cfg(test)]
mod worked;
