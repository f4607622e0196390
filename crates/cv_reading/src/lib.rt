//! The recipe by which a reader is shown to read its grammar, proved once for all readers.
//!
//! A reader is a machine that takes a token at a time. Once three laws about one token hold of it, it
//! answers exactly the values that the grammar spells, and refuses exactly at the first wrong token.
//! Definitions: `Machines`, `Readings`, `Watches`, `Tokens`, `Space`; lemmas: `proofs/`. The types are
//! parameters, so most is cited as a lemma; the calls are the test of white space and a law.
#![tactic(auto)]

mod space;
mod tokens;

pub use space::is_space;
pub use tokens::tokens_are_cut;
