//! Numbers as texts: what a decimal is, and what it is worth.
//!
//! Contract: the marks and places of a spelling are those of the definitions. The reader itself stands in
//! `cv_decimal`. Definitions: `Rounding`, `Mark`, `Spellings` (the grammar and the value) and `Reader`
//! (the same as a machine, with `decimal_of`, the value of a text as a function), so low that the model of
//! a project can cite them. No memory, no handle.
#![tactic(auto)]

mod fixed;
mod mark;
mod place;

pub use fixed::Fixed;
pub use mark::Mark;
pub use place::{Place, Role};
