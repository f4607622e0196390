//! A lock with a counted history: a value that callers have in turn, and what each of them knows of its
//! list of entries.
//!
//! Contract: who enters has the value alone. Its list begins with all that the pass had seen, and has for
//! each of the pass's numbers exactly the entries that the pass knows; a turn adds one entry of the pass's
//! own number, or none. Definitions: `Held`, `View`, `Plays`, `Rule`, `Pass`, `Guard` and `Turn`. Only
//! `new` takes memory, and only `enter` waits, under `Wait`.
#![tactic(auto)]

mod guard;
mod held;
mod pass;
mod plays;
mod rule;
mod steps;
mod turn;
mod view;

pub use guard::Guard;
pub use held::Held;
pub use pass::{Note, Pass};
pub use turn::Turn;

/// The answer of a call that has got no memory. It is the one answer whose cause contracts leave out, since
/// no caller can know it.
pub type NoMemory = std::alloc::AllocError;

#[cfg(test)]
mod tests;
