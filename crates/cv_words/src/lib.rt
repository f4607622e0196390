//! The words of commands, read by the crate `clap`: one flat command a file.
//!
//! Contract: of words that aren't empty and don't begin with a hyphen, as many as the command has, behind its
//! option where it has one, each call gives these words, and lacks nothing but memory.
//! Definitions: `Plain` and `Found` of this crate, over those of `clap`.
//! Takes memory for what `clap` keeps while it reads. No handles.
#![tactic(auto)]

mod check;
mod paint;
mod session;

pub use check::check_words;
pub use paint::{PaintWords, paint_words};
pub use session::{SessionWords, session_words};

#[cfg(test)]
mod tests;
