//! The reader of scripts.
//!
//! Contract: a script is read exactly where each of its lines is in the grammar and there are at most
//! 100,000, as the list of its commands with their lines; else the first line that isn't, or is one too many,
//! is answered. Definitions: `Spelling`, how words are spelt
//! in a line, and `Words`, the same as a machine; `Kinds` and `Styles`, what a word says; `Table`, the
//! commands, one row each; `Scripts`, lines and scripts.
//! Memory is taken for the words of a line and for the commands; no handle is needed.
#![tactic(auto)]

ghost use Rattle.std.specs.Prelude.{◌≡◌, ◌≢◌, ◌≤◌, ◌+◌, ◌∷◌, Err, Ok, List, ℕ, IfOk, OnOk, IfErr};
ghost use Rattle.cv_script.specs.Scripts.{script_of, without_mark, lines, commands_from, with_front};
ghost use Rattle.cv_script.specs.Scripts.{IsScript};

mod commands;
mod edits;
mod error;
mod kinds;
mod laws;
mod line;
mod names;
mod place;
mod script;
mod spelling;
mod styles;
mod words;

use bstr::ByteSlice;
use cv_model::Sequence;
use error::Refusal;
pub use error::ScriptError;
pub use laws::words_are_spelt;
use line::{read_line, without_mark};
pub use script::{Command, Numbered, Script};
use std::alloc::Global;

/// The most lines of a script.
const MOST_LINES: u32 = 100_000;

/// The commands of a script with their lines, or the first line that is refused.
///
/// A script is lines of UTF-8 that end at LF, before which a CR is dropped; the last needn't end. A byte
/// order mark in front of the first is dropped too. A line that is white, or whose first byte that isn't
/// white is `#`, has no command. Any other is words between spaces and tabs: the command's name and its
/// arguments. A word that begins with `"` ends at the next `"` that isn't doubled, behind which a space, a
/// tab or the end must stand, and `""` in it is one `"`; no other word has a `"`. A script has at most
/// 100,000 lines. Source: this project's own.
#[tactic(auto, unfolding(crate::specs::Scripts::script_of), using(crate::proofs::CommandLemmas::read_kept))]
pub fn read(alloc: Global, bytes: &[u8]) -> Result<Script, ScriptError>
    // The commands of the lines, or the first line that isn't in the grammar, or is behind the 100,000th.
    ensures exact { (result ≢ Err ScriptError.NoMemory) → result ≡ script_of bytes.now }
    // So there are at most 100,000 commands, in lines that ascend strictly, with zooms in range.
    ensures kept { IfOk result IsScript }
{
    read_lines(alloc, without_mark(bytes))
}

/// The commands of all lines.
#[tactic(auto, using(crate::proofs::ScriptLemmas::front_rules))]
fn read_lines(alloc: Global, bytes: &[u8]) -> Result<Script, ScriptError>
    ensures { (result ≢ Err ScriptError.NoMemory) → result ≡ commands_from 1 (lines bytes.now) }
{
    let mut commands = Sequence::new(alloc);
    let mut number = 1;
    for line in bytes.lines() {
        match put_line(alloc, &mut commands, number, line) {
            Ok(()) => number += 1,
            Err(error) => return Err(error),
        }
    }
    Ok(Script::of(commands))
}

/// Puts the command of a line behind the others, where it has one.
#[tactic(auto, using(crate::proofs::ScriptLemmas::line_rules))]
fn put_line(
    alloc: Global,
    commands: &mut Sequence<Numbered>,
    number: u32,
    line: &[u8],
) -> Result<(), ScriptError>
    ensures few { OnOk result (number ≤ 100000) }
    ensures ok { OnOk result ((rest : List (List ℕ))
        → with_front commands.new (commands_from (number + 1) rest)
        ≡ with_front commands.old (commands_from number (line.now ∷ rest))) }
    ensures err { IfErr result (λ e. (e ≢ ScriptError.NoMemory) → (rest : List (List ℕ))
        → commands_from number (line.now ∷ rest) ≡ Err e) }
{
    if number > MOST_LINES {
        return Err(ScriptError::BadLine(number));
    }
    match read_line(alloc, line) {
        Ok(None) => Ok(()),
        Ok(Some(command)) => {
            let numbered = Numbered {
                line: number,
                command,
            };
            match commands.put(numbered) {
                Ok(()) => Ok(()),
                Err(_) => Err(ScriptError::NoMemory),
            }
        }
        Err(Refusal::Bad) => Err(ScriptError::BadLine(number)),
        Err(Refusal::NoMemory) => Err(ScriptError::NoMemory),
    }
}

#[cfg(test)]
mod tests;
