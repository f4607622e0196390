//! The lines of a script.

ghost use Rattle.std.specs.Prelude.{◌≡◌};
ghost use Rattle.std.specs.Str.{is_utf8};
ghost use Rattle.cv_script.specs.Answers.{Answers};
ghost use Rattle.cv_script.specs.Scripts.{without_mark, is_silent, line_of};

use crate::commands::command;
use crate::error::Refusal;
use crate::script::Command;
use crate::words::words;
use cv_reading::is_space;
use std::alloc::Global;

/// The bytes behind a byte order mark, where one stands in front.
pub fn without_mark(bytes: &[u8]) -> &[u8]
    ensures { result.now ≡ without_mark bytes.now }
{
    if bytes.starts_with(b"\xef\xbb\xbf") {
        bytes.split_at(3).1
    } else {
        bytes
    }
}

/// Whether a line is white, or a comment.
fn is_silent(line: &[u8]) -> bool
    ensures { result ≡ is_silent line.now }
{
    for byte in line {
        if !is_space(*byte) {
            return *byte == b'#';
        }
    }
    true
}

#[tactic(auto, using(crate::proofs::KindLemmas::utf8_true, crate::proofs::KindLemmas::utf8_false))]
fn is_utf8(line: &[u8]) -> bool
    ensures { result ≡ is_utf8 line.now }
{
    match str::from_utf8(line) {
        Ok(_) => true,
        Err(_) => false,
    }
}

/// The command of a line, where it has one.
#[tactic(auto, unfolding(crate::specs::Scripts::line_of))]
pub fn read_line(alloc: Global, line: &[u8]) -> Result<Option<Command>, Refusal>
    ensures { Answers result (line_of line.now) }
{
    if !is_utf8(line) {
        return Err(Refusal::Bad);
    }
    if is_silent(line) {
        return Ok(None);
    }
    let words = words(alloc, line)?;
    let command = command(alloc, words.as_slice())?;
    Ok(Some(command))
}
