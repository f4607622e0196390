//! The word behind `check`: the name of a project.

ghost use Rattle.std.specs.Prelude.{◌≡◌, ◌∷◌, [], IfOk, IfErr, map, true, length, codes};
ghost use Rattle.std.specs.List.{list_all};
ghost use Rattle.clap.specs.Words.{kind_of};
ghost use Rattle.cv_words.specs.Found.{word_at};
ghost use Rattle.cv_words.specs.Plain.{is_plain};

use clap::error::ErrorKind;
use clap::{Arg, ArgMatches, Command, Error};
use std::alloc::{AllocError, Global};

/// What `clap` finds in the word. It refuses none for another cause than want of memory.
fn matches<'a>(alloc: Global, words: &'a [&'a str]) -> Result<ArgMatches<'a>, Error>
    requires one { length words.now ≡ 1 }
    requires plain { list_all is_plain (map (λ word. word.now) words.now) ≡ true }
    ensures ok { IfOk result (λ found. map (λ word. word.now) words.now
        ≡ word_at (codes "project") found ∷ []) }
    ensures err { IfErr result (λ error. kind_of error ≡ ErrorKind.OutOfMemory) }
{
    let project = Arg::new(alloc, "project").required(true);
    let check = Command::new(alloc, "check")
        .no_binary_name(true)
        .disable_help_flag(true)
        .arg(project)?;
    check.try_get_matches_from(words)
}

/// The name of the project that is the one word behind `check`.
pub fn check_words<'a>(alloc: Global, words: &'a [&'a str]) -> Result<&'a str, AllocError>
    requires one { length words.now ≡ 1 }
    requires plain { list_all is_plain (map (λ word. word.now) words.now) ≡ true }
    ensures { IfOk result (λ project. map (λ word. word.now) words.now ≡ project.now ∷ []) }
{
    match matches(alloc, words) {
        Ok(found) => Ok(found.get_str("project").unwrap_or("")),
        Err(_) => Err(AllocError),
    }
}
