//! The words behind `session`: a project, a script, and the option that says how many workers there are.

ghost use Rattle.std.specs.Prelude.{◌≡◌, ◌∷◌, [], IfOk, IfErr, map, codes};
ghost use Rattle.clap.specs.Words.{kind_of};
ghost use Rattle.cv_words.specs.Found.{word_at};
ghost use Rattle.cv_words.specs.Plain.{AreSessionWords};

use clap::error::ErrorKind;
use clap::{Arg, ArgMatches, Command, Error};
use std::alloc::{AllocError, Global};

/// The words behind `session`.
#[derive(Clone, Copy, Debug)]
pub struct SessionWords<'a> {
    /// How many workers there are, as it is written.
    pub workers: &'a str,
    /// The name of the project.
    pub project: &'a str,
    /// The name of the script.
    pub script: &'a str,
}

/// What `clap` finds in the words. It refuses none for another cause than want of memory.
fn matches<'a>(alloc: Global, words: &'a [&'a str]) -> Result<ArgMatches<'a>, Error>
    requires { AreSessionWords (map (λ word. word.now) words.now) }
    ensures ok { IfOk result (λ found. map (λ word. word.now) words.now
        ≡ codes "--workers" ∷ word_at (codes "workers") found ∷ word_at (codes "project") found
        ∷ word_at (codes "script") found ∷ []) }
    ensures err { IfErr result (λ error. kind_of error ≡ ErrorKind.OutOfMemory) }
{
    let workers = Arg::new(alloc, "workers").long("workers");
    let project = Arg::new(alloc, "project").required(true);
    let script = Arg::new(alloc, "script").required(true);
    let session = Command::new(alloc, "session")
        .no_binary_name(true)
        .disable_help_flag(true)
        .arg(workers)?
        .arg(project)?
        .arg(script)?;
    session.try_get_matches_from(words)
}

/// The words behind `session`, in front of which the option stands: `--workers`, the number of workers, the
/// name of the project and that of the script.
pub fn session_words<'a>(
    alloc: Global,
    words: &'a [&'a str],
) -> Result<SessionWords<'a>, AllocError>
    requires { AreSessionWords (map (λ word. word.now) words.now) }
    ensures { IfOk result (λ read. map (λ word. word.now) words.now
        ≡ codes "--workers" ∷ read.workers.now ∷ read.project.now ∷ read.script.now ∷ []) }
{
    match matches(alloc, words) {
        Ok(found) => Ok(SessionWords {
            workers: found.get_str("workers").unwrap_or(""),
            project: found.get_str("project").unwrap_or(""),
            script: found.get_str("script").unwrap_or(""),
        }),
        Err(_) => Err(AllocError),
    }
}
