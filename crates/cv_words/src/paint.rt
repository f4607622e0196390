//! The words behind `paint`: a project, the number of a canvas, and the name of a picture.

ghost use Rattle.std.specs.Prelude.{◌≡◌, ◌∷◌, [], IfOk, IfErr, map, true, length, codes};
ghost use Rattle.std.specs.List.{list_all};
ghost use Rattle.clap.specs.Words.{kind_of};
ghost use Rattle.cv_words.specs.Found.{word_at};
ghost use Rattle.cv_words.specs.Plain.{is_plain};

use clap::error::ErrorKind;
use clap::{Arg, ArgMatches, Command, Error};
use std::alloc::{AllocError, Global};

/// The words behind `paint`.
#[derive(Clone, Copy, Debug)]
pub struct PaintWords<'a> {
    /// The name of the project.
    pub project: &'a str,
    /// The number of the canvas.
    pub canvas: &'a str,
    /// The name of the picture.
    pub out: &'a str,
}

/// What `clap` finds in the words. It refuses none for another cause than want of memory.
fn matches<'a>(alloc: Global, words: &'a [&'a str]) -> Result<ArgMatches<'a>, Error>
    requires three { length words.now ≡ 3 }
    requires plain { list_all is_plain (map (λ word. word.now) words.now) ≡ true }
    ensures ok { IfOk result (λ found. map (λ word. word.now) words.now
        ≡ word_at (codes "project") found ∷ word_at (codes "canvas") found ∷ word_at (codes "out") found
        ∷ []) }
    ensures err { IfErr result (λ error. kind_of error ≡ ErrorKind.OutOfMemory) }
{
    let project = Arg::new(alloc, "project").required(true);
    let canvas = Arg::new(alloc, "canvas").required(true);
    let out = Arg::new(alloc, "out").required(true);
    let paint = Command::new(alloc, "paint")
        .no_binary_name(true)
        .disable_help_flag(true)
        .arg(project)?
        .arg(canvas)?
        .arg(out)?;
    paint.try_get_matches_from(words)
}

/// The three words behind `paint`.
pub fn paint_words<'a>(alloc: Global, words: &'a [&'a str]) -> Result<PaintWords<'a>, AllocError>
    requires three { length words.now ≡ 3 }
    requires plain { list_all is_plain (map (λ word. word.now) words.now) ≡ true }
    ensures { IfOk result (λ read. map (λ word. word.now) words.now
        ≡ read.project.now ∷ read.canvas.now ∷ read.out.now ∷ []) }
{
    match matches(alloc, words) {
        Ok(found) => Ok(PaintWords {
            project: found.get_str("project").unwrap_or(""),
            canvas: found.get_str("canvas").unwrap_or(""),
            out: found.get_str("out").unwrap_or(""),
        }),
        Err(_) => Err(AllocError),
    }
}
