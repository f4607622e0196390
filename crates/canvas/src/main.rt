//! The program: the real files and standard output behind the top call.
#![tactic(auto)]

mod expected;
mod files;
mod layers;
mod lines;
mod output;

use crate::files::{FileShelf, FileTray};
use crate::layers::layer_name;
use crate::lines::{Names, conclude};
use crate::output::Output;
use cv_model::{Sequence, Text};
use cv_open::End;
use cv_outside::Open;
use cv_top::run;
use std::alloc::{AllocError, Global};
use std::io::IsTerminal;
use std::process::ExitCode;
use std::rt::Files;
use std::{env, io};

/// The words behind the program's name. A word that isn't UTF-8 makes none of them a form.
fn words<R: env::Env + AllocGlobal>(rt: &R) -> Result<Sequence<Text>, End> {
    let alloc = rt.alloc();
    let given = env::args(rt).map_err(|error| end_of_words(error.kind()))?;
    let mut words = Sequence::new(alloc);
    for word in given.skip(1) {
        let word = Text::of(alloc, word.as_str()).map_err(|_| End::NoMemory)?;
        words.put(word).map_err(|_| End::NoMemory)?;
    }
    Ok(words)
}

/// How a program ends whose words can't be read.
fn end_of_words(kind: io::ErrorKind) -> End {
    match kind {
        io::ErrorKind::OutOfMemory => End::NoMemory,
        _ => End::Usage,
    }
}

/// The name of the layer whose data were refused at this end, where the words name a project. `quick` names
/// none.
fn refused_layer<R: Files + AllocGlobal>(files: &R, words: &[Text], end: &End) -> Option<Text> {
    let alloc = files.alloc();
    let shelf = &mut FileShelf::new(files, files.alloc(), None::<Vec<u8>>);
    match (words, end) {
        ([command, project, ..], End::BadData(place, _)) if command.as_str() != "quick" => {
            layer_name(alloc, shelf, project.as_str(), *place)
        }
        _ => None,
    }
}

fn main(rt: HostRuntime) -> ExitCode {
    let errors = rt.stderr();
    let to = &mut io::writer(&errors);
    let words = match words(&rt) {
        Ok(words) => words,
        Err(end) => return conclude(&end, &Names::none(), to),
    };
    let words = words.as_slice();
    let progress = if errors.is_terminal() {
        Some(io::writer(&errors))
    } else {
        None
    };
    let (shelf, tray) = (
        &mut FileShelf::new(&rt, rt.alloc(), progress),
        &mut FileTray::new(&rt, rt.alloc()),
    );
    let out = &mut Output::new(io::writer(&rt));
    let end = run(&rt, rt.alloc(), words, shelf, tray, out, &Open);
    let layer = refused_layer(&rt, words, &end);
    let names = Names {
        layer: layer.as_ref().map_or("", Text::as_str),
        read: shelf.last(),
        written: tray.last(),
    };
    conclude(&end, &names, to)
}

#[cfg(test)]
mod tests;
