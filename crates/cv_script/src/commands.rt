//! The commands of a script, each as its row of the table says.

ghost use Rattle.std.specs.Prelude.{◌≡◌};
ghost use Rattle.cv_script.specs.declared.names.CommandName.TheVariants as name_of;
ghost use Rattle.cv_script.specs.Answers.{Answers};
ghost use Rattle.cv_script.specs.Kinds.{number};
ghost use Rattle.cv_script.specs.Table.{one, extent, row, command_of};

use crate::edits::edit;
use crate::error::Refusal;
use crate::kinds::{coordinate, name, number, step, whole};
use crate::names::CommandName;
use crate::script::Command;
use crate::spelling::find_value;
use crate::words::Word;
use cv_chunks::Shared;
use cv_model::Extent;
use std::alloc::Global;

/// `xmin ymin xmax ymax`.
#[tactic(auto, unfolding(crate::specs::Table::extent))]
fn extent(words: &[Word]) -> Result<Extent, Refusal>
    ensures { Answers result (extent words.now) }
{
    let [xmin, ymin, xmax, ymax] = words else {
        return Err(Refusal::Bad);
    };
    let xmin = coordinate(xmin.as_slice())?;
    let ymin = coordinate(ymin.as_slice())?;
    let xmax = coordinate(xmax.as_slice())?;
    let ymax = coordinate(ymax.as_slice())?;
    Ok(Extent {
        xmin,
        ymin,
        xmax,
        ymax,
    })
}

fn view(words: &[Word]) -> Result<Command, Refusal>
    ensures { Answers result ((row name_of.View).makes words.now) }
{
    let [canvas, rest @ ..] = words else {
        return Err(Refusal::Bad);
    };
    let canvas = number(canvas.as_slice())?;
    let extent = extent(rest)?;
    Ok(Command::View { canvas, extent })
}

fn pan(words: &[Word]) -> Result<Command, Refusal>
    ensures { Answers result ((row name_of.Pan).makes words.now) }
{
    let [canvas, dx, dy] = words else {
        return Err(Refusal::Bad);
    };
    let canvas = number(canvas.as_slice())?;
    let dx = step(dx.as_slice())?;
    let dy = step(dy.as_slice())?;
    Ok(Command::Pan { canvas, dx, dy })
}

fn zoom(words: &[Word]) -> Result<Command, Refusal>
    ensures { Answers result ((row name_of.Zoom).makes words.now) }
{
    let [canvas, num, den] = words else {
        return Err(Refusal::Bad);
    };
    let canvas = number(canvas.as_slice())?;
    let num = whole(num.as_slice(), 1, 1000)?;
    let den = whole(den.as_slice(), 1, 1000)?;
    let num = num as u32;
    let den = den as u32;
    Ok(Command::Zoom { canvas, num, den })
}

/// The one word of `start`, `cancel`, `wait`, and of the edits that name a layer alone.
pub fn only_number(words: &[Word]) -> Result<u32, Refusal>
    ensures { Answers result (one number (λ n. n) words.now) }
{
    let [word] = words else {
        return Err(Refusal::Bad);
    };
    number(word.as_slice())
}

fn start(words: &[Word]) -> Result<Command, Refusal>
    ensures { Answers result ((row name_of.Start).makes words.now) }
{
    let [canvas] = words else {
        return Err(Refusal::Bad);
    };
    let canvas = number(canvas.as_slice())?;
    Ok(Command::Start { canvas })
}

fn cancel(words: &[Word]) -> Result<Command, Refusal>
    ensures { Answers result ((row name_of.Cancel).makes words.now) }
{
    let [canvas] = words else {
        return Err(Refusal::Bad);
    };
    let canvas = number(canvas.as_slice())?;
    Ok(Command::Cancel { canvas })
}

fn wait(words: &[Word]) -> Result<Command, Refusal>
    ensures { Answers result ((row name_of.Wait).makes words.now) }
{
    let [canvas] = words else {
        return Err(Refusal::Bad);
    };
    let canvas = number(canvas.as_slice())?;
    Ok(Command::Wait { canvas })
}

fn take(words: &[Word]) -> Result<Command, Refusal>
    ensures { Answers result ((row name_of.Take).makes words.now) }
{
    match words {
        [] => Ok(Command::Take),
        _ => Err(Refusal::Bad),
    }
}

fn give(words: &[Word]) -> Result<Command, Refusal>
    ensures { Answers result ((row name_of.Give).makes words.now) }
{
    match words {
        [] => Ok(Command::Give),
        _ => Err(Refusal::Bad),
    }
}

fn preview(alloc: Global, words: &[Word]) -> Result<Command, Refusal>
    ensures { Answers result ((row name_of.Preview).makes words.now) }
{
    let [canvas, file] = words else {
        return Err(Refusal::Bad);
    };
    let canvas = number(canvas.as_slice())?;
    let file = name(alloc, file.as_slice())?;
    Ok(Command::Preview { canvas, file })
}

fn save(alloc: Global, words: &[Word]) -> Result<Command, Refusal>
    ensures { Answers result ((row name_of.Save).makes words.now) }
{
    let [canvas, file] = words else {
        return Err(Refusal::Bad);
    };
    let canvas = number(canvas.as_slice())?;
    let file = name(alloc, file.as_slice())?;
    Ok(Command::Save { canvas, file })
}

/// The command of a name and the words behind it.
fn named(alloc: Global, name: CommandName, words: &[Word]) -> Result<Command, Refusal>
    ensures { Answers result ((row name).makes words.now) }
{
    match name {
        CommandName::View => view(words),
        CommandName::Pan => pan(words),
        CommandName::Zoom => zoom(words),
        CommandName::Start => start(words),
        CommandName::Cancel => cancel(words),
        CommandName::Wait => wait(words),
        CommandName::Take => take(words),
        CommandName::Give => give(words),
        CommandName::Preview => preview(alloc, words),
        CommandName::Save => save(alloc, words),
    }
}

/// The command of some words: the first is its name.
#[tactic(auto, unfolding(crate::specs::Table::command_of))]
pub fn command(alloc: Global, words: &[Word]) -> Result<Command, Refusal>
    ensures { Answers result (command_of words.now) }
{
    let [word, rest @ ..] = words else {
        return Err(Refusal::Bad);
    };
    if let Some(name) = find_value(word.as_slice()) {
        return named(alloc, name, rest);
    }
    let edit = edit(alloc, word, rest)?;
    match Shared::of(alloc, edit) {
        Ok(edit) => Ok(Command::Edit(edit)),
        Err(_) => Err(Refusal::NoMemory),
    }
}
