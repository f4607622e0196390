//! Scripts and their commands.

ghost use Rattle.std.specs.Prelude.{◌≡◌};

use cv_chunks::Shared;
use cv_model::{Edit, Extent, Sequence, Text};
use std::marker::Model;

/// A command of a script, with its arguments. Canvases are counted from 0.
#[derive(Drop)]
pub enum Command {
    /// Sets the view of an extent.
    View { canvas: u32, extent: Extent },
    /// Moves the view by whole pixels, eastwards and southwards; in a script that is read, each from -4,096
    /// to 4,096.
    Pan { canvas: u32, dx: i32, dy: i32 },
    /// Changes the side of a pixel by a fraction; in a script that is read, both numbers are from 1 to 1,000.
    Zoom { canvas: u32, num: u32, den: u32 },
    /// Starts a job.
    Start { canvas: u32 },
    /// Cancels the canvas's last job.
    Cancel { canvas: u32 },
    /// Goes on when the canvas's last job has an end.
    Wait { canvas: u32 },
    /// Claims a task once, if one is due, and holds it, but for a look that hits.
    Take,
    /// Does the task that is held longest.
    Give,
    /// Writes the preview of the canvas's last job to a file.
    Preview { canvas: u32, file: Text },
    /// Writes the canvas's published picture to a file.
    Save { canvas: u32, file: Text },
    /// Edits the project.
    Edit(Shared<Edit>),
}

/// A command with its line, counted from 1.
#[derive(Drop)]
pub struct Numbered {
    /// The number of the line.
    pub line: u32,
    /// What the line says.
    pub command: Command,
}

/// The commands of a script in order, seen as their list.
#[derive(Drop)]
pub struct Script {
    commands: Sequence<Numbered>,
}

impl Model for Script {
    ghost use Rattle.std.specs.Prelude.{List};
    ghost use Rattle.cv_script.specs.declared.script.Numbered.{Numbered};

    ghost Value = { List Numbered };

    ghost view = { λ s. s.commands };
}

impl Script {
    /// The script of these commands.
    pub fn of(commands: Sequence<Numbered>) -> Script
        ensures { result ≡ commands }
    {
        Script { commands }
    }

    /// The commands in order.
    pub fn commands(&self) -> &[Numbered]
        ensures { result.now ≡ self.now }
    {
        self.commands.as_slice()
    }
}
