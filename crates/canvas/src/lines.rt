//! What the program leaves behind an end: its status, and the lines on standard error.

ghost use Rattle.std.specs.Prelude.{◌≡◌, OnOk};
ghost use Rattle.std.specs.Io.KnownBytes.{Appends};
ghost use Rattle.std.specs.Process.{exit_status};
ghost use Rattle.cv_open.specs.Ends.{status_of};
ghost use Rattle.canvas.specs.Lines.{first_line, data_line, IsSecond, AreLines};

use crate::expected::expected_at;
use cv_open::{DataError, End, Which};
use cv_project::ProjectError;
use std::io;
use std::io::Write;
use std::process::ExitCode;

/// The forms of the commands, one a line.
const FORMS: &str = "quick <csv> <out> <w> <h> <xmin> <ymin> <xmax> <ymax> <rrggbb>\n\
    check <project>\n\
    paint <project> <canvas> <out>\n\
    session <project> <script> --workers 0";

/// The files that a command was at when it ended.
#[derive(Clone, Copy)]
pub struct Names<'a> {
    /// The name of the layer whose data were refused, or nothing.
    pub layer: &'a str,
    /// The name that was last read, or nothing.
    pub read: &'a str,
    /// The name that was last written, or nothing.
    pub written: &'a str,
}

impl<'a> Names<'a> {
    /// No name, for a command that was at no file.
    pub fn none() -> Names<'a> {
        Names {
            layer: "",
            read: "",
            written: "",
        }
    }
}

/// Writes the end's text, as a line.
fn first_line<W: Write>(end: &End, to: &mut W) -> io::Result<()>
    ensures { OnOk result (Appends (W.contents to.old) (W.contents to.new) (first_line end.now)) }
{
    match end {
        End::Done => Ok(()),
        _ => writeln!(to, "{end}"),
    }
}

/// Writes why a project of this name was refused: the place in the file, and what was expected there.
fn project_line<W: Write>(error: &ProjectError, name: &str, to: &mut W) -> io::Result<()> {
    match error {
        ProjectError::NotJson => writeln!(to, "{name}: no JSON"),
        ProjectError::Missing(path) => {
            let path = path.as_str();
            writeln!(to, "{path}: missing, {}", expected_at(path))
        }
        ProjectError::WrongKind(path) | ProjectError::Limit(path) => {
            let path = path.as_str();
            let place = if path.is_empty() { name } else { path };
            writeln!(to, "{place}: {}", expected_at(path))
        }
        ProjectError::Unknown(path) => writeln!(to, "{}: no field of this name", path.as_str()),
        ProjectError::Duplicate(id) => writeln!(to, "id {id}: another layer has it"),
        ProjectError::BadVersion => writeln!(to, "version: {}", expected_at("version")),
        ProjectError::NoMemory => Ok(()),
    }
}

/// Writes why data were refused: the layer and the file, and the place in it.
fn data_line<W: Write>(error: &DataError, names: &Names<'_>, to: &mut W) -> io::Result<()>
    ensures { OnOk result (Appends (W.contents to.old) (W.contents to.new)
        (data_line names.now.layer.now names.now.read.now error.now)) }
{
    let (layer, read) = (names.layer, names.read);
    if layer.is_empty() {
        writeln!(to, "{read}: {error}")
    } else {
        writeln!(to, "{layer}, {read}: {error}")
    }
}

/// Writes a second line where it helps.
fn second_line<W: Write>(end: &End, names: &Names<'_>, to: &mut W) -> io::Result<()>
    ensures { OnOk result (IsSecond end.now names.now (W.contents to.old) (W.contents to.new)) }
{
    let (read, written) = (names.read, names.written);
    match end {
        End::Usage => writeln!(to, "{FORMS}"),
        End::BadProject(error) => project_line(error, read, to),
        End::BadData(_, error) => data_line(error, names, to),
        End::BadScript(_) => writeln!(to, "{read}"),
        End::ReadFault(_) | End::Missing(_) => writeln!(to, "{read}"),
        End::WriteFault(Which::Output(_)) => writeln!(to, "{written}"),
        End::WriteFault(_) | End::Done | End::NoMemory => Ok(()),
    }
}

/// Writes the lines of an end at these files.
pub fn tell<W: Write>(end: &End, names: &Names<'_>, to: &mut W) -> io::Result<()>
    ensures { OnOk result (AreLines end.now names.now (W.contents to.old) (W.contents to.new)) }
{
    first_line(end, to)?;
    second_line(end, names, to)
}

/// Writes the lines of an end at these files, as far as the writer takes them, and gives the program's
/// status.
pub fn conclude<W: Write>(end: &End, names: &Names<'_>, to: &mut W) -> ExitCode
    ensures { exit_status result ≡ status_of end.now }
{
    let _ = tell(end, names, to);
    ExitCode::from(end.status())
}
