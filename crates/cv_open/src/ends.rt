//! How a command ends, and why what it reads is refused.

ghost use Rattle.std.specs.Prelude.{◌≡◌, Some};
ghost use Rattle.cv_open.specs.Ends.{status_of, text_of_end, text_of_data, word_of};

use cv_dtext::TextError;
use cv_grid::{GridError, GridWord};
use cv_project::ProjectError;
use std::error::Error;
use std::fmt;

/// The file or the text that an end speaks of.
#[derive(Clone, Copy, Debug, PartialEq, Eq)]
pub enum Which {
    /// The project's file.
    Project,
    /// The file of the layer at this place, from 0.
    Layer(u32),
    /// The script's file.
    Script,
    /// The output of this number, from 1.
    Output(u32),
    /// The command's text.
    Text,
}

/// Why the bytes of a layer were refused. Its text says so in words.
#[derive(Clone, Copy, Debug, PartialEq, Eq)]
pub enum DataError {
    /// They are no delimited text with a column of geometries, or have more in them than is read.
    Text(TextError),
    /// They are no grid, or one with more cells than are read.
    Grid(GridError),
    /// They are more bytes than are read of one file, or than the files before it left.
    TooLong,
}

/// How a command ended. Its text is what a program writes on standard error.
#[derive(Debug, Drop)]
pub enum End {
    /// All was read, done and written.
    Done,
    /// Memory ran out.
    NoMemory,
    /// The words are no command.
    Usage,
    /// The bytes of the project's file were refused, or lack what the command names.
    BadProject(ProjectError),
    /// The bytes of the layer at this place, from 0, were refused.
    BadData(u32, DataError),
    /// The line of the script of this number, from 1, was refused; 0 for a script of too many bytes.
    BadScript(u32),
    /// A read failed.
    ReadFault(Which),
    /// A write failed.
    WriteFault(Which),
    /// A file is not there.
    Missing(Which),
}

impl End {
    /// The exit status of a program that ends so.
    pub fn status(&self) -> u8
        ensures { result ≡ status_of self.now }
    {
        match self {
            End::Done => 0,
            End::NoMemory => 1,
            End::Usage => 2,
            End::BadProject(_) => 3,
            End::BadData(_, _) => 4,
            End::BadScript(_) => 5,
            End::ReadFault(_) => 6,
            End::WriteFault(_) => 7,
            End::Missing(_) => 8,
        }
    }
}

impl fmt::Display for End {
    ghost output = { λ end. Some (text_of_end end) };

    fn fmt<W: fmt::Write>(&self, f: &mut fmt::Formatter<W>) -> fmt::Result {
        match self {
            End::Done => Ok(()),
            End::NoMemory => write!(f, "out of memory"),
            End::Usage => write!(f, "usage"),
            End::BadProject(_) => write!(f, "bad project"),
            End::BadData(place, _) => write!(f, "bad data in layer {place}"),
            End::BadScript(line) => write!(f, "bad script in line {line}"),
            End::ReadFault(_) => write!(f, "read fault"),
            End::WriteFault(_) => write!(f, "write fault"),
            End::Missing(_) => write!(f, "file missing"),
        }
    }
}

impl Error for End {}

/// Why a delimited text was refused, in words.
#[derive(Clone, Copy)]
struct TextWords(TextError);

impl fmt::Display for TextWords {
    ghost use Rattle.cv_open.specs.Ends.{text_of_error};

    ghost output = { λ words. Some (text_of_error words.0) };

    fn fmt<W: fmt::Write>(&self, f: &mut fmt::Formatter<W>) -> fmt::Result {
        match self.0 {
            TextError::NoHeader => write!(f, "no header"),
            TextError::NoGeometryColumn => write!(f, "no column of geometries"),
            TextError::Uneven(number) => {
                write!(f, "another number of fields in record {number}")
            },
            TextError::NotUtf8(number) => write!(f, "no UTF-8 in record {number}"),
            TextError::TooMany => write!(f, "too many features, vertices or values"),
            TextError::NoMemory => write!(f, "out of memory"),
        }
    }
}

/// The word of a header that a grid lacks.
fn grid_word(word: GridWord) -> &'static str
    ensures { result.now ≡ word_of word }
{
    match word {
        GridWord::Ncols => "ncols",
        GridWord::Nrows => "nrows",
        GridWord::Xll => "xllcorner",
        GridWord::Yll => "yllcorner",
        GridWord::Cellsize => "cellsize",
        GridWord::Dx => "dx",
        GridWord::Dy => "dy",
    }
}

/// Why a grid was refused, in words.
#[derive(Clone, Copy)]
struct GridWords(GridError);

impl fmt::Display for GridWords {
    ghost use Rattle.cv_open.specs.Ends.{text_of_grid};

    ghost output = { λ words. Some (text_of_grid words.0) };

    fn fmt<W: fmt::Write>(&self, f: &mut fmt::Formatter<W>) -> fmt::Result {
        match self.0 {
            GridError::MissingWord(word) => write!(f, "no {} in the header", grid_word(word)),
            GridError::BadWord(line) => write!(f, "no such word, or a second one, in line {line}"),
            GridError::BadNumber(at) => write!(f, "no number that fits at byte {at}"),
            GridError::TooFew(found) => write!(f, "only {found} values"),
            GridError::TooMany => write!(f, "more values than cells"),
            GridError::TooLarge => write!(f, "too many cells, or an edge out of range"),
            GridError::NoMemory => write!(f, "out of memory"),
        }
    }
}

impl fmt::Display for DataError {
    ghost output = { λ error. Some (text_of_data error) };

    fn fmt<W: fmt::Write>(&self, f: &mut fmt::Formatter<W>) -> fmt::Result {
        match self {
            DataError::TooLong => write!(f, "too many bytes"),
            DataError::Text(error) => TextWords(*error).fmt(f),
            DataError::Grid(error) => GridWords(*error).fmt(f),
        }
    }
}

impl Error for DataError {}
