//! Why bytes are no project.

ghost use Rattle.std.specs.Prelude.{◌≡◌};
ghost use Rattle.cv_project.specs.Errors.{error_of};

use crate::refusal::Refusal;
use cv_model::Text;

/// Why a file is no project. The texts are paths, such as `layers[2].style.classes[0].symbol.pen.width`.
#[derive(Debug, Drop)]
pub enum ProjectError {
    /// The bytes are no JSON that `serde_json` reads: by RFC 8259, at most 127 values nested, numbers within
    /// its range, no lone surrogates.
    NotJson,
    /// A field that must be there isn't.
    Missing(Text),
    /// A value of another kind, or spelled otherwise.
    WrongKind(Text),
    /// A key that is no field's.
    Unknown(Text),
    /// The id of two layers.
    Duplicate(u32),
    /// A value out of its range.
    Limit(Text),
    /// A version other than 1 and 2.
    BadVersion,
    /// No memory for the answer.
    NoMemory,
}

impl Refusal {
    /// The error that callers see.
    pub fn error(self) -> ProjectError
        ensures { result ≡ error_of self }
    {
        match self {
            Refusal::Missing(path) => ProjectError::Missing(path),
            Refusal::WrongKind(path) => ProjectError::WrongKind(path),
            Refusal::Unknown(path) => ProjectError::Unknown(path),
            Refusal::Duplicate(id) => ProjectError::Duplicate(id),
            Refusal::Limit(path) => ProjectError::Limit(path),
            Refusal::BadVersion => ProjectError::BadVersion,
            Refusal::NoMemory => ProjectError::NoMemory,
        }
    }
}
