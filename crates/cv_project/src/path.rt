//! Paths to the parts of a project file.

ghost use Rattle.std.specs.Prelude.{◌≡◌, [], IfOk, OnOk, string_bytes};
ghost use Rattle.cv_project.specs.Paths.{path_text};

use cv_model::{NoMemory, Text};
use std::alloc::Global;

/// The way from the top of the tree to a part, kept as borrowed steps: its text is made where a refusal needs
/// it.
#[derive(Clone, Copy)]
pub enum Path<'a> {
    /// The top of the tree.
    Top,
    /// The field of this name of an object.
    Field(&'a Path<'a>, &'a str),
    /// The member of this number of a list.
    Member(&'a Path<'a>, usize),
}

impl Path<'_> {
    /// The path as a text.
    pub fn text(&self, alloc: Global) -> Result<Text, NoMemory>
        ensures { IfOk result (λ made. made ≡ path_text self.now) }
    {
        let mut text = String::new(alloc);
        write_path(self, &mut text)?;
        Text::of(alloc, text.as_str())
    }
}

fn write_path(path: &Path<'_>, text: &mut String) -> Result<(), NoMemory>
    requires { string_bytes text.old ≡ [] }
    ensures { OnOk result (string_bytes text.new ≡ path_text path.now) }
{
    match path {
        Path::Top => Ok(()),
        Path::Field(parent, name) => {
            write_path(parent, text)?;
            if !text.is_empty() {
                text.push('.')?;
            }
            text.push_str(name)?;
            Ok(())
        }
        Path::Member(parent, at) => {
            write_path(parent, text)?;
            text.push('[')?;
            write!(text, "{at}")?;
            text.push(']')?;
            Ok(())
        }
    }
}
