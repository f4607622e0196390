//! The project file, read and written.
//!
//! Contract: a file is read exactly where its JSON tree says it, and else the refusal that the tables name
//! is answered; what is written is read as the same file. Definitions: `Fields`, `Lists` and `Kinds`, by
//! which the tables of `Symbols` to `Projects` are written, one line a field; `Trees`, what is written,
//! likewise.
//! Memory is taken for the tree, for what is read or written, and for the path of a refusal; no handle is
//! needed.
#![tactic(auto)]

ghost use Rattle.std.specs.Prelude.{◌≡◌, ◌≢◌, ◌↔◌, Ok, Err, IfOk, List, ℕ};
ghost use Rattle.serde_json.specs.Data.{Data};
ghost use Rattle.cv_model.specs.ProjectFiles.{FileParts, IsInForm};
ghost use Rattle.cv_project.specs.Errors.{answered};
ghost use Rattle.cv_project.specs.Projects.{IsTree, IsNoTree, tree_project};
ghost use Rattle.cv_project.specs.Trees.{file_tree};
ghost use Rattle.cv_project.specs.Written.{IsReadAs, TreesAreRead};
ghost use Rattle.serde_json.specs.Written.{compact_text};

mod canvas;
mod error;
mod kind;
mod layer;
mod list;
mod node;
mod parts;
mod path;
mod project;
mod ranges;
mod refusal;
mod source;
mod style;
mod symbol;
mod tree;
mod words;

use cv_model::{NoMemory, ProjectFile};
pub use error::ProjectError;
use kind::Kind;
pub use kind::{Decimal, Whole};
use node::Node;
use project::ProjectOf;
pub use ranges::{
    CACHE, COORDINATE, ID, MARKER_SIZE, MOST_CANVASES, MOST_CLASSES, MOST_LAYERS, MOST_NAME,
    MOST_PIXELS, OPACITY, PEN_WIDTH, SCALE, SIDE, STOPS,
};
use serde_json::Value;
use std::alloc::Global;
use tree::Part;

/// The project of a file, or why it is none.
///
/// Source: this project's own format, an object of JSON (RFC 8259) as the crate `serde_json` reads it.
pub fn read(alloc: Global, bytes: &[u8]) -> Result<ProjectFile, ProjectError>
    // The bytes are JSON, and the tables read its tree as this file, which is in form.
    ensures found { IfOk result (λ file. (d : Data) × IsTree bytes.now d × (tree_project d ≡ Ok file)) }
    ensures form { IfOk result IsInForm }
    // What a tree says is answered: the file, or the first refusal.
    ensures exact { (d : Data) → IsTree bytes.now d → (result ≢ Err ProjectError.NoMemory)
        → result ≡ answered (tree_project d) }
    ensures not_json { (result ≢ Err ProjectError.NoMemory)
        → (result ≡ Err ProjectError.NotJson) ↔ IsNoTree bytes.now }
{
    let value = match Value::from_slice(alloc, bytes) {
        Ok(value) => value,
        Err(error) => {
            return Err(if error.is_memory() {
                ProjectError::NoMemory
            } else {
                ProjectError::NotJson
            });
        }
    };
    match ProjectOf.read(&Node::top(alloc, &value)) {
        Ok(file) => Ok(file),
        Err(refusal) => Err(refusal.error()),
    }
}

/// The bytes of a project file in form: compact JSON of version 2, with each field, also where it has its
/// default. A field without a default that is absent is left out; so are an absent bound of scales, and
/// scales without a bound.
pub fn write(alloc: Global, file: &ProjectFile) -> Result<Vec<u8>, NoMemory>
    requires { IsInForm file.now }
    // The tree that stands for the file, without white space between its tokens.
    ensures bytes { IfOk result (λ b. b.items ≡ compact_text (file_tree file.now)) }
    // What is written is read as the same file.
    ensures read { IfOk result (λ b. IsReadAs b.items file.now) }
{
    match file.tree(alloc) {
        Ok(value) => value.to_vec(alloc),
        Err(error) => Err(error),
    }
}

/// What stands for a file in form is read as that file.
pub fn trees_are_read()
    ensures { TreesAreRead }
{}

#[cfg(test)]
mod tests;
