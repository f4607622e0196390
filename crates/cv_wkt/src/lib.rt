//! The reader of well-known text.
//!
//! Contract: a text is read exactly where the grammar spells it, as what it spells, and else the leftmost
//! token decides. Definitions: `Kind`, the tokens; `Grammar`, the trees, their spelling and their geometry;
//! `Leftmost`, where a text is refused, said of its tokens alone; `Reader` and `Refusals`, the same answer as
//! a function.
//! Memory is taken for what is read and for the lists that are open; no handle is needed.
#![tactic(auto)]

ghost use Rattle.std.specs.Prelude.{◌≡◌, ◌≢◌, ◌↔◌, IfOk, Ok, Err};
ghost use Rattle.cv_model.specs.Geometries.{GeometryLists};
ghost use Rattle.cv_wkt.specs.Leftmost.{IsGeometry, IsRefusal};
ghost use Rattle.cv_wkt.specs.Refusals.{geometry_of};

mod kind;
mod laws;
mod pieces;
mod place;
mod reader;
mod short;
mod stack;
mod text;

use cv_model::{Geometry, WktError};
pub use laws::answers_are_spelt;
use std::alloc::Global;

/// The geometry of a well-known text, or why it is none.
///
/// Source: well-known text of OGC 06-103r4 without curves and surfaces, in this project's own profile: words
/// in any case, `SRID=digits;` in front, a tag joined to the word or apart, two to four ordinates whatever
/// the tag, of which all but x and y are dropped, EMPTY in place of any list, rings closed or not, members of
/// collections in reading order.
pub fn read(alloc: Global, text: &[u8]) -> Result<Geometry, WktError>
    // The tokens spell the geometry, none of them meets a limit, and they spell no other.
    ensures found { IfOk result (IsGeometry text.now) }
    ensures only { (g : GeometryLists) → IsGeometry text.now g
        → (result ≢ Err WktError.NoMemory) → result ≡ Ok g }

    // The leftmost token that is refused decides, and the error says for which cause.
    ensures fault { (e : WktError) → (result ≢ Err WktError.NoMemory)
        → (result ≡ Err e) ↔ IsRefusal text.now e }

    // The same as a function.
    ensures exact { (result ≢ Err WktError.NoMemory) → result ≡ geometry_of text.now }
{
    text::scan(alloc, text)
}

#[cfg(test)]
mod tests;
