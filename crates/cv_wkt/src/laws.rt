//! A law of the definitions, as the contract of a call that does nothing.

ghost use Rattle.std.specs.Prelude.{◌≡◌, ◌↔◌, List, ℕ, Ok, Err};
ghost use Rattle.cv_model.specs.Geometries.{GeometryLists};
ghost use Rattle.cv_wkt.specs.Leftmost.{IsGeometry, IsRefusal};
ghost use Rattle.cv_wkt.specs.Refusals.{geometry_of};

use cv_model::WktError;

/// The answer as a function is that of the grammar: a geometry exactly where the tokens spell it, a refusal
/// exactly where the leftmost token that is refused has that cause.
pub fn answers_are_spelt()
    ensures found { (text : List ℕ) (g : GeometryLists) → (geometry_of text ≡ Ok g) ↔ IsGeometry text g }
    ensures fault { (text : List ℕ) (e : WktError) → (geometry_of text ≡ Err e) ↔ IsRefusal text e }
{}
