//! What holds of the answers as a function.

ghost use Rattle.std.specs.Prelude.{◌≡◌, ◌↔◌, ℕ, List, Ok, Err};
ghost use Rattle.cv_model.specs.Grids.{CellGrid};
ghost use Rattle.cv_grid.specs.declared.error.GridError.{GridError};
ghost use Rattle.cv_grid.specs.Grammar.{Spells};
ghost use Rattle.cv_grid.specs.Refusals.{IsRefused};
ghost use Rattle.cv_grid.specs.Answers.{grid_of};

/// The answer as a function is that of the grammar: a grid exactly where the text spells it, and each refusal
/// exactly where its rule says.
pub fn grids_are_spelt()
    ensures found { (room : ℕ) (text : List ℕ) (g : CellGrid)
        → (grid_of room text ≡ Ok g) ↔ Spells room text g }
    ensures fault { (room : ℕ) (text : List ℕ) (e : GridError)
        → (grid_of room text ≡ Err e) ↔ IsRefused room text e }
{}
