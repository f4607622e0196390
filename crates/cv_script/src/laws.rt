//! A law of the definitions, as the contract of a call that does nothing.

ghost use Rattle.std.specs.Prelude.{◌≡◌, ◌↔◌, List, ℕ, Some};
ghost use Rattle.cv_script.specs.Spelling.{SpellsLine};
ghost use Rattle.cv_script.specs.Words.{words_of};

/// The words that a line is read as are those that it spells: these words exactly where it spells them, and
/// none exactly where it spells none.
pub fn words_are_spelt()
    ensures { (line : List ℕ) (words : List (List ℕ)) → (words_of line ≡ Some words) ↔ SpellsLine line words }
{}
