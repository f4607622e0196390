//! A law of the definitions, as the contract of a call that does nothing.

ghost use Rattle.std.specs.Prelude.{◌≡◌, ◌↔◌, List, ℕ, Ok, Err};
ghost use Rattle.cv_model.specs.Features.{FeatureTable};
ghost use Rattle.cv_dtext.specs.Refusals.{IsRead, IsRefused, features_of};

use crate::options::{TextError, TextOptions};

/// The answer as a function is that of the records: a table exactly where the text is read as it, a refusal
/// exactly where the first record that shows a cause shows this one.
pub fn features_are_read()
    ensures found { (options : TextOptions) (bytes : List ℕ) (table : FeatureTable)
        → (features_of options bytes ≡ Ok table) ↔ IsRead options bytes table }
    ensures fault { (options : TextOptions) (bytes : List ℕ) (e : TextError)
        → (features_of options bytes ≡ Err e) ↔ IsRefused options bytes e }
{}
