//! Values that are written as a word.

ghost use Rattle.std.specs.Prelude.{◌≡◌, ℕ, List, find, bytes_eq};
ghost use Rattle.cv_script.specs.Answers.{Answers};
ghost use Rattle.cv_script.specs.Kinds.{word_in};

use crate::error::Refusal;
use cv_model::{Blend, RampKind, Shape};

/// A value that is written as a word.
pub trait Spelling: Copy + 'static {
    ghost spelling: { Self → List ℕ };

    ghost all: { List Self };

    /// The word.
    fn spelled(self) -> &'static str
        ensures { result.now ≡ spelling self };

    /// All values that have a word.
    fn values() -> &'static [Self]
        ensures { result.now ≡ all };
}

/// The value of a word, if it has one.
pub fn find_value<S: Spelling>(word: &[u8]) -> Option<S>
    ensures { result ≡ word_in S.spelling S.all word.now }
{
    S::values()
        .iter()
        .copied()
        .find(|value| value.spelled().as_bytes() == word)
}

/// The value of a word.
pub fn value<S: Spelling>(word: &[u8]) -> Result<S, Refusal>
    ensures { Answers result (word_in S.spelling S.all word.now) }
{
    match find_value(word) {
        Some(value) => Ok(value),
        None => Err(Refusal::Bad),
    }
}

impl Spelling for Blend {
    ghost use Rattle.cv_script.specs.Kinds.{blend_word, blends};

    ghost spelling = { blend_word };

    ghost all = { blends };

    fn spelled(self) -> &'static str {
        match self {
            Blend::Normal => "normal",
            Blend::Multiply => "multiply",
            Blend::Screen => "screen",
            Blend::Overlay => "overlay",
            Blend::Darken => "darken",
            Blend::Lighten => "lighten",
            Blend::ColorDodge => "color-dodge",
            Blend::ColorBurn => "color-burn",
            Blend::HardLight => "hard-light",
            Blend::Difference => "difference",
            Blend::Exclusion => "exclusion",
            Blend::Addition => "addition",
        }
    }

    fn values() -> &'static [Blend] {
        &[
            Blend::Normal,
            Blend::Multiply,
            Blend::Screen,
            Blend::Overlay,
            Blend::Darken,
            Blend::Lighten,
            Blend::ColorDodge,
            Blend::ColorBurn,
            Blend::HardLight,
            Blend::Difference,
            Blend::Exclusion,
            Blend::Addition,
        ]
    }
}

impl Spelling for RampKind {
    ghost use Rattle.cv_script.specs.Kinds.{ramp_word, ramps};

    ghost spelling = { ramp_word };

    ghost all = { ramps };

    fn spelled(self) -> &'static str {
        match self {
            RampKind::Exact => "exact",
            RampKind::Discrete => "discrete",
            RampKind::Linear => "linear",
        }
    }

    fn values() -> &'static [RampKind] {
        &[RampKind::Exact, RampKind::Discrete, RampKind::Linear]
    }
}

impl Spelling for Shape {
    ghost use Rattle.cv_script.specs.Kinds.{shape_word, shapes};

    ghost spelling = { shape_word };

    ghost all = { shapes };

    fn spelled(self) -> &'static str {
        match self {
            Shape::Square => "square",
            Shape::Diamond => "diamond",
            Shape::Circle => "circle",
        }
    }

    fn values() -> &'static [Shape] {
        &[Shape::Square, Shape::Diamond, Shape::Circle]
    }
}
