//! Words, each of which stands for a value.

ghost use Rattle.std.specs.Prelude.{◌≡◌, ℕ, List, find, bytes_eq};

use cv_model::{Blend, Delimiter, RampKind, Shape};

/// A value that is written as a word.
pub trait Word: Copy + 'static {
    ghost spelling: { Self → List ℕ };

    ghost all: { List Self };

    /// The word.
    fn word(self) -> &'static str
        ensures { result.now ≡ spelling self };

    /// All values that have a word.
    fn words() -> &'static [Self]
        ensures { result.now ≡ all };
}

/// The value of a word, if it has one.
pub fn find_word<W: Word>(text: &str) -> Option<W>
    ensures { result ≡ find (λ word. bytes_eq (W.spelling word) text.now) W.all }
{
    W::words().iter().copied().find(|word| word.word() == text)
}

impl Word for Blend {
    ghost use Rattle.cv_project.specs.Words.{blend_word, blends};

    ghost spelling = { blend_word };

    ghost all = { blends };

    fn word(self) -> &'static str {
        match self {
            Blend::Normal => "normal",
            Blend::Multiply => "multiply",
            Blend::Screen => "screen",
            Blend::Overlay => "overlay",
            Blend::Darken => "darken",
            Blend::Lighten => "lighten",
            Blend::ColorDodge => "color-dodge",
            Blend::ColorBurn => "color-burn",
            Blend::HardLight => "hard-light",
            Blend::Difference => "difference",
            Blend::Exclusion => "exclusion",
            Blend::Addition => "addition",
        }
    }

    fn words() -> &'static [Blend] {
        &[
            Blend::Normal,
            Blend::Multiply,
            Blend::Screen,
            Blend::Overlay,
            Blend::Darken,
            Blend::Lighten,
            Blend::ColorDodge,
            Blend::ColorBurn,
            Blend::HardLight,
            Blend::Difference,
            Blend::Exclusion,
            Blend::Addition,
        ]
    }
}

impl Word for Delimiter {
    ghost use Rattle.cv_project.specs.Words.{delimiter_word, delimiters};

    ghost spelling = { delimiter_word };

    ghost all = { delimiters };

    fn word(self) -> &'static str {
        match self {
            Delimiter::Comma => "comma",
            Delimiter::Semicolon => "semicolon",
            Delimiter::Tab => "tab",
        }
    }

    fn words() -> &'static [Delimiter] {
        &[Delimiter::Comma, Delimiter::Semicolon, Delimiter::Tab]
    }
}

impl Word for RampKind {
    ghost use Rattle.cv_project.specs.Words.{ramp_word, ramps};

    ghost spelling = { ramp_word };

    ghost all = { ramps };

    fn word(self) -> &'static str {
        match self {
            RampKind::Exact => "exact",
            RampKind::Discrete => "discrete",
            RampKind::Linear => "linear",
        }
    }

    fn words() -> &'static [RampKind] {
        &[RampKind::Exact, RampKind::Discrete, RampKind::Linear]
    }
}

impl Word for Shape {
    ghost use Rattle.cv_project.specs.Words.{shape_word, shapes};

    ghost spelling = { shape_word };

    ghost all = { shapes };

    fn word(self) -> &'static str {
        match self {
            Shape::Square => "square",
            Shape::Diamond => "diamond",
            Shape::Circle => "circle",
        }
    }

    fn words() -> &'static [Shape] {
        &[Shape::Square, Shape::Diamond, Shape::Circle]
    }
}

/// What a layer's source is.
#[derive(Clone, Copy)]
pub enum SourceKind {
    /// A delimited text.
    Text,
    /// An ASCII grid.
    Grid,
}

impl Word for SourceKind {
    ghost use Rattle.cv_project.specs.Words.{source_word, sources};

    ghost spelling = { source_word };

    ghost all = { sources };

    fn word(self) -> &'static str {
        match self {
            SourceKind::Text => "text",
            SourceKind::Grid => "grid",
        }
    }

    fn words() -> &'static [SourceKind] {
        &[SourceKind::Text, SourceKind::Grid]
    }
}

/// What a layer's style is.
#[derive(Clone, Copy)]
pub enum StyleKind {
    /// One symbol.
    Single,
    /// A symbol for each text.
    Categorised,
    /// A symbol for each range of numbers.
    Graduated,
    /// A colour for each number of a grid.
    Ramp,
}

impl Word for StyleKind {
    ghost use Rattle.cv_project.specs.Words.{style_word, styles};

    ghost spelling = { style_word };

    ghost all = { styles };

    fn word(self) -> &'static str {
        match self {
            StyleKind::Single => "single",
            StyleKind::Categorised => "categorised",
            StyleKind::Graduated => "graduated",
            StyleKind::Ramp => "ramp",
        }
    }

    fn words() -> &'static [StyleKind] {
        &[
            StyleKind::Single,
            StyleKind::Categorised,
            StyleKind::Graduated,
            StyleKind::Ramp,
        ]
    }
}
