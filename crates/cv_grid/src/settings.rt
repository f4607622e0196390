//! What a header has said so far.

ghost use Rattle.std.specs.Prelude.{◌≡◌, IfSome};
ghost use Rattle.cv_grid.specs.Words.{nothing_said, is_free, free_word, with_value};
ghost use Rattle.cv_grid.specs.Ranges.{IsInRange};

use crate::numbers::{coordinate, count, decimal, size};
use crate::word::Word;
use cv_decimal::Fixed;

/// Where the first cell of an axis lies, in millionths.
#[derive(Clone, Copy)]
pub enum Anchor {
    /// Its outer edge.
    Corner(i64),
    /// Its middle.
    Centre(i64),
}

/// The values of the words so far; sides of cells in millionths.
#[derive(Clone, Copy)]
pub struct Settings {
    pub cols: Option<u32>,
    pub rows: Option<u32>,
    pub left: Option<Anchor>,
    pub bottom: Option<Anchor>,
    pub dx: Option<u64>,
    pub dy: Option<u64>,
    pub nodata: Option<Fixed>,
}

impl Settings {
    /// Before the first word.
    pub fn none() -> Settings
        ensures { result ≡ nothing_said }
    {
        Settings {
            cols: None,
            rows: None,
            left: None,
            bottom: None,
            dx: None,
            dy: None,
            nodata: None,
        }
    }

    /// Whether nothing was said of what a word speaks of.
    fn is_free(&self, word: Word) -> bool
        ensures { result ≡ is_free word self.now }
    {
        match word {
            Word::Ncols => self.cols.is_none(),
            Word::Nrows => self.rows.is_none(),
            Word::XllCorner | Word::XllCenter => self.left.is_none(),
            Word::YllCorner | Word::YllCenter => self.bottom.is_none(),
            Word::Cellsize => self.dx.is_none() && self.dy.is_none(),
            Word::Dx => self.dx.is_none(),
            Word::Dy => self.dy.is_none(),
            Word::NodataValue => self.nodata.is_none(),
        }
    }

    /// The word of a token, if it is known and speaks of something new.
    pub fn free_word(&self, token: &[u8]) -> Option<Word>
        ensures { result ≡ free_word self.now token.now }
    {
        let word = Word::of(token)?;
        if self.is_free(word) { Some(word) } else { None }
    }

    /// What is said with a word and its value; `None` where the value doesn't fit the word.
    pub fn with_value(self, word: Word, token: &[u8]) -> Option<Settings>
        requires { IsInRange self }
        ensures value { result ≡ with_value word token.now self }
        ensures range { IfSome result IsInRange }
    {
        let mut said = self;
        match word {
            Word::Ncols => said.cols = Some(count(token)?),
            Word::Nrows => said.rows = Some(count(token)?),
            Word::XllCorner => said.left = Some(Anchor::Corner(coordinate(token)?)),
            Word::XllCenter => said.left = Some(Anchor::Centre(coordinate(token)?)),
            Word::YllCorner => said.bottom = Some(Anchor::Corner(coordinate(token)?)),
            Word::YllCenter => said.bottom = Some(Anchor::Centre(coordinate(token)?)),
            Word::Cellsize => {
                let side = size(token)?;
                said.dx = Some(side);
                said.dy = Some(side);
            }
            Word::Dx => said.dx = Some(size(token)?),
            Word::Dy => said.dy = Some(size(token)?),
            Word::NodataValue => said.nodata = Some(decimal(token)?),
        }
        Some(said)
    }
}
