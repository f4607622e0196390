//! Where a reader of words stands in a line.

ghost use Rattle.std.specs.Prelude.{◌≡◌};
ghost use Rattle.cv_script.specs.Spelling.{is_separator};
ghost use Rattle.cv_script.specs.Words.{next_of};

/// A place in a line.
#[derive(Clone, Copy, Debug, PartialEq, Eq)]
pub enum Place {
    /// Between words.
    Between,
    /// In a word without quotes.
    Bare,
    /// In a quoted word.
    Quoted,
    /// Behind a quote in a quoted word: its last one, or the first of two.
    Closed,
}

/// What becomes of a byte.
#[derive(Clone, Copy, Debug, PartialEq, Eq)]
pub enum Act {
    /// It is no part of a word.
    Skip,
    /// It is a byte of the word.
    Keep,
    /// The word has ended before it.
    End,
}

/// Whether a byte stands between words.
fn is_separator(byte: u8) -> bool
    ensures { result ≡ is_separator byte }
{
    byte == b' ' || byte == b'\t'
}

impl Place {
    /// The place behind a byte, and what becomes of the byte; `None` where it can't stand here.
    pub fn next(self, byte: u8) -> Option<(Place, Act)>
        ensures { result ≡ next_of self byte }
    {
        let is_quote = byte == b'"';
        match self {
            Place::Between => Some(if is_separator(byte) {
                (Place::Between, Act::Skip)
            } else if is_quote {
                (Place::Quoted, Act::Skip)
            } else {
                (Place::Bare, Act::Keep)
            }),
            Place::Bare => {
                if is_separator(byte) {
                    Some((Place::Between, Act::End))
                } else if is_quote {
                    None
                } else {
                    Some((Place::Bare, Act::Keep))
                }
            }
            Place::Quoted => Some(if is_quote {
                (Place::Closed, Act::Skip)
            } else {
                (Place::Quoted, Act::Keep)
            }),
            Place::Closed => {
                if is_quote {
                    Some((Place::Quoted, Act::Keep))
                } else if is_separator(byte) {
                    Some((Place::Between, Act::End))
                } else {
                    None
                }
            }
        }
    }
}
