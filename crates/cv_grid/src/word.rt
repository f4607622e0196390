//! The words of a header.

ghost use Rattle.std.specs.Prelude.{◌≡◌};
ghost use Rattle.cv_grid.specs.Words.{is_name, begins_with_letter, is_header_token, word_of};

/// A word of a header.
#[derive(Clone, Copy)]
pub enum Word {
    Ncols,
    Nrows,
    XllCorner,
    XllCenter,
    YllCorner,
    YllCenter,
    Cellsize,
    Dx,
    Dy,
    NodataValue,
}

fn is_name(name: &[u8], token: &[u8]) -> bool
    ensures { result ≡ is_name name.now token.now }
{
    name.eq_ignore_ascii_case(token)
}

fn begins_with_letter(token: &[u8]) -> bool
    ensures { result ≡ begins_with_letter token.now }
{
    match token.first() {
        Some(byte) => byte.is_ascii_alphabetic(),
        None => false,
    }
}

/// Whether a token, in a word's place, belongs to the header: it begins with a letter and isn't `nan`.
#[tactic(auto, unfolding(crate::specs::Words::is_header_token))]
pub fn is_header_token(token: &[u8]) -> bool
    ensures { result ≡ is_header_token token.now }
{
    begins_with_letter(token) && !is_name(b"nan", token)
}

impl Word {
    /// The word of this name, in any case.
    #[tactic(auto, unfolding(crate::specs::Words::word_of))]
    pub fn of(token: &[u8]) -> Option<Word>
        ensures { result ≡ word_of token.now }
    {
        if is_name(b"ncols", token) {
            Some(Word::Ncols)
        } else if is_name(b"nrows", token) {
            Some(Word::Nrows)
        } else if is_name(b"xllcorner", token) {
            Some(Word::XllCorner)
        } else if is_name(b"xllcenter", token) {
            Some(Word::XllCenter)
        } else if is_name(b"yllcorner", token) {
            Some(Word::YllCorner)
        } else if is_name(b"yllcenter", token) {
            Some(Word::YllCenter)
        } else if is_name(b"cellsize", token) {
            Some(Word::Cellsize)
        } else if is_name(b"dx", token) {
            Some(Word::Dx)
        } else if is_name(b"dy", token) {
            Some(Word::Dy)
        } else if is_name(b"nodata_value", token) {
            Some(Word::NodataValue)
        } else {
            None
        }
    }
}
