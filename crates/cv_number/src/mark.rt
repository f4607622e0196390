//! The marks that a decimal consists of.
ghost use Rattle.std.specs.Prelude.{◌≡◌, ◌-◌, IfSome, is_some};
ghost use Rattle.cv_number.specs.Mark.{is_digit, mark_of};

/// What a byte stands for in a decimal. Letters are read in any case.
#[derive(Clone, Copy)]
pub enum Mark {
    Digit(u8),
    Point,
    Plus,
    Minus,
    LetterE,
    LetterN,
    LetterA,
    Other,
}

impl Mark {
    /// The mark that a byte stands for; `Other` where it stands in no decimal.
    pub fn of(byte: u8) -> Mark
        ensures { result ≡ mark_of byte }
    {
        if let Some(digit) = Mark::digit(byte) {
            return Mark::Digit(digit);
        }
        match byte {
            b'.' => Mark::Point,
            b'+' => Mark::Plus,
            b'-' => Mark::Minus,
            b'e' | b'E' => Mark::LetterE,
            b'n' | b'N' => Mark::LetterN,
            b'a' | b'A' => Mark::LetterA,
            _ => Mark::Other,
        }
    }

    /// The digit that a byte stands for, where it is one.
    #[inline]
    pub fn digit(byte: u8) -> Option<u8>
        ensures digit { is_some result ≡ is_digit byte }
        ensures value { IfSome result (λ d. d ≡ byte - 48) }
    {
        if byte.is_ascii_digit() {
            Some(byte - b'0')
        } else {
            None
        }
    }
}
