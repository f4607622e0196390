//! The header of a grid.

ghost use Rattle.std.specs.Prelude.{◌≡◌, ◌≤◌, length, drop, Ok, Err, IfOk, IfErr, IfSome};
ghost use Rattle.cv_reading.specs.Tokens.{cut};
ghost use Rattle.cv_grid.specs.Tokens.{byte_kind, tokens_of};
ghost use Rattle.cv_grid.specs.Ranges.{IsInRange};
ghost use Rattle.cv_grid.specs.Answers.{taken, header_from, at_start};

use crate::error::GridError;
use crate::settings::Settings;
use crate::token::{front, line, rest, token_len};
use crate::word::{Word, is_header_token};
use cv_model::MOST_BYTES;

/// What was said so far, and the word whose value is next.
#[derive(Clone, Copy)]
pub struct Reading {
    said: Settings,
    word: Option<Word>,
}

/// What a header said, and the offset behind it.
#[derive(Clone, Copy)]
pub struct Header {
    pub said: Settings,
    pub end: usize,
}

impl Reading {
    /// Before the first token.
    fn start() -> Reading
        ensures { result ≡ at_start }
    {
        Reading {
            said: Settings::none(),
            word: None,
        }
    }

    /// Takes the token at an offset; `None` where it belongs to the header no more.
    #[tactic(auto, unfolding(crate::specs::Answers::taken))]
    fn take(self, text: &[u8], at: usize, token: &[u8]) -> Result<Option<Reading>, GridError>
        requires at { at ≤ length text.now }
        requires short { length text.now ≤ MOST_BYTES }
        requires range { IsInRange self.said }
        ensures value { result ≡ taken text.now self (record { at = at; bytes = token.now }) }
        ensures range { IfOk result (λ o. IfSome o (λ r. IsInRange r.said)) }
    {
        match self.word {
            None => {
                if !is_header_token(token) {
                    return Ok(None);
                }
                match self.said.free_word(token) {
                    Some(word) => Ok(Some(Reading {
                        said: self.said,
                        word: Some(word),
                    })),
                    None => Err(GridError::BadWord(line(text, at))),
                }
            }
            Some(word) => match self.said.with_value(word, token) {
                Some(said) => Ok(Some(Reading { said, word: None })),
                None => Err(GridError::BadNumber(at as u64)),
            },
        }
    }
}

/// What the header of a text says, and where it ends; or its first refusal.
pub fn read_header(text: &[u8]) -> Result<Header, GridError>
    requires { length text.now ≤ MOST_BYTES }
    ensures ok { IfOk result (λ h. header_from text.now (tokens_of text.now) at_start
        ≡ Ok (h.said, cut byte_kind h.end (drop h.end text.now))) }
    ensures within { IfOk result (λ h. h.end ≤ length text.now) }
    ensures range { IfOk result (λ h. IsInRange h.said) }
    ensures err { IfErr result (λ e. header_from text.now (tokens_of text.now) at_start ≡ Err e) }
{
    let mut reading = Reading::start();
    let mut at = 0;
    while at < text.len() {
        let rest = rest(text, at);
        let len = token_len(rest);
        if len == 0 {
            at += 1;
        } else {
            let taken = match reading.take(text, at, front(rest, len)) {
                Ok(taken) => taken,
                Err(refusal) => return Err(refusal),
            };
            match taken {
                Some(further) => reading = further,
                None => {
                    return Ok(Header {
                        said: reading.said,
                        end: at,
                    });
                }
            }
            at += len;
        }
    }
    match reading.word {
        None => Ok(Header {
            said: reading.said,
            end: at,
        }),
        Some(_) => Err(GridError::BadNumber(at as u64)),
    }
}
