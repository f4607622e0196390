//! The tokens of a text.

ghost use Rattle.std.specs.Prelude.{◌≡◌, ◌≤◌, ◌<◌, ◌^◌, length, take, drop};
ghost use Rattle.cv_reading.specs.Tokens.{is_word};
ghost use Rattle.cv_grid.specs.Tokens.{byte_kind, without_mark, line_at};
ghost use Rattle.cv_grid.specs.Scanning.{front_len};

use cv_model::MOST_BYTES;
use cv_reading::is_space;

/// The bytes behind a byte order mark, where one stands in front.
pub fn without_mark(bytes: &[u8]) -> &[u8]
    ensures { result.now ≡ without_mark bytes.now }
{
    if bytes.starts_with(b"\xef\xbb\xbf") {
        bytes.split_at(3).1
    } else {
        bytes
    }
}

fn is_word_byte(byte: u8) -> bool
    ensures { result ≡ is_word (byte_kind byte) }
{
    if is_space(byte) { false } else { true }
}

/// How many bytes the token at the front of a text has; 0 where white space stands there, or nothing.
pub fn token_len(text: &[u8]) -> usize
    ensures len { result ≡ front_len text.now }
    ensures within { result ≤ length text.now }
{
    text.iter().take_while(|byte| is_word_byte(**byte)).count()
}

/// The first bytes of a text.
#[inline]
pub fn front(text: &[u8], len: usize) -> &[u8]
    requires { len ≤ length text.now }
    ensures { result.now ≡ take len text.now }
{
    text.split_at(len).0
}

/// The bytes of a text from an offset on.
#[inline]
pub fn rest(text: &[u8], at: usize) -> &[u8]
    requires { at ≤ length text.now }
    ensures { result.now ≡ drop at text.now }
{
    text.split_at(at).1
}

/// The line of an offset, from 1.
pub fn line(text: &[u8], at: usize) -> u32
    requires at { at ≤ length text.now }
    requires short { length text.now ≤ MOST_BYTES }
    ensures { result ≡ line_at text.now at }
{
    let before = front(text, at)
        .iter()
        .filter(|byte| **byte == b'\n')
        .count();
    before as u32 + 1
}
