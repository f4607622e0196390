//! The loop over a text's tokens.

ghost use Rattle.std.specs.Prelude.{◌≡◌, ◌≢◌, ◌≤◌, length, take, drop, Ok, Err, IfOk, IfErr};
ghost use Rattle.std.specs.List.{prefix_len};
ghost use Rattle.cv_reading.specs.Tokens.{is_word};
ghost use Rattle.cv_wkt.specs.Kind.{byte_kind};
ghost use Rattle.cv_wkt.specs.Text.{front_len};
ghost use Rattle.cv_wkt.specs.Refusals.{geometry_of};

use crate::kind::{classify, is_sign};
use crate::reader::Reader;
use cv_model::{Geometry, WktError};
use cv_reading::is_space;
use std::alloc::Global;

fn is_word_byte(byte: u8) -> bool
    ensures { result ≡ is_word (byte_kind byte) }
{
    if is_space(byte) {
        return false;
    }
    !is_sign(byte)
}

#[tactic(auto, using(crate::proofs::ScanLemmas::word_within))]
fn word_len(text: &[u8]) -> usize
    ensures len { result ≡ prefix_len (λ b. is_word (byte_kind b)) text.now }
    ensures within { result ≤ length text.now }
{
    text.iter().take_while(|byte| is_word_byte(**byte)).count()
}

/// How many bytes the token at the front of a text has; 0 where white space stands there, or nothing.
fn token_len(text: &[u8]) -> usize
    ensures len { result ≡ front_len text.now }
    ensures within { result ≤ length text.now }
{
    match text.first() {
        None => 0,
        Some(byte) => {
            if is_space(*byte) {
                0
            } else if is_sign(*byte) {
                1
            } else {
                word_len(text)
            }
        }
    }
}

fn front(text: &[u8], len: usize) -> &[u8]
    requires { len ≤ length text.now }
    ensures { result.now ≡ take len text.now }
{
    text.split_at(len).0
}

fn rest(text: &[u8], at: usize) -> &[u8]
    requires { at ≤ length text.now }
    ensures { result.now ≡ drop at text.now }
{
    text.split_at(at).1
}

/// The geometry of a text, or its first refusal; or want of memory.
#[tactic(auto, unfolding(crate::specs::Refusals::geometry_of))]
pub fn scan(alloc: Global, text: &[u8]) -> Result<Geometry, WktError>
    ensures ok { IfOk result (λ g. geometry_of text.now ≡ Ok g) }
    ensures err { IfErr result (λ e. (e ≢ WktError.NoMemory) → geometry_of text.now ≡ Err e) }
{
    let mut reader = Reader::new(alloc);
    let mut at = 0;
    while at < text.len() {
        let next = match reader.take_points(alloc, text, at) {
            Ok(next) => next,
            Err(_) => return Err(WktError::NoMemory),
        };
        if next > at {
            at = next;
        } else {
            let rest = rest(text, at);
            let len = token_len(rest);
            if len == 0 {
                at += 1;
            } else {
                reader.take(alloc, classify(front(rest, len)), at as u64)?;
                at += len;
            }
        }
    }
    reader.finish(at as u64)
}
