//! The cells of one to three digits, thirty-two bytes at a time.

ghost use Rattle.std.specs.Prelude.{◌≡◌, ◌≤◌, ◌<◌, ◌+◌, ◌-◌, length, IfSome};
ghost use Rattle.cv_grid.specs.Scanning.{IsDigit, AreJoined, IsShort};

use std::simd::prelude::*;

/// Where spaces stand among the next thirty-two bytes: a bit for each byte, the lowest for the first. No more
/// than a guess where the next tokens end, which spares a search: each is tested.
#[inline]
pub fn guessed_ends(text: &[u8], at: usize) -> u64
    requires { at + 32 ≤ length text.now }
{
    u8x32::from_slice(&text[at..])
        .simd_eq(u8x32::splat(b' '))
        .to_bitmask()
}

/// The number of a digit; of another byte one above 9.
#[inline]
fn digit(byte: u8) -> u32
    ensures { result ≤ 9 → IsDigit byte result }
{
    u32::from(byte.wrapping_sub(b'0'))
}

/// The number that the last one, two or three of three digits write.
#[inline]
fn joined(size: usize, hundreds: u32, tens: u32, ones: u32) -> Option<u32>
    ensures { IfSome result (AreJoined size hundreds tens ones) }
{
    let tens = if size >= 2 { tens } else { 0 };
    let hundreds = if size >= 3 { hundreds } else { 0 };
    if ones > 9 || tens > 9 || hundreds > 9 {
        return None;
    }
    Some(ones + 10 * tens + 100 * hundreds)
}

/// The number of one to three digits from an offset up to a space; `None` where they aren't.
#[inline]
pub fn short_number(text: &[u8], at: usize, end: usize) -> Option<u32>
    requires at { 2 ≤ at }
    requires end { end < length text.now }
    ensures { IfSome result (IsShort text.now at end) }
{
    if end <= at {
        return None;
    }
    if end - at > 3 || text[end] != b' ' {
        return None;
    }
    let hundreds = digit(text[end - 3]);
    let tens = digit(text[end - 2]);
    let ones = digit(text[end - 1]);
    joined(end - at, hundreds, tens, ones)
}
