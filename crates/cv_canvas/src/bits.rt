//! Bits, kept in words of 64.

ghost use Rattle.std.specs.Prelude.{◌≡◌, ◌<◌, ◌≤◌, ◌+◌, ◌*◌, ◌-◌, ◌/◌, ◌%◌, ◌^◌, ◌==◌, ◌&&◌};
ghost use Rattle.std.specs.Prelude.{ℕ, nat_le, nat_lt, if◌then◌else◌, true, false, IfOk};
ghost use Rattle.std.specs.Prelude.{length, get_or, set, map};
ghost use Rattle.std.specs.Int.Bits.{bit_or};
ghost use Rattle.cv_canvas.specs.Bits.{is_bit};

use cv_model::NoMemory;
use std::alloc::Global;
use std::marker::Model;

/// Bits, each set or not, in places from 0 on. The bit in place `k` is bit `k % 64` of word `k / 64`.
#[derive(Drop)]
pub struct Bits {
    count: usize,
    /// One word more than the bits fill, so that each place at which a range may end lies in one.
    words: Vec<u64>,
}

impl Model for Bits {
    ghost use Rattle.std.specs.Prelude.{Bool, List, ◌<◌, ◌*◌, length};
    ghost use Rattle.cv_canvas.specs.Bits.{bits_in};

    ghost Value = { List Bool };

    ghost view = { λ b. bits_in b.count b.words.items };

    ghost invariant = { λ b. b.count < 64 * length b.words.items };
}

impl Bits {
    /// So many bits, none of them set. The one error is want of memory.
    pub fn new(alloc: Global, count: usize) -> Result<Bits, NoMemory>
        ensures length { IfOk result (λ made. length made ≡ count) }
        ensures clear { IfOk result (λ made. (k : ℕ) → get_or made k false ≡ false) }
    {
        let words = vec![in alloc; 0; count / 64 + 1]?;
        Ok(Bits { count, words })
    }

    /// Sets the bits from a place up to and without another one; the others stay. Takes no memory.
    pub fn set(&mut self, from: usize, end: usize)
        requires order { from ≤ end }
        requires within { end ≤ length self.old }
        ensures length { length self.new ≡ length self.old }
        ensures set { (k : ℕ) → get_or self.new k false
            ≡ (if nat_le from k && nat_lt k end then true else get_or self.old k false) }
    {
        set_bits(&mut self.words, from, end);
    }

    /// Whether the bit in a place is set.
    pub fn is_set(&self, place: usize) -> bool
        requires { place < length self.now }
        ensures { result ≡ get_or self.now place false }
    {
        (self.words[place / 64] >> (place % 64)) & 1 == 1
    }
}

/// Sets the bits from a place up to another one. The words at both ends are written always, so that nothing
/// is chosen by whether they are the same, as short ranges would have it now so and now otherwise.
fn set_bits(words: &mut [u64], from: usize, end: usize)
    requires order { from ≤ end }
    requires within { end < 64 * length words.old }
    ensures length { length words.new ≡ length words.old }
    ensures set { (k : ℕ) → is_bit words.new k
        ≡ (if nat_le from k && nat_lt k end then true else is_bit words.old k) }
{
    let (first, last) = (from / 64, end / 64);
    set_in(words, first, first_ones(from, end));
    if first + 1 < last {
        set_all(&mut words[first + 1..last]);
    }
    set_in(words, last, last_ones(from, end));
}

/// Sets the bits of a word that are set in another.
fn set_in(words: &mut [u64], at: usize, ones: u64)
    requires { at < length words.old }
    ensures { words.new ≡ set words.old at (bit_or (get_or words.old at 0) ones) }
{
    words[at] |= ones;
}

/// Sets all bits of these words.
fn set_all(words: &mut [u64])
    ensures { words.new ≡ map (λ _. 2 ^ 64 - 1) words.old }
{
    words.fill(u64::MAX);
}

/// The bits that a range has in its first word.
fn first_ones(from: usize, end: usize) -> u64
    requires { from ≤ end }
    ensures { result ≡ 2 ^ (if from / 64 == end / 64 then end % 64 else 64) - 2 ^ (from % 64) }
{
    let top: u64 = if from / 64 == end / 64 {
        1 << (end % 64)
    } else {
        0
    };
    top.wrapping_sub(1 << (from % 64))
}

/// The bits that a range has in the word in which it ends, where that isn't its first.
fn last_ones(from: usize, end: usize) -> u64
    ensures { result ≡ 2 ^ (end % 64) - 2 ^ (if from / 64 == end / 64 then end % 64 else 0) }
{
    let high: u64 = 1 << (end % 64);
    let bottom = if from / 64 == end / 64 { high } else { 1 };
    high - bottom
}
