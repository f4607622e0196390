//! The points of lines and rings as most are written: two short decimals, a space between them and a comma
//! or `)` behind. Whatever else stands there is left to the way for all tokens.

ghost use Rattle.std.specs.Prelude.{◌≡◌, ◌≤◌, ◌<◌, ◌+◌, ◌-◌, ◌*◌, ◌^◌, true, false, length, drop, IfSome};
ghost use Rattle.cv_wkt.specs.Short.{AreDigits, IsSize, IsSpelt, StandsAt, IsPair, IsLast};

/// The digits of a whole part that are read at most.
const WHOLE: usize = 9;

/// The digits behind a point that are read at most.
const PLACES: usize = 6;

/// Digits at the front of a text: the number that they write behind another, and how many there are.
#[derive(Clone, Copy)]
struct Digits {
    number: u64,
    len: usize,
}

/// A decimal without a sign at the front of a text, and how many bytes it has.
#[derive(Clone, Copy)]
struct Size {
    millionths: u64,
    len: usize,
}

/// A coordinate at the front of a text, and how many bytes it has.
#[derive(Clone, Copy)]
pub struct Spelt {
    pub millionths: i64,
    pub len: usize,
}

/// A point at the front of a text, how many bytes it has with the comma behind it, and whether `)` stands
/// there in place of a comma.
#[derive(Clone, Copy)]
pub struct Pair {
    pub x: i64,
    pub y: i64,
    pub len: usize,
    pub is_last: bool,
}

/// The first digits of a text, at most so many, behind those of another number.
#[inline]
fn front_digits(text: &[u8], from: u64, most: usize) -> Digits
    requires from { from < 1000000000 }
    requires most { most ≤ 9 }
    ensures digits { AreDigits text.now from result.number result.len }
    ensures few { result.len ≤ most }
{
    let room = text.len().min(most);
    let mut number = from;
    for at in 0..room {
        if !text[at].is_ascii_digit() {
            return Digits { number, len: at };
        }
        number = 10 * number + u64::from(text[at] - b'0');
    }
    Digits { number, len: room }
}

/// How many millionths a unit of the last of so many places has.
#[inline]
fn unit(places: usize) -> u64
    requires { places ≤ 6 }
    ensures { result ≡ 10 ^ (6 - places) }
{
    match places {
        0 => 1_000_000,
        1 => 100_000,
        2 => 10_000,
        3 => 1_000,
        4 => 100,
        5 => 10,
        _ => 1,
    }
}

/// A number with so many places, in millionths.
#[inline]
fn raised(number: u64, places: usize) -> u64
    requires places { places ≤ 6 }
    requires small { number < 10 ^ (9 + places) }
    ensures value { result ≡ number * 10 ^ (6 - places) }
    ensures small { result ≤ 1000000000000000 }
{
    number * unit(places)
}

/// Whether a byte stands at an offset.
#[inline]
fn stands_at(text: &[u8], at: usize, byte: u8) -> bool
    ensures { result ≡ true → StandsAt text.now at byte }
{
    match text.get(at) {
        Some(found) => *found == byte,
        None => false,
    }
}

#[inline]
fn rest(text: &[u8], at: usize) -> &[u8]
    requires { at ≤ length text.now }
    ensures { result.now ≡ drop at text.now }
{
    text.split_at(at).1
}

/// The decimal at the front of a text, if it is digits, or digits, a point and digits or none.
#[inline]
fn unsigned(text: &[u8]) -> Option<Size>
    ensures { IfSome result (λ s. IsSize text.now s.millionths s.len) }
{
    let whole = front_digits(text, 0, WHOLE);
    if whole.len == 0 {
        return None;
    }
    if !stands_at(text, whole.len, b'.') {
        return Some(Size {
            millionths: raised(whole.number, 0),
            len: whole.len,
        });
    }
    let all = front_digits(rest(text, whole.len + 1), whole.number, PLACES);
    Some(Size {
        millionths: raised(all.number, all.len),
        len: whole.len + 1 + all.len,
    })
}

/// The same, perhaps behind a minus. It goes into its callers, so that its three parts stay in registers.
#[inline(always)]
pub fn coordinate(text: &[u8]) -> Option<Spelt>
    ensures { IfSome result (λ s. IsSpelt text.now s.millionths s.len) }
{
    match text.split_first() {
        Some((b'-', behind)) => {
            let size = unsigned(behind)?;
            Some(Spelt {
                millionths: -(size.millionths as i64),
                len: size.len + 1,
            })
        }
        _ => {
            let size = unsigned(text)?;
            Some(Spelt {
                millionths: size.millionths as i64,
                len: size.len,
            })
        }
    }
}

/// The point at the front of a text, if it is two such coordinates, a space between them and a comma or `)`
/// behind.
pub fn first_pair(text: &[u8]) -> Option<Pair>
    ensures pair { IfSome result (λ p. p.is_last ≡ false → IsPair text.now p.x p.y p.len) }
    ensures last { IfSome result (λ p. p.is_last ≡ true → IsLast text.now p.x p.y p.len) }
{
    let x = coordinate(text)?;
    if !stands_at(text, x.len, b' ') {
        return None;
    }
    let behind = rest(text, x.len + 1);
    let y = coordinate(behind)?;
    let len = x.len + 1 + y.len;
    if stands_at(behind, y.len, b',') {
        return Some(Pair {
            x: x.millionths,
            y: y.millionths,
            len: len + 1,
            is_last: false,
        });
    }
    stands_at(behind, y.len, b')').then_some(Pair {
        x: x.millionths,
        y: y.millionths,
        len,
        is_last: true,
    })
}
