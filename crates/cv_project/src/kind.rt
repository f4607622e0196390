//! Kinds of values, and the plain ones: numbers, texts, words, colours.

ghost use Rattle.std.specs.Prelude.{◌≡◌, ◌≤◌, ◌≤ℤ◌, ◌&&◌, nat_le, ℕ, List, Result, IfOk, IfSome, length};
ghost use Rattle.cv_project.specs.declared.refusal.Refusal.{Refusal};
ghost use Rattle.cv_project.specs.Answers.{Answers};
ghost use Rattle.cv_project.specs.Kinds.{whole_of, whole_in, id_of, text_of, name_of, flag_of, word_in};
ghost use Rattle.cv_project.specs.Kinds.{decimal_in, rgb_spelled, rgba_spelled, background_of, colour_of};
ghost use Rattle.cv_project.specs.Nodes.{TreeNode};
ghost use Rattle.cv_project.specs.Seen.{seen};

use crate::node::Node;
use crate::ranges::{ID, MOST_NAME};
use crate::refusal::Refusal;
use crate::words::{Word, find_word};
use cv_decimal::Fixed;
use cv_model::{Rgb, Rgba, Text};
use std::marker::PhantomData;

/// A kind of value: what a node of it is read as, and what holds of all that is read so.
pub trait Kind {
    /// What is read.
    type Made: Drop;

    ghost made: { Self → TreeNode → Result Self.Made Refusal };

    ghost keeps: { Self → Self.Made → Type 0 };

    /// What a node says, or the first refusal.
    fn read(&self, node: &Node<'_>) -> Result<Self::Made, Refusal>
        ensures exact { Answers result (made self.now (seen node.now)) }
        ensures kept { IfOk result (keeps self.now) };
}

/// A whole number.
#[derive(Drop)]
pub struct AnyWhole;

impl Kind for AnyWhole {
    type Made = u64;

    ghost made = { λ _. whole_of };

    ghost keeps = { λ _ _. Unit {0} };

    #[tactic(auto, unfolding(crate::specs::Kinds::whole_of))]
    fn read(&self, node: &Node<'_>) -> Result<u64, Refusal> {
        match node.value().as_u64() {
            Some(number) => Ok(number),
            None => Err(node.wrong_kind()),
        }
    }
}

/// Whether a number is in a range.
pub fn is_between(least: u64, number: u64, most: u64) -> bool
    ensures { result ≡ (nat_le least number && nat_le number most) }
{
    least <= number && number <= most
}

/// A whole number in a range.
#[derive(Drop)]
pub struct Whole {
    /// The least that is allowed.
    pub least: u64,
    /// The greatest that is allowed.
    pub most: u64,
}

impl Kind for Whole {
    type Made = u64;

    ghost made = { λ k. whole_in k.least k.most };

    ghost keeps = { λ k n. (k.least ≤ n) × (n ≤ k.most) };

    #[tactic(auto, unfolding(crate::specs::Kinds::whole_in))]
    fn read(&self, node: &Node<'_>) -> Result<u64, Refusal> {
        let Some(number) = node.value().as_u64() else {
            return Err(node.wrong_kind());
        };
        if is_between(self.least, number, self.most) {
            Ok(number)
        } else {
            Err(node.limit())
        }
    }
}

/// The id of a layer.
#[derive(Drop)]
pub struct Id;

impl Kind for Id {
    type Made = u32;

    ghost made = { λ _. id_of };

    ghost keeps = { λ _ id. 1 ≤ id };

    fn read(&self, node: &Node<'_>) -> Result<u32, Refusal> {
        let id = ID.read(node)?;
        let id = id as u32;
        Ok(id)
    }
}

/// A string.
#[derive(Drop)]
pub struct AnyText;

impl Kind for AnyText {
    type Made = Text;

    ghost made = { λ _. text_of };

    ghost keeps = { λ _ _. Unit {0} };

    #[tactic(auto, unfolding(crate::specs::Kinds::text_of))]
    fn read(&self, node: &Node<'_>) -> Result<Text, Refusal> {
        let Some(text) = node.value().as_str() else {
            return Err(node.wrong_kind());
        };
        let copy = Text::of(node.alloc(), text)?;
        Ok(copy)
    }
}

/// A string of at most 256 bytes.
#[derive(Drop)]
pub struct Name;

impl Kind for Name {
    type Made = Text;

    ghost made = { λ _. name_of };

    ghost keeps = { λ _ name. length name ≤ 256 };

    #[tactic(auto, unfolding(crate::specs::Kinds::name_of))]
    fn read(&self, node: &Node<'_>) -> Result<Text, Refusal> {
        let Some(text) = node.value().as_str() else {
            return Err(node.wrong_kind());
        };
        if text.len() > MOST_NAME {
            return Err(node.limit());
        }
        let copy = Text::of(node.alloc(), text)?;
        Ok(copy)
    }
}

/// True or false.
#[derive(Drop)]
pub struct Flag;

impl Kind for Flag {
    type Made = bool;

    ghost made = { λ _. flag_of };

    ghost keeps = { λ _ _. Unit {0} };

    #[tactic(auto, unfolding(crate::specs::Kinds::flag_of))]
    fn read(&self, node: &Node<'_>) -> Result<bool, Refusal> {
        match node.value().as_bool() {
            Some(found) => Ok(found),
            None => Err(node.wrong_kind()),
        }
    }
}

/// A string that is one of the words of a type.
#[derive(Drop)]
pub struct OneOf<W>(PhantomData<W>);

impl<W: Word> OneOf<W> {
    /// The words of this type.
    pub const WORDS: OneOf<W> = OneOf(PhantomData);
}

impl<W: Word> Kind for OneOf<W> {
    type Made = W;

    ghost made = { λ _. word_in W.spelling W.all };

    ghost keeps = { λ _ _. Unit {0} };

    #[tactic(auto, unfolding(crate::specs::Kinds::word_in))]
    fn read(&self, node: &Node<'_>) -> Result<W, Refusal> {
        let Some(text) = node.value().as_str() else {
            return Err(node.wrong_kind());
        };
        match find_word(text) {
            Some(value) => Ok(value),
            None => Err(node.wrong_kind()),
        }
    }
}

/// A decimal in a range of millionths.
#[derive(Drop)]
pub struct Decimal {
    /// The least that is allowed.
    pub least: i64,
    /// The greatest that is allowed.
    pub most: i64,
}

impl Kind for Decimal {
    type Made = i64;

    ghost made = { λ k. decimal_in k.least k.most };

    ghost keeps = { λ k z. (k.least ≤ℤ z) × (z ≤ℤ k.most) };

    #[tactic(auto, unfolding(crate::specs::Kinds::decimal_in))]
    fn read(&self, node: &Node<'_>) -> Result<i64, Refusal> {
        let Some(text) = node.value().as_str() else {
            return Err(node.wrong_kind());
        };
        let Ok(value) = cv_decimal::read(text.as_bytes()) else {
            return Err(node.wrong_kind());
        };
        let Fixed::Value(number) = value else {
            return Err(node.limit());
        };
        if self.least <= number && number <= self.most {
            Ok(number)
        } else {
            Err(node.limit())
        }
    }
}

/// The colour of six hexadecimal digits.
fn rgb(text: &str) -> Option<Rgb>
    ensures { result ≡ rgb_spelled text.now }
{
    let mut bytes = [0; 3];
    hex::decode_to_slice(text, &mut bytes).ok()?;
    Some(Rgb {
        r: bytes[0],
        g: bytes[1],
        b: bytes[2],
    })
}

/// The colour of six hexadecimal digits, which is opaque, or of eight.
fn rgba(text: &str) -> Option<Rgba>
    ensures { result ≡ rgba_spelled text.now }
{
    if let Some(Rgb { r, g, b }) = rgb(text) {
        return Some(Rgba { r, g, b, a: 255 });
    }
    let mut bytes = [0; 4];
    hex::decode_to_slice(text, &mut bytes).ok()?;
    Some(Rgba {
        r: bytes[0],
        g: bytes[1],
        b: bytes[2],
        a: bytes[3],
    })
}

/// The colour of six hexadecimal digits.
#[derive(Drop)]
pub struct Background;

impl Kind for Background {
    type Made = Rgb;

    ghost made = { λ _. background_of };

    ghost keeps = { λ _ _. Unit {0} };

    #[tactic(auto, unfolding(crate::specs::Kinds::background_of))]
    fn read(&self, node: &Node<'_>) -> Result<Rgb, Refusal> {
        let Some(text) = node.value().as_str() else {
            return Err(node.wrong_kind());
        };
        match rgb(text) {
            Some(colour) => Ok(colour),
            None => Err(node.wrong_kind()),
        }
    }
}

/// The colour of six or eight hexadecimal digits.
#[derive(Drop)]
pub struct Colour;

impl Kind for Colour {
    type Made = Rgba;

    ghost made = { λ _. colour_of };

    ghost keeps = { λ _ _. Unit {0} };

    #[tactic(auto, unfolding(crate::specs::Kinds::colour_of))]
    fn read(&self, node: &Node<'_>) -> Result<Rgba, Refusal> {
        let Some(text) = node.value().as_str() else {
            return Err(node.wrong_kind());
        };
        match rgba(text) {
            Some(colour) => Ok(colour),
            None => Err(node.wrong_kind()),
        }
    }
}
