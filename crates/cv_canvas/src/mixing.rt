//! A colour laid over many pixels, by cases of them all: as fast as what lies there allows.

ghost use Rattle.std.specs.Prelude.{◌≡◌, ◌≤◌, if◌then◌else◌, nat_eq, map};
ghost use Rattle.std.specs.List.{list_all};
ghost use Rattle.cv_number.specs.Rounding.{rnd};
ghost use Rattle.cv_model.specs.Colours.{over};
ghost use Rattle.cv_canvas.specs.Mixing.{byte_over, on_opaque, has_alpha};

use crate::reciprocals::Reciprocals;
use cv_model::Rgba;

/// Lays a colour over each of these pixels, in place. Channels and alpha go from 0 to 255, and aren't
/// premultiplied. Takes no memory.
///
/// Source: W3C Compositing and Blending Level 1, source-over, in whole numbers; divisions round to the
/// nearest, a half upwards.
pub fn lay_on(pixels: &mut [Rgba], colour: Rgba)
    ensures { pixels.new ≡ map (over colour) pixels.old }
{
    if !lay_evenly(pixels, colour) {
        mix(pixels, colour, &mut Reciprocals::new(colour.a));
    }
}

/// Lays a colour over each of these pixels, with reciprocals that are kept from one call to the next. Those
/// found for the colour's alpha are used; where they were for another, they become those for the colour's.
/// Takes no memory.
pub fn lay_with(pixels: &mut [Rgba], colour: Rgba, reciprocals: &mut Reciprocals)
    ensures { pixels.new ≡ map (over colour) pixels.old }
{
    if !lay_evenly(pixels, colour) {
        reciprocals.set_alpha(colour.a);
        mix(pixels, colour, reciprocals);
    }
}

/// Lays a colour over each of these pixels, where it is opaque, or all of them are clear, or all opaque.
/// Whether it did; else all are as they were.
#[tactic(auto, using(crate::proofs::MixingLemmas::lay_rules))]
fn lay_evenly(pixels: &mut [Rgba], colour: Rgba) -> bool
    ensures { pixels.new ≡ (if result then map (over colour) pixels.old else pixels.old) }
{
    if colour.a == 255 {
        pixels.fill(colour);
        true
    } else if colour.a > 0 && all_have(pixels, 0) {
        pixels.fill(colour);
        true
    } else if all_have(pixels, 255) {
        mix_opaque(pixels, colour);
        true
    } else {
        false
    }
}

/// Whether all pixels have this alpha. It reads them all, so that many are read at a time.
fn all_have(pixels: &[Rgba], alpha: u8) -> bool
    ensures { result ≡ list_all (has_alpha alpha) pixels.now }
{
    let mut have = true;
    for pixel in pixels {
        have &= pixel.a == alpha;
    }
    have
}

/// Lays a colour over pixels of any alpha, with the reciprocals for its own.
fn mix(pixels: &mut [Rgba], colour: Rgba, reciprocals: &mut Reciprocals)
    requires { reciprocals.old ≡ colour.a }
    ensures { pixels.new ≡ map (over colour) pixels.old }
{
    for pixel in pixels.iter_mut() {
        *pixel = reciprocals.over(colour, *pixel);
    }
}

/// Lays a colour over pixels as if they were opaque: all four channels alike, in 16 bits.
fn mix_opaque(pixels: &mut [Rgba], colour: Rgba)
    ensures { pixels.new ≡ map (on_opaque colour) pixels.old }
{
    for pixel in pixels.iter_mut() {
        *pixel = on_opaque(colour, *pixel);
    }
}

/// A colour over an opaque one.
fn on_opaque(source: Rgba, backdrop: Rgba) -> Rgba
    ensures { result ≡ on_opaque source backdrop }
{
    Rgba {
        r: byte_over(source.a, source.r, backdrop.r),
        g: byte_over(source.a, source.g, backdrop.g),
        b: byte_over(source.a, source.b, backdrop.b),
        a: byte_over(source.a, 255, 255),
    }
}

/// A channel of a colour of alpha `alpha` over that of an opaque one.
fn byte_over(alpha: u8, source: u8, backdrop: u8) -> u8
    ensures { result ≡ byte_over alpha source backdrop }
{
    let alpha = u16::from(alpha);
    by_255(alpha * u16::from(source) + (255 - alpha) * u16::from(backdrop)) as u8
}

/// A number divided by 255, to the nearest; no quotient ends on a half, since 255 is odd.
pub fn by_255(n: u16) -> u16
    requires { n ≤ 65025 }
    ensures value { result ≡ rnd n 255 }
    ensures small { result ≤ 255 }
{
    let n = n + 128;
    (n + (n >> 8)) >> 8
}
