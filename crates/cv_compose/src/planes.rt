//! Planes: the channels of one kind of a run of pixels, a byte each.

ghost use Rattle.std.specs.Prelude.{◌≡◌, ◌*◌, ◌/◌, ◌%◌, ◌<◌, ◌==◌, ℕ, length, map, IsTrue};
ghost use Rattle.std.specs.List.{list_all};
ghost use Rattle.cv_model.specs.declared.colour.Rgba.{Rgba};
ghost use Rattle.cv_model.specs.Blends.{channel_merged, effective};
ghost use Rattle.cv_compose.specs.Planes.{merged_plane, byte_at, red, green, blue, alpha};

use crate::channels::over_255;
use crate::modes::Mode;
use cv_model::Rgba;

/// A pixel as one word: red in its lowest byte, then green, blue and alpha.
fn word_of(pixel: Rgba) -> u32
    ensures red { result / 1 % 256 ≡ pixel.r }
    ensures green { result / 256 % 256 ≡ pixel.g }
    ensures blue { result / 65536 % 256 ≡ pixel.b }
    ensures alpha { result / 16777216 % 256 ≡ pixel.a }
{
    u32::from(pixel.r)
        + 256 * u32::from(pixel.g)
        + 65_536 * u32::from(pixel.b)
        + 16_777_216 * u32::from(pixel.a)
}

/// Takes pixels as words, so that their planes are cut out by shifts.
pub(crate) fn take_words(words: &mut [u32], pixels: &[Rgba])
    requires { length pixels.now ≡ length words.now }
    ensures red { map (byte_at 1) words.new ≡ map red pixels.now }
    ensures green { map (byte_at 256) words.new ≡ map green pixels.now }
    ensures blue { map (byte_at 65536) words.new ≡ map blue pixels.now }
    ensures alpha { map (byte_at 16777216) words.new ≡ map alpha pixels.now }
{
    for (k, word) in words.iter_mut().enumerate() {
        *word = word_of(pixels[k]);
    }
}

/// The bytes that stand `WORTH` in their words, as a plane.
pub(crate) fn take_plane<const WORTH: u32>(plane: &mut [u8], words: &[u32])
    requires worth { 0 < WORTH }
    requires length { length words.now ≡ length plane.now }
    ensures { plane.new ≡ map (byte_at WORTH) words.now }
{
    for (k, channel) in plane.iter_mut().enumerate() {
        *channel = (words[k] / WORTH % 256) as u8;
    }
}

/// Weighs alphas by a layer's opacity.
pub(crate) fn weigh(alphas: &mut [u8], opacity: u8)
    ensures { alphas.new ≡ map (λ a. effective a opacity) alphas.old }
{
    for alpha in alphas.iter_mut() {
        *alpha = over_255(u16::from(*alpha) * u16::from(opacity));
    }
}

/// Tells whether nothing of a run is seen.
pub(crate) fn is_clear(alphas: &[u8]) -> bool
    ensures { result ≡ list_all (λ a. a == 0) alphas.now }
{
    let mut clear = true;
    for alpha in alphas {
        clear &= *alpha == 0;
    }
    clear
}

/// Merges a source's channels with their effective alphas onto the channels below.
#[tactic(auto, using(crate::proofs::PlaneLemmas::merged_plane_step))]
pub(crate) fn merge_plane<M: Mode>(below: &mut [u8], source: &[u8], alpha: &[u8])
    requires sources { length source.now ≡ length below.now }
    requires alphas { length alpha.now ≡ length below.now }
    ensures { below.new ≡ merged_plane (channel_merged M.mode) below.old source.now alpha.now }
{
    for (k, channel) in below.iter_mut().enumerate() {
        *channel = M::merged(alpha[k], *channel, source[k]);
    }
}
