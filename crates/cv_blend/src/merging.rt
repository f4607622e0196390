//! Merging a layer's colour onto the opaque picture below it.

ghost use Rattle.std.specs.Prelude.{◌≡◌, ◌+◌, ◌*◌, min};
ghost use Rattle.cv_number.specs.Rounding.{rnd};
ghost use Rattle.cv_model.specs.Blends.{merge, mixed, effective, channel_merged};

use crate::modes::{
    color_burn, color_dodge, difference, exclusion, hard_light, multiply, over_255, screen,
};
use cv_model::{Blend, Rgb, Rgba};

/// The alpha of a layer's colour under the layer's opacity, of which 255 leaves it as it is.
fn effective(alpha: u8, opacity: u8) -> u8
    ensures { result ≡ effective alpha opacity }
{
    over_255(u32::from(alpha) * u32::from(opacity))
}

/// A channel of effective alpha `alpha`, mixed with the backdrop's channel.
fn mixed(alpha: u8, backdrop: u8, channel: u8) -> u8
    ensures { result ≡ mixed alpha backdrop channel }
{
    let alpha = u32::from(alpha);
    over_255((255 - alpha) * u32::from(backdrop) + alpha * u32::from(channel))
}

/// A channel of effective alpha `alpha`, added to the backdrop's channel up to 255.
fn added(alpha: u8, backdrop: u8, channel: u8) -> u8
    ensures { result ≡ min 255 (backdrop + rnd (alpha * channel) 255) }
{
    backdrop.saturating_add(over_255(u32::from(alpha) * u32::from(channel)))
}

/// A channel of effective alpha `alpha`, merged onto a backdrop's channel `cb`.
fn channel(mode: Blend, alpha: u8, cb: u8, cs: u8) -> u8
    ensures { result ≡ channel_merged mode alpha cb cs }
{
    match mode {
        Blend::Normal => mixed(alpha, cb, cs),
        Blend::Multiply => mixed(alpha, cb, multiply(cb, cs)),
        Blend::Screen => mixed(alpha, cb, screen(cb, cs)),
        Blend::Overlay => mixed(alpha, cb, hard_light(cs, cb)),
        Blend::Darken => mixed(alpha, cb, cb.min(cs)),
        Blend::Lighten => mixed(alpha, cb, cb.max(cs)),
        Blend::ColorDodge => mixed(alpha, cb, color_dodge(cb, cs)),
        Blend::ColorBurn => mixed(alpha, cb, color_burn(cb, cs)),
        Blend::HardLight => mixed(alpha, cb, hard_light(cb, cs)),
        Blend::Difference => mixed(alpha, cb, difference(cb, cs)),
        Blend::Exclusion => mixed(alpha, cb, exclusion(cb, cs)),
        Blend::Addition => added(alpha, cb, cs),
    }
}

/// The colour `source` of a layer with this opacity and blend mode, merged onto the opaque colour `backdrop`.
///
/// Opacity is from 0 (nothing of the layer is seen) to 255 (the layer as painted).
///
/// Source: W3C Compositing and Blending Level 1, blending over an opaque backdrop, in whole numbers;
/// divisions round a half upwards.
pub fn merge(backdrop: Rgb, source: Rgba, opacity: u8, mode: Blend) -> Rgb
    ensures { result ≡ merge backdrop source opacity mode }
{
    let alpha = effective(source.a, opacity);
    Rgb {
        r: channel(mode, alpha, backdrop.r, source.r),
        g: channel(mode, alpha, backdrop.g, source.g),
        b: channel(mode, alpha, backdrop.b, source.b),
    }
}
