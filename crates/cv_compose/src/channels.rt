//! Channels in sixteen bits, so that one instruction merges eight of them.
//!
//! Source: the formulas of W3C Compositing and Blending Level 1, with channels from 0 to 255; divisions
//! round to the nearest, a half upwards.

ghost use Rattle.std.specs.Prelude.{◌≡◌, ◌+◌, ◌-◌, ◌*◌, ◌≤◌, min, max};
ghost use Rattle.cv_number.specs.Rounding.{rnd};
ghost use Rattle.cv_model.specs.Blends.{multiply, screen, hard_light, difference, exclusion, mixed};

/// `n / 255` to the nearest whole number, for products of channels.
pub(crate) fn over_255(n: u16) -> u8
    requires { n ≤ 65025 }
    ensures { result ≡ rnd n 255 }
{
    let near = n + 128;
    ((near + (near >> 8)) >> 8) as u8
}

/// A channel of effective alpha `alpha`, mixed with the channel `cb` below it.
pub(crate) fn mixed(alpha: u8, cb: u8, channel: u8) -> u8
    ensures { result ≡ mixed alpha cb channel }
{
    let alpha = u16::from(alpha);
    over_255((255 - alpha) * u16::from(cb) + alpha * u16::from(channel))
}

/// A channel of effective alpha `alpha`, added to the channel `cb` below it, up to 255.
pub(crate) fn added(alpha: u8, cb: u8, channel: u8) -> u8
    ensures { result ≡ min 255 (cb + rnd (alpha * channel) 255) }
{
    cb.saturating_add(over_255(u16::from(alpha) * u16::from(channel)))
}

/// `multiply`: the product.
pub(crate) fn multiply(cb: u8, cs: u8) -> u8
    ensures { result ≡ multiply cb cs }
{
    over_255(u16::from(cb) * u16::from(cs))
}

/// `screen`: the complement of the product of the complements.
pub(crate) fn screen(cb: u8, cs: u8) -> u8
    ensures { result ≡ screen cb cs }
{
    over_255(screened(cb, cs))
}

/// 255 times what `screen` gives before it is rounded.
fn screened(cb: u8, cs: u8) -> u16
    ensures value { result ≡ 255 * (cb + cs) - cb * cs }
    ensures most { result ≤ 65025 }
{
    255 * u16::from(cb) + (255 - u16::from(cb)) * u16::from(cs)
}

/// `hard-light`: `multiply` or `screen`, by the source.
pub(crate) fn hard_light(cb: u8, cs: u8) -> u8
    ensures { result ≡ hard_light cb cs }
{
    if cs < 128 {
        multiply(cb, 2 * cs)
    } else {
        screen(cb, 2 * (cs - 128) + 1)
    }
}

/// `difference`: the greater channel less the lesser.
pub(crate) fn difference(cb: u8, cs: u8) -> u8
    ensures { result ≡ difference cb cs }
{
    cb.max(cs) - cb.min(cs)
}

/// `exclusion`: the sum less twice the product.
pub(crate) fn exclusion(cb: u8, cs: u8) -> u8
    ensures { result ≡ exclusion cb cs }
{
    over_255(excluded(cb, cs))
}

/// 255 times what `exclusion` gives before it is rounded.
fn excluded(cb: u8, cs: u8) -> u16
    ensures value { result ≡ 255 * (cb + cs) - 2 * (cb * cs) }
    ensures most { result ≤ 65025 }
{
    let (cb, cs) = (u16::from(cb), u16::from(cs));
    cb * (255 - cs) + cs * (255 - cb)
}
