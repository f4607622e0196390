//! Blend functions: a channel of the backdrop and one of the source to one channel.
//!
//! Source: the formulas of W3C Compositing and Blending Level 1, with channels from 0 to 255; divisions
//! round to the nearest, a half upwards.

ghost use Rattle.std.specs.Prelude.{◌≡◌, ◌+◌, ◌-◌, ◌*◌, ◌≤◌, min, max};
ghost use Rattle.cv_number.specs.Rounding.{rnd};
ghost use Rattle.cv_model.specs.Blends.{multiply, screen, hard_light, color_dodge, color_burn, difference};
ghost use Rattle.cv_model.specs.Blends.{exclusion};

/// `n / 255` to the nearest whole number, for products of channels.
pub(crate) fn over_255(n: u32) -> u8
    requires { n ≤ 65025 }
    ensures { result ≡ rnd n 255 }
{
    ((2 * n + 255) / 510) as u8
}

/// `multiply`: the product.
pub(crate) fn multiply(cb: u8, cs: u8) -> u8
    ensures { result ≡ multiply cb cs }
{
    over_255(u32::from(cb) * u32::from(cs))
}

/// `screen`: the complement of the product of the complements.
pub(crate) fn screen(cb: u8, cs: u8) -> u8
    ensures { result ≡ screen cb cs }
{
    over_255(screened(cb, cs))
}

/// 255 times what `screen` gives before it is rounded.
fn screened(cb: u8, cs: u8) -> u32
    ensures value { result ≡ 255 * (cb + cs) - cb * cs }
    ensures most { result ≤ 65025 }
{
    255 * u32::from(cb) + (255 - u32::from(cb)) * u32::from(cs)
}

/// `hard-light`: `multiply` or `screen`, by the source.
pub(crate) fn hard_light(cb: u8, cs: u8) -> u8
    ensures { result ≡ hard_light cb cs }
{
    if cs < 128 {
        multiply(cb, 2 * cs)
    } else {
        screen(cb, (2 * u32::from(cs) - 255) as u8)
    }
}

/// `color-dodge`: the backdrop over the complement of the source.
pub(crate) fn color_dodge(cb: u8, cs: u8) -> u8
    ensures { result ≡ color_dodge cb cs }
{
    if cb == 0 {
        0
    } else if cs == 255 {
        255
    } else {
        capped_quotient(cb, 255 - cs)
    }
}

/// `color-burn`: the complement of `color-dodge` of the complements.
pub(crate) fn color_burn(cb: u8, cs: u8) -> u8
    ensures { result ≡ color_burn cb cs }
{
    if cb == 255 {
        255
    } else if cs == 0 {
        0
    } else {
        255 - capped_quotient(255 - cb, cs)
    }
}

/// A channel over another one as a part of 255, up to 255.
fn capped_quotient(channel: u8, part: u8) -> u8
    requires { 1 ≤ part }
    ensures { result ≡ min 255 (rnd (255 * channel) part) }
{
    let part = u32::from(part);
    ((2 * (255 * u32::from(channel)) + part) / (2 * part)).min(255) as u8
}

/// `difference`: the greater channel less the lesser.
pub(crate) fn difference(cb: u8, cs: u8) -> u8
    ensures { result ≡ difference cb cs }
{
    cb.max(cs) - cb.min(cs)
}

/// `exclusion`: the sum less twice the product.
pub(crate) fn exclusion(cb: u8, cs: u8) -> u8
    ensures { result ≡ exclusion cb cs }
{
    over_255(excluded(cb, cs))
}

/// 255 times what `exclusion` gives before it is rounded.
fn excluded(cb: u8, cs: u8) -> u32
    ensures value { result ≡ 255 * (cb + cs) - 2 * (cb * cs) }
    ensures most { result ≤ 65025 }
{
    let (cb, cs) = (u32::from(cb), u32::from(cs));
    cb * (255 - cs) + cs * (255 - cb)
}
