//! Source-over: what a colour laid over another looks like.

ghost use Rattle.std.specs.Prelude.{◌≡◌, ◌<◌};
ghost use Rattle.cv_number.specs.Rounding.{rnd};
ghost use Rattle.cv_model.specs.Colours.{over, covered, channel_over};

use cv_model::Rgba;

/// 255 times the alpha of a source over a backdrop, at most 65,025.
fn covered_by(source: u8, backdrop: u8) -> u32
    ensures value { result ≡ covered source backdrop }
    ensures small { result < 65026 }
{
    255 * u32::from(source) + u32::from(backdrop) * (255 - u32::from(source))
}

/// The alpha of a source over a backdrop.
fn alpha(source: u8, backdrop: u8) -> u8
    ensures { result ≡ rnd (covered source backdrop) 255 }
{
    ((2 * covered_by(source, backdrop) + 255) / 510) as u8
}

/// A channel `cs` of alpha `sa` over a channel `cb` of alpha `ba`.
fn channel(sa: u8, cs: u8, ba: u8, cb: u8) -> u8
    requires { 0 < covered sa ba }
    ensures { result ≡ channel_over sa cs ba cb }
{
    let weight = covered_by(sa, ba);
    let source = 255 * u32::from(sa) * u32::from(cs);
    let backdrop = u32::from(ba) * (255 - u32::from(sa)) * u32::from(cb);
    ((2 * (source + backdrop) + weight) / (2 * weight)) as u8
}

/// The colour `source` laid over the colour `backdrop`, both not premultiplied.
///
/// Where both are transparent, the channels of the answer are 0.
///
/// Source: W3C Compositing and Blending Level 1, source-over, in whole numbers; divisions round a half
/// upwards.
pub fn over(source: Rgba, backdrop: Rgba) -> Rgba
    ensures { result ≡ over source backdrop }
{
    if covered_by(source.a, backdrop.a) == 0 {
        return Rgba {
            r: 0,
            g: 0,
            b: 0,
            a: 0,
        };
    }
    Rgba {
        r: channel(source.a, source.r, backdrop.a, backdrop.r),
        g: channel(source.a, source.g, backdrop.a, backdrop.g),
        b: channel(source.a, source.b, backdrop.a, backdrop.b),
        a: alpha(source.a, backdrop.a),
    }
}
