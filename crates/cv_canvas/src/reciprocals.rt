//! A colour laid over pixels of any alpha, with no division but the first at each alpha.

ghost use Rattle.std.specs.Prelude.{◌≡◌, ◌<◌, ◌≤◌, ◌+◌, ◌-◌, ◌*◌, ◌/◌};
ghost use Rattle.cv_number.specs.Rounding.{rnd};
ghost use Rattle.cv_model.specs.Colours.{over, covered, channel_over};
ghost use Rattle.cv_canvas.specs.Reciprocals.{reciprocal};

use crate::mixing::by_255;
use cv_model::Rgba;
use std::marker::Model;

/// What a colour of one alpha is laid with over pixels of any alpha: what to multiply by in place of
/// dividing, found once for each alpha of a pixel. Takes no memory beyond itself.
#[derive(Drop)]
pub struct Reciprocals {
    alpha: u8,
    /// By the alpha of the pixel below; 0 where it is still to be found.
    found: [u64; 256],
}

// Clauses see the alpha.
impl Model for Reciprocals {
    ghost use Rattle.std.specs.Prelude.{ℕ};
    ghost use Rattle.cv_canvas.specs.Reciprocals.{AreFound};

    ghost Value = { ℕ };

    ghost view = { λ r. r.alpha };

    ghost invariant = { λ r. AreFound r.alpha r.found };
}

impl Reciprocals {
    /// Those for a colour of this alpha, none found yet.
    pub fn new(alpha: u8) -> Reciprocals
        ensures { result ≡ alpha }
    {
        Reciprocals {
            alpha,
            found: [0; 256],
        }
    }

    /// Makes them those for a colour of this alpha. What was found for another alpha goes; for the same it
    /// stays.
    pub fn set_alpha(&mut self, alpha: u8)
        ensures { self.new ≡ alpha }
    {
        if self.alpha != alpha {
            self.alpha = alpha;
            self.found = [0; 256];
        }
    }

    /// The reciprocal for a pixel of this alpha.
    fn for_backdrop(&mut self, backdrop: u8) -> u64
        ensures alpha { self.new ≡ self.old }
        ensures value { result ≡ reciprocal self.old backdrop }
    {
        let found = self.found[backdrop as usize];
        if found > 0 {
            return found;
        }
        let made = make(self.alpha, backdrop);
        self.found[backdrop as usize] = made;
        made
    }

    /// The colour `source`, which has their alpha, laid over the colour `backdrop`.
    pub fn over(&mut self, source: Rgba, backdrop: Rgba) -> Rgba
        requires { self.old ≡ source.a }
        ensures alpha { self.new ≡ self.old }
        ensures value { result ≡ over source backdrop }
    {
        let factor = self.for_backdrop(backdrop.a);
        Rgba {
            r: channel(source.a, source.r, backdrop.a, backdrop.r, factor),
            g: channel(source.a, source.g, backdrop.a, backdrop.g, factor),
            b: channel(source.a, source.b, backdrop.a, backdrop.b, factor),
            a: by_255(weight(source.a, backdrop.a)) as u8,
        }
    }
}

/// 255 times the alpha of a source over a backdrop.
fn weight(source: u8, backdrop: u8) -> u16
    ensures value { result ≡ covered source backdrop }
    ensures small { result ≤ 65025 }
{
    255 * u16::from(source) + u16::from(backdrop) * (255 - u16::from(source))
}

/// The reciprocal for a source of one alpha over a backdrop of another.
fn make(source: u8, backdrop: u8) -> u64
    ensures { result ≡ reciprocal source backdrop }
{
    let by = 2 * u64::from(weight(source, backdrop));
    if by == 0 { 1 } else { (1 << 48) / by + 1 }
}

/// Twice a channel `cs` of alpha `sa` and a channel `cb` of alpha `ba` below it, by what each weighs, with
/// half a divisor for rounding.
fn doubled(sa: u8, cs: u8, ba: u8, cb: u8) -> u32
    ensures value { result ≡ 2 * (255 * sa * cs + ba * (255 - sa) * cb) + covered sa ba }
    ensures small { result ≤ 511 * covered sa ba }
{
    let source = 255 * u32::from(sa) * u32::from(cs);
    let backdrop = u32::from(ba) * (255 - u32::from(sa)) * u32::from(cb);
    2 * (source + backdrop) + u32::from(weight(sa, ba))
}

/// A channel `cs` of alpha `sa` over a channel `cb` of alpha `ba`.
fn channel(sa: u8, cs: u8, ba: u8, cb: u8, factor: u64) -> u8
    requires { factor ≡ reciprocal sa ba }
    ensures { result ≡ channel_over sa cs ba cb }
{
    ((u64::from(doubled(sa, cs, ba, cb)) * factor) >> 48) as u8
}
