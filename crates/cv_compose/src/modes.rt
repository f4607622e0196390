//! The blend modes whose channels are computed one by one, a type for each.

ghost use Rattle.std.specs.Prelude.{◌≡◌};
ghost use Rattle.cv_model.specs.declared.blend.Blend.{Blend};
ghost use Rattle.cv_model.specs.declared.blend.Blend.TheVariants as blends;
ghost use Rattle.cv_model.specs.Blends.{channel_merged};

use crate::channels::{added, difference, exclusion, hard_light, mixed, multiply, screen};

/// A blend mode.
pub(crate) trait Mode {
    ghost mode: { Blend };

    /// A source's channel `cs` of effective alpha `alpha`, merged onto the channel `cb` below it.
    fn merged(alpha: u8, cb: u8, cs: u8) -> u8
        ensures { result ≡ channel_merged mode alpha cb cs };
}

pub(crate) struct Normal;

impl Mode for Normal {
    ghost mode = { blends.Normal };

    fn merged(alpha: u8, cb: u8, cs: u8) -> u8 {
        mixed(alpha, cb, cs)
    }
}

pub(crate) struct Multiply;

impl Mode for Multiply {
    ghost mode = { blends.Multiply };

    fn merged(alpha: u8, cb: u8, cs: u8) -> u8 {
        mixed(alpha, cb, multiply(cb, cs))
    }
}

pub(crate) struct Screen;

impl Mode for Screen {
    ghost mode = { blends.Screen };

    fn merged(alpha: u8, cb: u8, cs: u8) -> u8 {
        mixed(alpha, cb, screen(cb, cs))
    }
}

pub(crate) struct Overlay;

impl Mode for Overlay {
    ghost mode = { blends.Overlay };

    fn merged(alpha: u8, cb: u8, cs: u8) -> u8 {
        mixed(alpha, cb, hard_light(cs, cb))
    }
}

pub(crate) struct Darken;

impl Mode for Darken {
    ghost mode = { blends.Darken };

    fn merged(alpha: u8, cb: u8, cs: u8) -> u8 {
        mixed(alpha, cb, cb.min(cs))
    }
}

pub(crate) struct Lighten;

impl Mode for Lighten {
    ghost mode = { blends.Lighten };

    fn merged(alpha: u8, cb: u8, cs: u8) -> u8 {
        mixed(alpha, cb, cb.max(cs))
    }
}

pub(crate) struct HardLight;

impl Mode for HardLight {
    ghost mode = { blends.HardLight };

    fn merged(alpha: u8, cb: u8, cs: u8) -> u8 {
        mixed(alpha, cb, hard_light(cb, cs))
    }
}

pub(crate) struct Difference;

impl Mode for Difference {
    ghost mode = { blends.Difference };

    fn merged(alpha: u8, cb: u8, cs: u8) -> u8 {
        mixed(alpha, cb, difference(cb, cs))
    }
}

pub(crate) struct Exclusion;

impl Mode for Exclusion {
    ghost mode = { blends.Exclusion };

    fn merged(alpha: u8, cb: u8, cs: u8) -> u8 {
        mixed(alpha, cb, exclusion(cb, cs))
    }
}

pub(crate) struct Addition;

impl Mode for Addition {
    ghost mode = { blends.Addition };

    fn merged(alpha: u8, cb: u8, cs: u8) -> u8 {
        added(alpha, cb, cs)
    }
}
