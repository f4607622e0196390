//! Blended channels from a table, for the modes that divide.

ghost use Rattle.std.specs.Prelude.{◌≡◌, length, IfOk};
ghost use Rattle.cv_model.specs.declared.blend.Blend.{Blend};
ghost use Rattle.cv_model.specs.Blends.{channel_merged};
ghost use Rattle.cv_compose.specs.Planes.{blended_plane};

use cv_blend::merge;
use cv_model::{Blend, NoMemory, Rgb, Rgba};
use std::alloc::Global;
use std::marker::Model;

/// The channel `cs` of an opaque source, blended with the channel `cb` below it.
fn blended(mode: Blend, cb: u8, cs: u8) -> u8
    ensures { result ≡ channel_merged mode 255 cb cs }
{
    let backdrop = Rgb { r: cb, g: 0, b: 0 };
    let source = Rgba {
        r: cs,
        g: 0,
        b: 0,
        a: 255,
    };
    merge(backdrop, source, 255, mode).r
}

/// What blends the channels of opaque sources, seen as its mode.
pub(crate) trait Blender {
    ghost mode: { Self → Blend };

    /// The channel `cs` of an opaque source, blended with the channel `cb` below it.
    fn blended(&self, cb: u8, cs: u8) -> u8
        ensures { result ≡ channel_merged (mode self.now) 255 cb cs };
}

/// A mode by its formula.
#[derive(Drop)]
pub(crate) struct Formula {
    pub(crate) mode: Blend,
}

impl Blender for Formula {
    ghost mode = { λ f. f.mode };

    fn blended(&self, cb: u8, cs: u8) -> u8 {
        blended(self.mode, cb, cs)
    }
}

/// A mode by its 65,536 answers, seen as the mode.
#[derive(Drop)]
pub(crate) struct Table {
    mode: Blend,
    answers: Vec<u8>,
}

impl Model for Table {
    ghost use Rattle.cv_model.specs.declared.blend.Blend.{Blend};
    ghost use Rattle.cv_compose.specs.Planes.{IsTable};

    ghost Value = { Blend };

    ghost view = { λ t. t.mode };

    ghost invariant = { λ t. IsTable t.mode t.answers.items };
}

impl Table {
    /// The table of a mode.
    pub(crate) fn of(alloc: Global, mode: Blend) -> Result<Table, NoMemory>
        ensures { IfOk result (λ table. table ≡ mode) }
    {
        let mut answers = Vec::with_capacity(alloc, 65_536)?;
        for pair in 0..65_536u32 {
            answers.push(blended(mode, (pair / 256) as u8, (pair % 256) as u8))?;
        }
        Ok(Table { mode, answers })
    }

    /// Its mode.
    pub(crate) fn mode(&self) -> Blend
        ensures { result ≡ self.now }
    {
        self.mode
    }
}

impl Blender for Table {
    ghost mode = { λ mode. mode };

    fn blended(&self, cb: u8, cs: u8) -> u8 {
        self.answers[256 * usize::from(cb) + usize::from(cs)]
    }
}

/// Blends a source's channels, as if they were opaque, with the channels below.
#[tactic(auto, using(crate::proofs::PlaneLemmas::blended_plane_step))]
pub(crate) fn blend_plane<B: Blender>(blender: &B, source: &mut [u8], below: &[u8])
    requires { length below.now ≡ length source.now }
    ensures { source.new ≡ blended_plane (B.mode blender.now) below.now source.old }
{
    for (k, channel) in source.iter_mut().enumerate() {
        *channel = blender.blended(below[k], *channel);
    }
}
