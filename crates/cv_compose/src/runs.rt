//! Runs of pixels: a layer's merged onto the colours below, plane by plane.

ghost use Rattle.std.specs.Prelude.{◌≡◌, ◌≤◌, ◌+◌, ◌-◌, length};
ghost use Rattle.cv_model.specs.Blends.{channel_merged};
ghost use Rattle.cv_compose.specs.Planes.{merged_plane, blended_plane, colours};
ghost use Rattle.cv_compose.specs.Runs.{merged_run, merged_slot, HasPixels};

use crate::frame::Slot;
use crate::modes::{
    Addition, Darken, Difference, Exclusion, HardLight, Lighten, Multiply, Normal, Overlay, Screen,
};
use crate::planes::{is_clear, merge_plane, take_plane, take_words, weigh};
use crate::tables::{Formula, Table, blend_plane};
use cv_chunks::Shared;
use cv_layer::PaintedLayer;
use cv_model::{Blend, Rgba};

/// The most pixels of a run, so that its planes stay near the processor.
pub(crate) const RUN: usize = 1024;

/// Blends a source's channels, as if they were opaque, with the channels below: by the mode's table, if there
/// is one.
fn blend_channels(mode: Blend, tables: &[Table], source: &mut [u8], below: &[u8])
    requires { length below.now ≡ length source.now }
    ensures { source.new ≡ blended_plane mode below.now source.old }
{
    match tables.iter().find(|table| table.mode() == mode) {
        Some(table) => blend_plane(table, source, below),
        None => blend_plane(&Formula { mode }, source, below),
    }
}

/// Merges a source's channels with their effective alphas onto the channels below. The source's room is used
/// up.
#[tactic(auto, using(crate::proofs::PlaneLemmas::divided_rules))]
fn merge_channels(mode: Blend, tables: &[Table], below: &mut [u8], source: &mut [u8], alphas: &[u8])
    requires sources { length source.now ≡ length below.now }
    requires alphas { length alphas.now ≡ length below.now }
    ensures { below.new ≡ merged_plane (channel_merged mode) below.old source.old alphas.now }
{
    match mode {
        Blend::Normal => merge_plane::<Normal>(below, source, alphas),
        Blend::Multiply => merge_plane::<Multiply>(below, source, alphas),
        Blend::Screen => merge_plane::<Screen>(below, source, alphas),
        Blend::Overlay => merge_plane::<Overlay>(below, source, alphas),
        Blend::Darken => merge_plane::<Darken>(below, source, alphas),
        Blend::Lighten => merge_plane::<Lighten>(below, source, alphas),
        Blend::HardLight => merge_plane::<HardLight>(below, source, alphas),
        Blend::Difference => merge_plane::<Difference>(below, source, alphas),
        Blend::Exclusion => merge_plane::<Exclusion>(below, source, alphas),
        Blend::Addition => merge_plane::<Addition>(below, source, alphas),
        Blend::ColorDodge => {
            blend_channels(Blend::ColorDodge, tables, source, below);
            merge_plane::<Normal>(below, source, alphas);
        }
        Blend::ColorBurn => {
            blend_channels(Blend::ColorBurn, tables, source, below);
            merge_plane::<Normal>(below, source, alphas);
        }
    }
}

/// Merges a layer's run of pixels onto colours, which are given by their planes.
pub(crate) fn merge_run(
    r: &mut [u8],
    g: &mut [u8],
    b: &mut [u8],
    pixels: &[Rgba],
    opacity: u8,
    mode: Blend,
    tables: &[Table],
)
    requires few { length pixels.now ≤ 1024 }
    requires red { length r.now ≡ length pixels.now }
    requires green { length g.now ≡ length pixels.now }
    requires blue { length b.now ≡ length pixels.now }
    ensures { colours r.new g.new b.new ≡ merged_run opacity mode
        (colours r.old g.old b.old) pixels.now }
{
    let (mut words, mut plane, mut alphas) = ([0; RUN], [0; RUN], [0; RUN]);
    let words = &mut words[..pixels.len()];
    let plane = &mut plane[..pixels.len()];
    let alphas = &mut alphas[..pixels.len()];
    take_words(words, pixels);
    take_plane::<16_777_216>(alphas, words);
    weigh(alphas, opacity);
    if is_clear(alphas) {
        return;
    }
    take_plane::<1>(plane, words);
    merge_channels(mode, tables, r, plane, alphas);
    take_plane::<256>(plane, words);
    merge_channels(mode, tables, g, plane, alphas);
    take_plane::<65_536>(plane, words);
    merge_channels(mode, tables, b, plane, alphas);
}

/// Merges the run of a slot's layer from `start` to `end`, if it is there, onto colours, which are given by
/// their planes.
pub(crate) fn merge_slot(
    r: &mut [u8],
    g: &mut [u8],
    b: &mut [u8],
    slot: Slot,
    layer: &Option<Shared<PaintedLayer>>,
    start: usize,
    end: usize,
    tables: &[Table],
)
    requires order { start ≤ end }
    requires few { end ≤ start + 1024 }
    requires pixels { HasPixels end layer.now }
    requires red { length r.now ≡ end - start }
    requires green { length g.now ≡ end - start }
    requires blue { length b.now ≡ end - start }
    ensures { colours r.new g.new b.new
        ≡ merged_slot start end (colours r.old g.old b.old) (slot, layer.now) }
{
    match layer {
        Some(painted) => {
            let pixels = painted.value().image().pixels().as_slice();
            merge_run(
                r,
                g,
                b,
                &pixels[start..end],
                slot.opacity,
                slot.blend,
                tables,
            );
        }
        None => {}
    }
}
