//! Layers.

ghost use Rattle.std.specs.Prelude.{◌≡◌, ◌==◌, false, OnOk};
ghost use Rattle.std.specs.List.{list_any};
ghost use Rattle.cv_model.specs.ProjectFiles.{is_grid_source};
ghost use Rattle.cv_project.specs.Answers.{Answers};
ghost use Rattle.cv_project.specs.Fields.{no_others};
ghost use Rattle.cv_project.specs.Layers.{new_id, versioned_scales, layer_names, layer_of, AreLayers};
ghost use Rattle.cv_project.specs.Layers.{AreLayers-none};
ghost use Rattle.cv_project.specs.Seen.{seen};

use crate::kind::{Flag, Id, Kind, Name, OneOf};
use crate::list::Member;
use crate::node::Node;
use crate::ranges::OPACITY;
use crate::refusal::Refusal;
use crate::source::{JoinOf, ScalesOf, SourceOf};
use crate::style::StyleOf;
use cv_model::{Blend, LayerFile, Scales, Source};

/// Whether one of these layers has an id.
fn is_taken(before: &[LayerFile], id: u32) -> bool
    ensures { result ≡ list_any (λ layer. id == layer.id) before.now }
{
    before.iter().any(|layer| id == layer.id)
}

/// Whether an id isn't one of an earlier layer.
#[tactic(auto, unfolding(crate::specs::Layers::new_id))]
fn new_id(before: &[LayerFile], id: u32) -> Result<(), Refusal>
    ensures exact { Answers result (new_id before.now id) }
    ensures held { OnOk result (list_any (λ layer. id == layer.id) before.now ≡ false) }
{
    if is_taken(before, id) {
        Err(Refusal::Duplicate(id))
    } else {
        Ok(())
    }
}

/// Whether a source is a grid.
fn is_grid(source: &Source) -> bool
    ensures { result ≡ is_grid_source source.now }
{
    match source {
        Source::Text { .. } => false,
        Source::Grid { .. } => true,
    }
}

/// The scales, which are a field from version 2 on.
#[tactic(auto, unfolding(crate::specs::Layers::versioned_scales))]
fn versioned_scales(node: &Node<'_>, version: u64) -> Result<Scales, Refusal>
    ensures { Answers result (versioned_scales version (seen node.now)) }
{
    let all = Scales {
        least: None,
        greatest: None,
    };
    if version == 1 {
        Ok(all)
    } else {
        node.with_default("scales", &ScalesOf, all)
    }
}

/// Whether a layer has no keys but the fields of the version.
fn only_fields(node: &Node<'_>, version: u64) -> Result<(), Refusal>
    ensures { Answers result (no_others (layer_names version) (seen node.now)) }
{
    if version == 1 {
        node.no_others(&[
            "blend", "id", "join", "mask", "name", "opacity", "source", "style", "visible",
        ])
    } else {
        node.no_others(&[
            "scales", "blend", "id", "join", "mask", "name", "opacity", "source", "style",
            "visible",
        ])
    }
}

/// A layer of a file of some version.
#[derive(Drop)]
pub struct LayerOf {
    /// 1 or 2.
    pub version: u64,
}

impl Member for LayerOf {
    type Made = LayerFile;

    ghost made = { λ k. layer_of k.version };

    ghost keeps = { λ _. AreLayers };

    #[tactic(auto, unfolding(crate::specs::Layers::layer_of))]
    fn read_behind(&self, before: &[LayerFile], node: &Node<'_>) -> Result<LayerFile, Refusal> {
        node.object()?;
        let id = node.required("id", &Id)?;
        new_id(before, id)?;
        let name = node.required("name", &Name)?;
        let source = node.required("source", &SourceOf)?;
        let visible = node.with_default("visible", &Flag, true)?;
        let opacity = node.with_default("opacity", &OPACITY, 255)?;
        let blend = node.with_default("blend", &OneOf::WORDS, Blend::Normal)?;
        let mask = node.optional("mask", &Id)?;
        let join = node.optional("join", &JoinOf)?;
        let grid = is_grid(&source);
        let style = node.required("style", &StyleOf { grid })?;
        let scales = versioned_scales(node, self.version)?;
        only_fields(node, self.version)?;
        let opacity = opacity as u8;
        Ok(LayerFile {
            id,
            name,
            source,
            visible,
            opacity,
            blend,
            mask,
            join,
            style,
            scales,
        })
    }

    ghost begins = { λ _. AreLayers-none };
}
