//! Sources, joins and scales.

ghost use Rattle.std.specs.Prelude.{◌≡◌, IfOk};
ghost use Rattle.cv_model.specs.ProjectFiles.{IsSource, IsJoin};
ghost use Rattle.cv_project.specs.Answers.{Answers};
ghost use Rattle.cv_project.specs.Seen.{seen};
ghost use Rattle.cv_project.specs.Sources.{text_source_of, grid_source_of, source_of, join_of, in_order};
ghost use Rattle.cv_project.specs.Sources.{scales_of};

use crate::kind::{Id, Kind, Name, OneOf};
use crate::node::Node;
use crate::ranges::SCALE;
use crate::refusal::Refusal;
use crate::words::SourceKind;
use cv_model::{Delimiter, Join, Scales, Source, Text};

/// A delimited text.
#[tactic(auto, unfolding(crate::specs::Sources::text_source_of))]
fn text_source(node: &Node<'_>) -> Result<Source, Refusal>
    ensures exact { Answers result (text_source_of (seen node.now)) }
    ensures kept { IfOk result IsSource }
{
    let file = node.required("file", &Name)?;
    let delimiter = node.with_default("delimiter", &OneOf::WORDS, Delimiter::Comma)?;
    let usual = Text::of(node.alloc(), "wkt")?;
    let geometry = node.with_default("geometry", &Name, usual)?;
    node.no_others(&["delimiter", "file", "geometry", "kind"])?;
    Ok(Source::Text {
        file,
        delimiter,
        geometry,
    })
}

/// An ASCII grid.
#[tactic(auto, unfolding(crate::specs::Sources::grid_source_of))]
fn grid_source(node: &Node<'_>) -> Result<Source, Refusal>
    ensures exact { Answers result (grid_source_of (seen node.now)) }
    ensures kept { IfOk result IsSource }
{
    let file = node.required("file", &Name)?;
    node.no_others(&["file", "kind"])?;
    Ok(Source::Grid { file })
}

/// A source.
#[derive(Drop)]
pub struct SourceOf;

impl Kind for SourceOf {
    type Made = Source;

    ghost made = { λ _. source_of };

    ghost keeps = { λ _. IsSource };

    #[tactic(auto, unfolding(crate::specs::Sources::source_of))]
    fn read(&self, node: &Node<'_>) -> Result<Source, Refusal> {
        node.object()?;
        let kind = node.required("kind", &OneOf::WORDS)?;
        match kind {
            SourceKind::Text => text_source(node),
            SourceKind::Grid => grid_source(node),
        }
    }
}

/// A join.
#[derive(Drop)]
pub struct JoinOf;

impl Kind for JoinOf {
    type Made = Join;

    ghost made = { λ _. join_of };

    ghost keeps = { λ _. IsJoin };

    #[tactic(auto, unfolding(crate::specs::Sources::join_of))]
    fn read(&self, node: &Node<'_>) -> Result<Join, Refusal> {
        node.object()?;
        let layer = node.required("layer", &Id)?;
        let local = node.required("local", &Name)?;
        let key = node.required("key", &Name)?;
        node.no_others(&["key", "layer", "local"])?;
        Ok(Join { layer, local, key })
    }
}

/// Whether the least isn't above the greatest, where both are there.
fn in_order(least: Option<i64>, greatest: Option<i64>) -> bool
    ensures { result ≡ in_order least greatest }
{
    match (least, greatest) {
        (Some(least), Some(greatest)) => least <= greatest,
        _ => true,
    }
}

/// The scales at which a layer is painted.
#[derive(Drop)]
pub struct ScalesOf;

impl Kind for ScalesOf {
    type Made = Scales;

    ghost made = { λ _. scales_of };

    ghost keeps = { λ _ _. Unit {0} };

    #[tactic(auto, unfolding(crate::specs::Sources::scales_of))]
    fn read(&self, node: &Node<'_>) -> Result<Scales, Refusal> {
        node.object()?;
        let least = node.optional("least", &SCALE)?;
        let greatest = node.optional("greatest", &SCALE)?;
        node.tested(in_order(least, greatest), "greatest")?;
        node.no_others(&["greatest", "least"])?;
        Ok(Scales { least, greatest })
    }
}
