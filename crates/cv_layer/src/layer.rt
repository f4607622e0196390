//! A layer at a version of the store.

ghost use Rattle.std.specs.Prelude.{◌≡◌, true, IfOk};
ghost use Rattle.std.specs.Option.{option_copied};
ghost use Rattle.cv_model.specs.Edits.{fits};
ghost use Rattle.cv_model.specs.Layers.{contents_of};
ghost use Rattle.cv_layer.specs.Layers.{contents_seen, IsFitting};

use crate::cells::Cells;
use crate::table::Table;
use cv_chunks::Shared;
use cv_model::{Join, LayerData, NoMemory, Style};
use std::alloc::Global;
use std::marker::Model;

/// What a layer holds.
#[derive(Drop)]
pub enum LayerContents {
    /// Features with their attributes: a text layer.
    Text(Table),
    /// A grid.
    Grid(Cells),
}

/// A layer, seen as its core and its revision, the version of the store at which it was added or last
/// changed.
///
/// It keeps that its style is one for what it holds: a ramp for a grid, another style for a text layer.
#[derive(Drop)]
pub struct Layer {
    id: u32,
    mask: Option<u32>,
    join: Option<Shared<Join>>,
    style: Shared<Style>,
    contents: LayerContents,
    revision: u64,
}

/// A layer that several versions of a store and several inputs may hold.
pub type SharedLayer = Shared<Layer>;

impl Model for Layer {
    ghost use Rattle.cv_layer.specs.Layers.{RevisedCore, contents_seen, IsFitting};

    ghost Value = { RevisedCore };

    ghost view = { λ l. record {
      core = record {
        id = l.id;
        mask = l.mask;
        join = l.join;
        style = l.style;
        contents = contents_seen l.contents;
      };
      revision = l.revision;
    } };

    ghost invariant = { λ l. IsFitting (record {
      id = l.id;
      mask = l.mask;
      join = l.join;
      style = l.style;
      contents = contents_seen l.contents;
    }) };
}

impl LayerContents {
    /// What a reader's answer holds. Geometries, values and cells are moved into it.
    fn of(alloc: Global, given: LayerData) -> Result<LayerContents, NoMemory>
        ensures { IfOk result (λ made. contents_seen made ≡ contents_of given) }
    {
        match given {
            LayerData::Text(list) => Ok(LayerContents::Text(Table::of(alloc, list)?)),
            LayerData::Grid(grid) => Ok(LayerContents::Grid(Cells::of(grid)?)),
        }
    }

    /// The same contents, held in common with these.
    fn share(&self) -> Result<LayerContents, NoMemory>
        ensures { IfOk result (λ made. contents_seen made ≡ contents_seen self.now) }
    {
        match self {
            LayerContents::Text(table) => Ok(LayerContents::Text(table.share()?)),
            LayerContents::Grid(cells) => Ok(LayerContents::Grid(cells.share()?)),
        }
    }
}

/// A value that can be shared.
fn shared<T: Drop>(alloc: Global, value: T) -> Result<Shared<T>, NoMemory>
    ensures { IfOk result (λ made. made ≡ value) }
{
    match Shared::of(alloc, value) {
        Ok(shared) => Ok(shared),
        Err(refused) => Err(refused.1),
    }
}

/// A join that can be shared, if there is one.
fn join_of(alloc: Global, join: Option<Join>) -> Result<Option<Shared<Join>>, NoMemory>
    ensures { IfOk result (λ made. made ≡ join) }
{
    match join {
        Some(join) => Ok(Some(shared(alloc, join)?)),
        None => Ok(None),
    }
}

/// The join itself, held once more.
fn shared_join(join: &Option<Shared<Join>>) -> Result<Option<Shared<Join>>, NoMemory>
    ensures { IfOk result (λ made. made ≡ join.now) }
{
    match join {
        Some(join) => Ok(Some(join.clone()?)),
        None => Ok(None),
    }
}

impl Layer {
    /// The layer of these parts. What it holds is moved into it.
    pub fn of(
        alloc: Global,
        id: u32,
        style: Style,
        mask: Option<u32>,
        join: Option<Join>,
        contents: LayerData,
        revision: u64,
    ) -> Result<Layer, NoMemory>
        requires { IsFitting (record {
          id = id;
          mask = mask;
          join = join;
          style = style;
          contents = contents_of contents;
        }) }
        ensures { IfOk result (λ made. made ≡ record {
          core = record {
            id = id;
            mask = mask;
            join = join;
            style = style;
            contents = contents_of contents;
          };
          revision = revision;
        }) }
    {
        Ok(Layer {
            id,
            mask,
            join: join_of(alloc, join)?,
            style: shared(alloc, style)?,
            contents: LayerContents::of(alloc, contents)?,
            revision,
        })
    }

    /// The number that tells it from the project's other layers.
    pub fn id(&self) -> u32
        ensures { result ≡ self.now.core.id }
    {
        self.id
    }

    /// The layer in whose polygons it is painted, if one is named.
    pub fn mask(&self) -> Option<u32>
        ensures { result ≡ self.now.core.mask }
    {
        self.mask
    }

    /// Where its style takes joined texts from, if it takes any.
    pub fn join(&self) -> Option<&Join>
        ensures { option_copied result ≡ self.now.core.join }
    {
        match &self.join {
            Some(join) => Some(join.value()),
            None => None,
        }
    }

    /// How it is drawn.
    pub fn style(&self) -> &Style
        ensures { result.now ≡ self.now.core.style }
    {
        self.style.value()
    }

    /// What it holds.
    pub fn contents(&self) -> &LayerContents
        ensures contents { contents_seen result.now ≡ self.now.core.contents }
        ensures kept { IsFitting self.now.core }
    {
        &self.contents
    }

    /// The version of the store at which it was added or last changed.
    pub fn revision(&self) -> u64
        ensures { result ≡ self.now.revision }
    {
        self.revision
    }

    /// A layer with another style, at a revision.
    pub fn with_style(&self, alloc: Global, style: Style, revision: u64) -> Result<Layer, NoMemory>
        requires { fits style self.now.core.contents ≡ true }
        ensures { IfOk result (λ made. made ≡
            record { core = record self.now.core { style = style }; revision = revision }) }
    {
        Ok(Layer {
            id: self.id,
            mask: self.mask,
            join: shared_join(&self.join)?,
            style: shared(alloc, style)?,
            contents: self.contents.share()?,
            revision,
        })
    }

    /// A layer with another mask layer, or none, at a revision.
    pub fn with_mask(&self, mask: Option<u32>, revision: u64) -> Result<Layer, NoMemory>
        ensures { IfOk result (λ made. made ≡
            record { core = record self.now.core { mask = mask }; revision = revision }) }
    {
        Ok(Layer {
            id: self.id,
            mask,
            join: shared_join(&self.join)?,
            style: self.style.clone()?,
            contents: self.contents.share()?,
            revision,
        })
    }

    /// A layer with another join, or none, at a revision.
    pub fn with_join(
        &self,
        alloc: Global,
        join: Option<Join>,
        revision: u64,
    ) -> Result<Layer, NoMemory>
        ensures { IfOk result (λ made. made ≡
            record { core = record self.now.core { join = join }; revision = revision }) }
    {
        Ok(Layer {
            id: self.id,
            mask: self.mask,
            join: join_of(alloc, join)?,
            style: self.style.clone()?,
            contents: self.contents.share()?,
            revision,
        })
    }

    /// A layer with other contents, at a revision.
    pub fn with_contents(&self, contents: LayerContents, revision: u64) -> Result<Layer, NoMemory>
        requires { fits self.now.core.style (contents_seen contents) ≡ true }
        ensures { IfOk result (λ made. made ≡
            record {
              core = record self.now.core { contents = (contents_seen contents) };
              revision = revision;
            }) }
    {
        Ok(Layer {
            id: self.id,
            mask: self.mask,
            join: shared_join(&self.join)?,
            style: self.style.clone()?,
            contents,
            revision,
        })
    }
}
