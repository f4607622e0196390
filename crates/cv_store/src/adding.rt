//! A layer put into a store.

ghost use Rattle.std.specs.Prelude.{◌≡◌, ◌||◌, true, IfOk, OnOk, OnErr, length, sum_by, nat_lt};
ghost use Rattle.std.specs.List.{list_any};
ghost use Rattle.cv_model.specs.declared.edit.Edit.TheVariants.{AddLayer};
ghost use Rattle.cv_model.specs.Edits.{fits, has_long_names, is_long, columns_of, feature_vertices};
ghost use Rattle.cv_model.specs.Geometries.{counted};
ghost use Rattle.cv_model.specs.Layers.{contents_of, layer_of_new};
ghost use Rattle.cv_layer.specs.Tables.{feature_values};
ghost use Rattle.cv_store.specs.Tallies.{data_tally};
ghost use Rattle.cv_store.specs.Answers.{Answers, IsEdited, verdict_in};
ghost use Rattle.cv_store.specs.Data.{Judges};
ghost use Rattle.cv_store.specs.Adding.{CanAdd, is_over_with};

use crate::copies::data_copy;
use crate::row::Row;
use crate::store::Store;
use crate::tally::{NONE, Tally, geometry_tally};
use cv_chunks::Shared;
use cv_layer::{Duplicate, Layer, NoMemory};
use cv_model::{EditError, Feature, LayerData, LayerFrame, NewLayer, Style, Text};
use std::alloc::Global;

/// Whether a style is one for a layer's data.
fn fits(style: &Style, given: &LayerData) -> bool
    ensures { result ≡ fits style.now (contents_of given.now) }
{
    match (style, given) {
        (Style::Ramp(_), LayerData::Grid(_)) => true,
        (Style::Ramp(_), LayerData::Text(_)) => false,
        (_, LayerData::Grid(_)) => false,
        (_, LayerData::Text(_)) => true,
    }
}

/// How many vertices these features have together, up to 2^64-1.
fn vertices_of(features: &[Feature]) -> u64
    ensures { result ≡ counted (sum_by feature_vertices features.now) }
{
    let mut count: u64 = 0;
    for feature in features {
        count = count.saturating_add(geometry_tally(feature.geometry.as_ref()).vertices);
    }
    count
}

/// How many values these features have together, up to 2^64-1.
fn values_of(features: &[Feature]) -> u64
    ensures { result ≡ counted (sum_by feature_values features.now) }
{
    let mut count: u64 = 0;
    for feature in features {
        count = count.saturating_add(feature.values.len());
    }
    count
}

/// A layer's data, counted; vertices and values up to 2^64-1.
fn data_tally(given: &LayerData) -> Tally
    ensures { result ≡ data_tally (contents_of given.now) }
{
    match given {
        LayerData::Text(list) => Tally {
            features: list.features().len() as u64,
            vertices: vertices_of(list.features()),
            values: values_of(list.features()),
            cells: 0,
        },
        LayerData::Grid(grid) => Tally {
            features: 0,
            vertices: 0,
            values: 0,
            cells: grid.cells().len(),
        },
    }
}

/// Whether a name has more than 256 bytes.
fn is_long(name: &Text) -> bool
    ensures { result ≡ is_long name.now }
{
    name.as_str().len() > 256
}

/// Whether one of these names has more than 256 bytes.
fn has_long(names: &[Text]) -> bool
    ensures { result ≡ list_any is_long names.now }
{
    names.iter().any(
        |name| -> bool
            ensures { result ≡ is_long name.now }
        { is_long(name) },
    )
}

/// Whether a name is too long, or there are too many columns, or one of too long a name.
fn has_long_names(name: &Text, columns: &[Text]) -> bool
    ensures { result ≡ has_long_names name.now columns.now }
{
    is_long(name) || (columns.len() > 256 || has_long(columns))
}

/// Whether a new layer's name is too long, or it has too many columns, or one of too long a name.
fn names_too_much(layer: &NewLayer) -> bool
    ensures { result ≡ has_long_names layer.now.name (columns_of (contents_of layer.now.contents)) }
{
    match &layer.contents {
        LayerData::Text(list) => has_long_names(&layer.name, list.columns()),
        LayerData::Grid(_) => is_long(&layer.name),
    }
}

/// A copy of a new layer, at a revision.
fn row_copy(alloc: Global, layer: &NewLayer, revision: u64) -> Result<Row, NoMemory>
    requires { fits layer.now.style (contents_of layer.now.contents) ≡ true }
    ensures { IfOk result
        (λ row. row ≡ record { layer = (layer_of_new layer.now); revision = revision }) }
{
    let frame = LayerFrame {
        id: layer.id,
        visible: layer.visible,
        opacity: layer.opacity,
        blend: layer.blend,
        scales: layer.scales,
    };
    let style = layer.style.duplicate(alloc)?;
    let join = layer.join.duplicate(alloc)?;
    let contents = data_copy(alloc, &layer.contents)?;
    let name = layer.name.duplicate(alloc)?;
    let made = Layer::of(alloc, layer.id, style, layer.mask, join, contents, revision)?;
    match Shared::of(alloc, made) {
        Ok(made) => Ok(Row::of(made, name, frame)),
        Err(refused) => Err(refused.1),
    }
}

impl Store {
    /// Whether a limit is passed with a new layer.
    fn is_over_with(&self, layer: &NewLayer) -> bool
        ensures { result ≡ is_over_with self.now layer.now }
    {
        let tally = data_tally(&layer.contents);
        self.room().is_passed(NONE, tally)
            || (self.layers().len() >= 32 || (tally.cells > 16_000_000 || names_too_much(layer)))
    }

    /// Whether a new layer can be put in, so that it stands at a place.
    fn may_add(&self, place: u32, layer: &NewLayer) -> Result<(), EditError>
        ensures answer { Judges result (verdict_in self.now (AddLayer place layer.now)) }
        ensures can { OnOk result (CanAdd self.now place layer.now) }
    {
        let layers = self.layers();
        if !fits(&layer.style, &layer.contents) {
            return Err(EditError::WrongKind);
        }
        if layers.find(layer.id).is_some() {
            return Err(EditError::DuplicateId);
        }
        if self.is_over_with(layer) {
            return Err(EditError::Limit);
        }
        if place as usize > layers.len() {
            return Err(EditError::BadPlace);
        }
        Ok(())
    }

    /// Puts a copy of a layer in, so that it stands at a place.
    pub fn add_layer(&mut self, place: u32, layer: &NewLayer) -> Result<u64, EditError>
        ensures answer { Answers self.old (AddLayer place layer.now) result }
        ensures ok { OnOk result (IsEdited self.old (AddLayer place layer.now) self.new) }
        ensures err { OnErr result (self.new ≡ self.old) }
    {
        match self.may_add(place, layer) {
            Ok(()) => {}
            Err(error) => return Err(error),
        }
        let row = match row_copy(self.alloc(), layer, self.next()) {
            Ok(row) => row,
            Err(_) => return Err(EditError::NoMemory),
        };
        match self.put_in(place as usize, row) {
            Ok(version) => Ok(version),
            Err(_) => Err(EditError::NoMemory),
        }
    }
}
