//! Features with their attributes, and the list of them that a layer holds.

ghost use Rattle.std.specs.Prelude.{◌≡◌};

use crate::geometry::Geometry;
use crate::note::Note;
use crate::sequence::Sequence;
use crate::text::Text;
use std::marker::Model;

/// The texts of a feature's attributes, or the names of their columns, in the order of the columns.
pub type Values = Sequence<Text>;

/// A feature of a layer.
#[derive(Drop)]
pub struct Feature {
    /// The number that tells it from the layer's other features.
    pub id: u32,
    /// Where it lies; none where its cell was empty or was refused, or where an edit took it.
    pub geometry: Option<Geometry>,
    /// One text for each column of its layer.
    pub values: Values,
}

/// The features of a layer, seen as the names of its columns, the features in order, and the notes on
/// refused geometries.
///
/// It keeps that the features' ids differ, and that each feature has as many values as there are columns.
#[derive(Drop)]
pub struct FeatureList {
    columns: Values,
    features: Sequence<Feature>,
    notes: Sequence<Note>,
}

impl Model for FeatureList {
    ghost use Rattle.cv_model.specs.Features.{FeatureTable, IsFeatureTable};

    ghost Value = { FeatureTable };

    ghost view = { λ l. record { columns = l.columns; features = l.features; notes = l.notes } };

    ghost invariant = { λ l. IsFeatureTable
        (record { columns = l.columns; features = l.features; notes = l.notes }) };
}

impl FeatureList {
    ghost use Rattle.cv_model.specs.Features.{IsFeatureTable};

    /// The list of these parts.
    pub fn of(columns: Values, features: Sequence<Feature>, notes: Sequence<Note>) -> FeatureList
        requires { IsFeatureTable (record { columns = columns; features = features; notes = notes }) }
        ensures { result ≡ record { columns = columns; features = features; notes = notes } }
    {
        FeatureList {
            columns,
            features,
            notes,
        }
    }

    /// The names of the columns, without the geometry's.
    pub fn columns(&self) -> &[Text]
        ensures { result.now ≡ self.now.columns }
    {
        self.columns.as_slice()
    }

    /// The features in order.
    pub fn features(&self) -> &[Feature]
        ensures features { result.now ≡ self.now.features }
        ensures kept { IsFeatureTable self.now }
    {
        self.features.as_slice()
    }

    /// The notes, in the order of their records.
    pub fn notes(&self) -> &[Note]
        ensures { result.now ≡ self.now.notes }
    {
        self.notes.as_slice()
    }

    /// The columns, the features and the notes by themselves.
    pub fn into_parts(self) -> (Values, Sequence<Feature>, Sequence<Note>)
        ensures columns { result.0 ≡ self.columns }
        ensures features { result.1 ≡ self.features }
        ensures notes { result.2 ≡ self.notes }
        ensures kept { IsFeatureTable self }
    {
        let FeatureList {
            columns,
            features,
            notes,
        } = self;
        (columns, features, notes)
    }
}
