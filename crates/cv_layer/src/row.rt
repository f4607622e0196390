//! A feature, as a table holds it.

ghost use Rattle.std.specs.Prelude.{◌≡◌, ℕ, ◌<◌, [], length, slice_set, IfOk, option_and_then};
ghost use Rattle.std.specs.Option.{option_copied};
ghost use Rattle.cv_model.specs.Edits.{feature_vertices};
ghost use Rattle.cv_model.specs.Geometries.{counted};
ghost use Rattle.cv_layer.specs.Boxes.{box_of, feature_box};

use crate::boxes::box_of;
use crate::duplicate::{Duplicate, put_copies};
use cv_chunks::Shared;
use cv_model::{Extent, Feature, Geometry, NoMemory, Text, Values};
use std::alloc::{AllocError, Global};
use std::marker::Model;

/// A feature, seen as that feature. Its clones share its geometry and its values.
///
/// Its id and its box stand in the row itself, so that a pass over rows that asks for these alone touches
/// nothing else.
#[derive(Drop)]
pub struct FeatureRow {
    id: u32,
    bounds: Option<Extent>,
    geometry: Option<Shared<Geometry>>,
    values: Shared<Values>,
}

impl Model for FeatureRow {
    ghost use Rattle.std.specs.Prelude.{◌≡◌, option_and_then};
    ghost use Rattle.cv_model.specs.declared.feature.Feature.{Feature};
    ghost use Rattle.cv_layer.specs.Boxes.{box_of};

    ghost Value = { Feature };

    ghost view = { λ r. record { id = r.id; geometry = r.geometry; values = r.values } };

    ghost invariant = { λ r. r.bounds ≡ option_and_then box_of r.geometry };
}

/// A geometry that can be shared, if there is one.
fn shared_geometry(
    alloc: Global,
    geometry: Option<Geometry>,
) -> Result<Option<Shared<Geometry>>, NoMemory>
    ensures { IfOk result (λ made. made ≡ geometry) }
{
    match geometry {
        Some(geometry) => match Shared::of(alloc, geometry) {
            Ok(shared) => Ok(Some(shared)),
            Err(refused) => Err(refused.1),
        },
        None => Ok(None),
    }
}

/// The box of a geometry, if there is one.
fn bounds_of(geometry: &Option<Shared<Geometry>>) -> Option<Extent>
    ensures { result ≡ option_and_then box_of geometry.now }
{
    match geometry {
        Some(geometry) => box_of(geometry.value()),
        None => None,
    }
}

/// The geometry itself, held once more.
fn shared_clone(geometry: &Option<Shared<Geometry>>) -> Result<Option<Shared<Geometry>>, NoMemory>
    ensures { IfOk result (λ made. made ≡ geometry.now) }
{
    match geometry {
        Some(geometry) => Ok(Some(geometry.clone()?)),
        None => Ok(None),
    }
}

/// A count that is kept in 64 bits, where it was counted to its end.
fn exactly(count: u64) -> Result<u64, NoMemory>
    ensures { (n : ℕ) → count ≡ counted n → IfOk result (λ exact. exact ≡ n) }
{
    if count == u64::MAX {
        Err(AllocError)
    } else {
        Ok(count)
    }
}

/// Copies of these texts, with another one in a place.
fn with_text(alloc: Global, texts: &[Text], at: usize, value: &Text) -> Result<Values, NoMemory>
    requires { at < length texts.now }
    ensures { IfOk result (λ made. made ≡ slice_set texts.now at value.now) }
{
    let mut made = Values::with_room(alloc, texts.len() as u64)?;
    put_copies(alloc, &mut made, &texts[..at])?;
    made.put(value.duplicate(alloc)?)?;
    put_copies(alloc, &mut made, &texts[at + 1..])?;
    Ok(made)
}

/// Values that can be shared.
fn shared_values(alloc: Global, values: Values) -> Result<Shared<Values>, NoMemory>
    ensures { IfOk result (λ made. made ≡ values) }
{
    match Shared::of(alloc, values) {
        Ok(shared) => Ok(shared),
        Err(refused) => Err(refused.1),
    }
}

/// No values, which many rows may share.
pub fn no_values(alloc: Global) -> Result<Shared<Values>, NoMemory>
    ensures { IfOk result (λ made. made ≡ []) }
{
    shared_values(alloc, Values::new(alloc))
}

/// Values that can be shared; where there are none, those that are given.
fn values_or(
    alloc: Global,
    values: Values,
    none: &Shared<Values>,
) -> Result<Shared<Values>, NoMemory>
    requires { none.now ≡ [] }
    ensures { IfOk result (λ made. made ≡ values) }
{
    if values.len() == 0 {
        none.clone()
    } else {
        shared_values(alloc, values)
    }
}

impl FeatureRow {
    /// The row of a feature. A refusal drops it. Rows without values share `none`.
    pub fn of(
        alloc: Global,
        feature: Feature,
        none: &Shared<Values>,
    ) -> Result<FeatureRow, NoMemory>
        requires { none.now ≡ [] }
        ensures { IfOk result (λ made. made ≡ feature) }
    {
        let geometry = shared_geometry(alloc, feature.geometry)?;
        let values = values_or(alloc, feature.values, none)?;
        Ok(FeatureRow {
            id: feature.id,
            bounds: bounds_of(&geometry),
            geometry,
            values,
        })
    }

    /// The number that tells the feature from the others.
    pub fn id(&self) -> u32
        ensures { result ≡ self.now.id }
    {
        self.id
    }

    /// The least box that holds its vertices, in millionths of a map unit; none where it has none.
    pub fn bounds(&self) -> Option<Extent>
        ensures { result ≡ feature_box self.now }
    {
        self.bounds
    }

    /// Where it lies, if anywhere.
    pub fn geometry(&self) -> Option<&Geometry>
        ensures { option_copied result ≡ self.now.geometry }
    {
        match &self.geometry {
            Some(geometry) => Some(geometry.value()),
            None => None,
        }
    }

    /// Its attributes' texts, in the order of the columns.
    pub fn values(&self) -> &[Text]
        ensures { result.now ≡ self.now.values }
    {
        self.values.value().as_slice()
    }
}

impl FeatureRow {
    /// How many vertices its geometry has. A count that 64 bits don't hold is want of memory.
    pub fn vertices(&self) -> Result<u64, NoMemory>
        ensures { IfOk result (λ count. count ≡ feature_vertices self.now) }
    {
        match &self.geometry {
            Some(geometry) => exactly(geometry.value().vertices()),
            None => Ok(0),
        }
    }

    /// The feature with another geometry.
    pub fn with_geometry(
        &self,
        alloc: Global,
        geometry: Option<Geometry>,
    ) -> Result<FeatureRow, NoMemory>
        ensures { IfOk result (λ made. made ≡ record self.now { geometry = geometry }) }
    {
        let geometry = shared_geometry(alloc, geometry)?;
        Ok(FeatureRow {
            id: self.id,
            bounds: bounds_of(&geometry),
            geometry,
            values: self.values.clone()?,
        })
    }

    /// The feature with another text in a place of its values.
    pub fn with_value(&self, alloc: Global, at: usize, value: &Text) -> Result<FeatureRow, NoMemory>
        requires { at < length self.now.values }
        ensures { IfOk result
            (λ made. made ≡ record self.now { values = (slice_set self.now.values at value.now) }) }
    {
        let values = with_text(alloc, self.values(), at, value)?;
        let values = match Shared::of(alloc, values) {
            Ok(values) => values,
            Err(refused) => return Err(refused.1),
        };
        Ok(FeatureRow {
            id: self.id,
            bounds: self.bounds,
            geometry: shared_clone(&self.geometry)?,
            values,
        })
    }
}

impl Clone for FeatureRow {
    ghost is_clone = { λ source clone. clone ≡ source };

    fn clone(&self) -> Result<FeatureRow, NoMemory> {
        Ok(FeatureRow {
            id: self.id,
            bounds: self.bounds,
            geometry: shared_clone(&self.geometry)?,
            values: self.values.clone()?,
        })
    }
}
