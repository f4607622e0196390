//! What a text layer holds.

ghost use Rattle.std.specs.Prelude.{◌≡◌, ℕ, List, ◌+◌, ◌-◌, ◌<◌, ◌≤◌, ◌++◌, [], length, sum_by, IfOk, OnOk};
ghost use Rattle.std.specs.Prelude.{insert, remove, slice_set, slice_get, slice_index_or, Some, position};
ghost use Rattle.std.specs.Prelude.{false, take, drop};
ghost use Rattle.std.specs.List.{list_any};
ghost use Rattle.cv_model.specs.Edits.{feature_vertices, is_feature, change_feature, without_feature};
ghost use Rattle.cv_model.specs.Features.{IsFeatureTable, ids_of};
ghost use Rattle.cv_model.specs.declared.feature.Feature.{Feature};
ghost use Rattle.cv_layer.specs.Stretches.{Ascend, IsStretch, AreStretches};
ghost use Rattle.cv_layer.specs.Tables.{IsTable, feature_values};

use crate::row::{FeatureRow, no_values};
use crate::stretches::{Stretch, put, sum};
use cv_chunks::{Chunked, Growing, Shared};
use cv_model::{Feature, FeatureList, Geometry, NoMemory, Text, Values};
use std::alloc::Global;
use std::marker::Model;

/// The features of a text layer, seen as the names of its columns and the features in order.
///
/// It keeps that the features' ids differ and that each feature has as many values as there are columns. A
/// share of it has its features in common with it until one of them is changed.
#[derive(Drop)]
pub struct Table {
    alloc: Global,
    columns: Shared<Values>,
    rows: Chunked<FeatureRow>,
    stretches: Shared<Vec<Stretch>>,
    vertices: u64,
    values: u64,
}

impl Model for Table {
    ghost use Rattle.cv_layer.specs.Tables.{TableParts, IsTable};

    ghost Value = { TableParts };

    ghost view = { λ t. record { columns = t.columns; features = t.rows } };

    ghost invariant = { λ t. IsTable (record { columns = t.columns; features = t.rows })
        t.stretches.items t.vertices t.values };
}

/// Rows, the stretches of their ids, and the counts of their vertices and of their values.
#[derive(Drop)]
struct Counted {
    rows: Chunked<FeatureRow>,
    stretches: Vec<Stretch>,
    vertices: u64,
    values: u64,
}

/// The rows of these features, in order. The features are moved into them. Each is looked at while its row is
/// made, as its geometry is at hand then.
fn rows_of(alloc: Global, features: Vec<Feature>) -> Result<Counted, NoMemory>
    ensures rows { IfOk result (λ made. made.rows ≡ features.items) }
    ensures stretches { IfOk result (λ made. AreStretches made.stretches.items (ids_of features.items)) }
    ensures vertices { IfOk result (λ made. made.vertices ≡ sum_by feature_vertices features.items) }
    ensures values { IfOk result (λ made. made.values ≡ sum_by feature_values features.items) }
{
    let mut rows = Growing::new(alloc);
    let none = no_values(alloc)?;
    let mut stretches = Vec::new(alloc);
    let mut vertices: u64 = 0;
    let mut values: u64 = 0;
    for feature in features {
        let row = FeatureRow::of(alloc, feature, &none)?;
        put(&mut stretches, Stretch::of(row.id()), true)?;
        vertices = sum(vertices, row.vertices()?)?;
        values = sum(values, row.values().len() as u64)?;
        rows.put(row)?;
    }
    Ok(Counted {
        rows: rows.finish()?,
        stretches,
        vertices,
        values,
    })
}

/// The id of the feature at a place.
fn id_at(rows: &Chunked<FeatureRow>, at: u64) -> u32
    requires { at < length rows.now }
    ensures { (d : Feature) → result ≡ (slice_index_or rows.now at d).id }
{
    let Some(row) = rows.get(at) else {
        unreachable!()
    };
    row.id()
}

/// The place of the feature with an id among those from a place on to another, whose ids ascend. It is
/// counted from the first of these.
fn find_within(rows: &Chunked<FeatureRow>, start: u64, end: u64, id: u32) -> Option<u64>
    requires order { start ≤ end }
    requires within { end ≤ length rows.now }
    requires ascend { Ascend (take (end - start) (drop start (ids_of rows.now))) }
    ensures { result ≡ position (is_feature id) (take (end - start) (drop start rows.now)) }
{
    let count = end - start;
    let mut low = 0;
    let mut high = count;
    while low < high {
        let middle = low + (high - low) / 2;
        if id_at(rows, start + middle) < id {
            low = middle + 1;
        } else {
            high = middle;
        }
    }
    if low == count {
        return None;
    }
    if id_at(rows, start + low) == id {
        Some(low)
    } else {
        None
    }
}

/// The place of the feature with an id among those of a stretch, which starts at a place and ends at another.
/// It is counted from the first of these.
fn find_in(
    rows: &Chunked<FeatureRow>,
    stretch: &Stretch,
    start: u64,
    end: u64,
    id: u32,
) -> Option<u64>
    requires order { start ≤ end }
    requires within { end ≤ length rows.now }
    requires stretch { IsStretch stretch.now (take (end - start) (drop start (ids_of rows.now))) }
    ensures { result ≡ position (is_feature id) (take (end - start) (drop start rows.now)) }
{
    if stretch.spans(id) {
        find_within(rows, start, end, id)
    } else {
        None
    }
}

/// The stretches, at a place where a table shares them.
fn shared(alloc: Global, stretches: Vec<Stretch>) -> Result<Shared<Vec<Stretch>>, NoMemory>
    ensures { IfOk result (λ made. made ≡ stretches) }
{
    match Shared::of(alloc, stretches) {
        Ok(stretches) => Ok(stretches),
        Err(refused) => Err(refused.1),
    }
}

impl Table {
    /// The table of a list of features, which are moved into it.
    pub fn of(alloc: Global, list: FeatureList) -> Result<Table, NoMemory>
        ensures { IfOk result
            (λ made. made ≡ record { columns = list.columns; features = list.features }) }
    {
        let (columns, features, _) = list.into_parts();
        let columns = match Shared::of(alloc, columns) {
            Ok(columns) => columns,
            Err(refused) => return Err(refused.1),
        };
        let made = rows_of(alloc, features.into_vec())?;
        Ok(Table {
            alloc,
            columns,
            rows: made.rows,
            stretches: shared(alloc, made.stretches)?,
            vertices: made.vertices,
            values: made.values,
        })
    }

    /// The names of the columns, without the geometry's.
    pub fn columns(&self) -> &[Text]
        ensures { result.now ≡ self.now.columns }
    {
        self.columns.value().as_slice()
    }

    /// The features in order, a row each. `iter` and `run_from` lend them as slices that stand side by side.
    pub fn rows(&self) -> &Chunked<FeatureRow>
        ensures rows { result.now ≡ self.now.features }
        ensures kept { IsFeatureTable
            (record { columns = self.now.columns; features = self.now.features; notes = [] }) }
    {
        &self.rows
    }

    /// How many vertices all geometries have together.
    pub fn vertices(&self) -> u64
        ensures { result ≡ sum_by feature_vertices self.now.features }
    {
        self.vertices
    }

    /// How many values all features have together.
    pub fn values(&self) -> u64
        ensures { result ≡ sum_by feature_values self.now.features }
    {
        self.values
    }

    /// Another table with these columns and features, which has them in common with this one.
    pub fn share(&self) -> Result<Table, NoMemory>
        ensures { IfOk result (λ made. made ≡ self.now) }
    {
        Ok(Table {
            alloc: self.alloc,
            columns: self.columns.clone()?,
            rows: self.rows.share()?,
            stretches: self.stretches.clone()?,
            vertices: self.vertices,
            values: self.values,
        })
    }

    /// The place behind a stretch that starts at one.
    fn end_of(&self, start: u64, stretch: &Stretch) -> u64
        requires { start + stretch.now.count ≤ length self.now.features }
        ensures { result ≡ start + stretch.now.count }
    {
        // There are no more than that, so 64 bits hold the sum.
        let _ = self.rows.len();
        start + stretch.count
    }

    /// The place of the feature with an id. It is looked for by halves in each stretch of ascending ids whose
    /// bounds have it. A table that was read has one stretch; each feature that is put in out of order makes
    /// two more at most.
    pub fn find(&self, id: u32) -> Option<u64>
        ensures { result ≡ position (is_feature id) self.now.features }
    {
        let mut start = 0;
        for stretch in self.stretches.value().iter() {
            let end = self.end_of(start, stretch);
            match find_in(&self.rows, stretch, start, end, id) {
                Some(at) => return Some(start + at),
                None => start = end,
            }
        }
        None
    }

    /// A table of the same columns.
    fn with_rows(
        &self,
        rows: Chunked<FeatureRow>,
        stretches: Shared<Vec<Stretch>>,
        vertices: u64,
        values: u64,
    ) -> Result<Table, NoMemory>
        requires { IsTable (record { columns = self.now.columns; features = rows })
            stretches.items vertices values }
        ensures { IfOk result
            (λ made. made ≡ record { columns = self.now.columns; features = rows }) }
    {
        Ok(Table {
            alloc: self.alloc,
            columns: self.columns.clone()?,
            rows,
            stretches,
            vertices,
            values,
        })
    }

    /// The stretch of the features at places from one on to another, which are some of those of a stretch
    /// that starts at a place and ends at another.
    fn cut(&self, whole: &Stretch, start: u64, end: u64, from: u64, to: u64) -> Stretch
        requires whole { IsStretch whole.now (take whole.now.count (drop start (ids_of self.now.features))) }
        requires end { end ≡ start + whole.now.count }
        requires within { end ≤ length self.now.features }
        requires from { start ≤ from }
        requires some { from < to }
        requires to { to ≤ end }
        ensures { IsStretch result (take (to - from) (drop from (ids_of self.now.features))) }
    {
        let least = if from == start {
            whole.least
        } else {
            id_at(&self.rows, from)
        };
        let greatest = if to == end {
            whole.greatest
        } else {
            id_at(&self.rows, to - 1)
        };
        Stretch {
            count: to - from,
            least,
            greatest,
        }
    }

    /// Puts the stretches of the features at places from one on to another behind others. The first may be
    /// one that is to be joined with the last of these.
    fn put_range(
        &self,
        made: &mut Vec<Stretch>,
        from: u64,
        to: u64,
        joins: bool,
    ) -> Result<(), NoMemory>
        requires order { from ≤ to }
        requires within { to ≤ length self.now.features }
        ensures { OnOk result ((before : List ℕ) → AreStretches made.old.items before
            → AreStretches made.new.items
            (before ++ take (to - from) (drop from (ids_of self.now.features)))) }
    {
        let mut start = 0;
        let mut done = from;
        for stretch in self.stretches.value().iter() {
            let end = self.end_of(start, stretch);
            let until = end.min(to);
            if done < until {
                let piece = self.cut(stretch, start, end, done, until);
                put(made, piece, joins && done == from)?;
                done = until;
            }
            start = end;
        }
        Ok(())
    }

    /// Whether the feature at a place, if there is one, has a greater id.
    fn is_below(&self, at: u64, id: u32) -> bool {
        match self.rows.get(at) {
            Some(row) => id < row.id(),
            None => true,
        }
    }

    /// Whether an id is greater than that of the feature before a place, and less than that of the one
    /// there.
    fn fits(&self, at: u64, id: u32) -> bool {
        (at == 0 || !self.is_below(at - 1, id)) && self.is_below(at, id)
    }

    /// The stretches of the ids with one more, which stands at a place. It is a stretch of its own where it
    /// is out of order.
    fn stretches_with(&self, at: u64, id: u32) -> Result<Vec<Stretch>, NoMemory>
        requires { at ≤ length self.now.features }
        ensures { IfOk result
            (λ made. AreStretches made.items (insert (ids_of self.now.features) at id)) }
    {
        let fits = self.fits(at, id);
        let mut made = Vec::new(self.alloc);
        self.put_range(&mut made, 0, at, false)?;
        put(&mut made, Stretch::of(id), fits)?;
        self.put_range(&mut made, at, self.rows.len(), fits && at == 0)?;
        Ok(made)
    }

    /// The stretches of the ids without that at a place.
    fn stretches_without(&self, at: u64) -> Result<Vec<Stretch>, NoMemory>
        requires { at < length self.now.features }
        ensures { IfOk result
            (λ made. AreStretches made.items (remove (ids_of self.now.features) at)) }
    {
        let count = self.rows.len();
        let mut made = Vec::new(self.alloc);
        self.put_range(&mut made, 0, at, false)?;
        self.put_range(&mut made, at + 1, count, false)?;
        Ok(made)
    }

    /// The table with a feature more, which stands at a place and whose id is new.
    pub fn with_feature(&self, at: u64, feature: Feature) -> Result<Table, NoMemory>
        requires place { at ≤ length self.now.features }
        requires fresh { list_any (is_feature feature.id) self.now.features ≡ false }
        requires even { length feature.values ≡ length self.now.columns }
        ensures { IfOk result
            (λ made. made ≡ record self.now { features = (insert self.now.features at feature) }) }
    {
        let row = FeatureRow::of(self.alloc, feature, &no_values(self.alloc)?)?;
        let stretches = shared(self.alloc, self.stretches_with(at, row.id())?)?;
        let vertices = sum(self.vertices, row.vertices()?)?;
        let values = sum(self.values, row.values().len() as u64)?;
        let mut rows = self.rows.share()?;
        match rows.insert(at, row) {
            Ok(()) => self.with_rows(rows, stretches, vertices, values),
            Err(refused) => Err(refused.1),
        }
    }

    /// The table without the feature with an id, which stands at a place.
    pub fn without_feature(&self, id: u32, at: u64) -> Result<Table, NoMemory>
        requires { position (is_feature id) self.now.features ≡ Some at }
        ensures { IfOk result
            (λ made. made ≡ record self.now { features = (without_feature id self.now.features) }) }
    {
        let Some(row) = self.rows.get(at) else {
            unreachable!()
        };
        let vertices = self.vertices - row.vertices()?;
        let values = self.values - row.values().len() as u64;
        let mut rows = self.rows.share()?;
        rows.remove(at)?;
        let stretches = shared(self.alloc, self.stretches_without(at)?)?;
        self.with_rows(rows, stretches, vertices, values)
    }

    /// The table with another row, of the same id and as many values, at a place.
    fn with_row(&self, at: u64, row: FeatureRow) -> Result<Table, NoMemory>
        requires place { at < length self.now.features }
        requires alike { (old : Feature) → slice_get self.now.features at ≡ Some old
            → (old.id ≡ row.id) × (length old.values ≡ length row.values) }
        ensures { IfOk result
            (λ made. made ≡ record self.now { features = (slice_set self.now.features at row) }) }
    {
        let Some(old) = self.rows.get(at) else {
            unreachable!()
        };
        let vertices = sum(self.vertices - old.vertices()?, row.vertices()?)?;
        let stretches = self.stretches.clone()?;
        let mut rows = self.rows.share()?;
        match rows.set(at, row) {
            Ok(()) => self.with_rows(rows, stretches, vertices, self.values),
            Err(refused) => Err(refused.1),
        }
    }

    /// The table with another geometry, or none, of the feature with an id, which stands at a place.
    pub fn with_geometry(
        &self,
        id: u32,
        at: u64,
        geometry: Option<Geometry>,
    ) -> Result<Table, NoMemory>
        requires { position (is_feature id) self.now.features ≡ Some at }
        ensures { IfOk result (λ made. made ≡ record self.now {
          features = (change_feature id (λ feature. record feature { geometry = geometry })
              self.now.features);
        }) }
    {
        let Some(row) = self.rows.get(at) else {
            unreachable!()
        };
        self.with_row(at, row.with_geometry(self.alloc, geometry)?)
    }

    /// The table with another text in a column of the feature with an id, which stands at a place.
    pub fn with_value(
        &self,
        id: u32,
        at: u64,
        column: usize,
        value: &Text,
    ) -> Result<Table, NoMemory>
        requires feature { position (is_feature id) self.now.features ≡ Some at }
        requires column { column < length self.now.columns }
        ensures { IfOk result (λ made. made ≡ record self.now {
          features = (change_feature id
              (λ feature. record feature { values = (slice_set feature.values column value.now) })
              self.now.features);
        }) }
    {
        let Some(row) = self.rows.get(at) else {
            unreachable!()
        };
        self.with_row(at, row.with_value(self.alloc, column, value)?)
    }
}
