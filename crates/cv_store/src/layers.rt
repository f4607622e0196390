//! The layers of a store by their ids, in their order.

ghost use Rattle.std.specs.Prelude.{◌≡◌, ◌≤◌, ◌<◌, [], Some, None, OnOk, OnErr, set, remove, insert, length};
ghost use Rattle.std.specs.Prelude.{position, slice_get, map, false, nat_eq};
ghost use Rattle.std.specs.List.{list_any, IsDistinct};
ghost use Rattle.cv_store.specs.Stores.{RevisedLayer, layer_of, id_of, has_id, with_core, with_frame};
ghost use Rattle.cv_store.specs.Tallies.{totals_of, tally_of};

use crate::row::Row;
use crate::tally::{Tally, tally_of};
use cv_layer::{NoMemory, SharedLayer};
use cv_model::LayerFrame;
use indexmap::IndexMap;
use std::alloc::{AllocError, Global};
use std::marker::Model;

/// The layers of a store, seen as the list of them, top first. It keeps that their ids differ, and counts
/// what they hold.
#[derive(Drop)]
pub struct LayerMap {
    rows: IndexMap<u32, Row>,
    sums: Tally,
}

impl Model for LayerMap {
    ghost use Rattle.std.specs.Prelude.{List};
    ghost use Rattle.cv_store.specs.Stores.{RevisedLayer};
    ghost use Rattle.cv_store.specs.Maps.{rows_of, IsLayerMap};

    ghost Value = { List RevisedLayer };

    ghost view = { λ m. rows_of m.rows.entries };

    ghost invariant = { λ m. IsLayerMap m.rows.entries m.sums };
}

impl LayerMap {
    /// No layers. Takes no memory.
    pub fn new(alloc: Global) -> LayerMap
        ensures { result ≡ [] }
    {
        LayerMap {
            rows: IndexMap::new(alloc),
            sums: Tally {
                features: 0,
                vertices: 0,
                values: 0,
                cells: 0,
            },
        }
    }

    /// How many layers there are.
    pub fn len(&self) -> usize
        ensures { result ≡ length self.now }
    {
        self.rows.len()
    }

    /// What all layers hold together, counted.
    pub fn sums(&self) -> Tally
        ensures sums { result ≡ totals_of (map layer_of self.now) }
        ensures distinct { IsDistinct nat_eq (map id_of self.now) }
    {
        self.sums
    }

    /// The place of the layer with an id, 0 being the top.
    pub fn find(&self, id: u32) -> Option<usize>
        ensures { result ≡ position (has_id id) self.now }
    {
        self.rows.get_index_of(&id)
    }

    /// The layer at a place.
    pub fn row(&self, at: usize) -> &Row
        requires { at < length self.now }
        ensures { slice_get self.now at ≡ Some result.now }
    {
        let Some(found) = self.rows.get_index(at) else {
            unreachable!()
        };
        found.1
    }

    /// Gives the layer at a place another frame of the same id. No layer is copied, and no memory is taken.
    pub fn set_frame(&mut self, at: usize, frame: LayerFrame)
        requires within { at < length self.old }
        requires same { (row : RevisedLayer) → slice_get self.old at ≡ Some row → frame.id ≡ id_of row }
        ensures { (row : RevisedLayer) → slice_get self.old at ≡ Some row
            → self.new ≡ set self.old at (with_frame frame row) }
    {
        let Some(row) = self.rows.get_index_mut(at) else {
            unreachable!()
        };
        row.set_frame(frame);
    }

    /// Puts another layer of the same id in the place of one.
    pub fn set_layer(&mut self, at: usize, layer: SharedLayer) -> Result<(), NoMemory>
        requires within { at < length self.old }
        requires same { (row : RevisedLayer) → slice_get self.old at ≡ Some row
            → layer.core.id ≡ id_of row }
        ensures ok { OnOk result ((row : RevisedLayer) → slice_get self.old at ≡ Some row
            → self.new ≡ set self.old at (with_core layer row)) }
        ensures err { OnErr result (self.new ≡ self.old) }
    {
        let was = tally_of(self.row(at).layer().value().contents());
        let sums = self
            .sums
            .exchanged(was, tally_of(layer.value().contents()))?;
        let Some(row) = self.rows.get_index_mut(at) else {
            unreachable!()
        };
        row.set_layer(layer);
        self.sums = sums;
        Ok(())
    }

    /// Puts a layer of a new id in, so that it stands at a place.
    pub fn insert(&mut self, at: usize, row: Row) -> Result<(), NoMemory>
        requires place { at ≤ length self.old }
        requires fresh { list_any (has_id (id_of row)) self.old ≡ false }
        ensures ok { OnOk result (self.new ≡ insert self.old at row) }
        ensures err { OnErr result (self.new ≡ self.old) }
    {
        let none = Tally {
            features: 0,
            vertices: 0,
            values: 0,
            cells: 0,
        };
        let sums = self
            .sums
            .exchanged(none, tally_of(row.layer().value().contents()))?;
        match self.rows.shift_insert(at, row.id(), row) {
            Ok(_) => {
                self.sums = sums;
                Ok(())
            }
            Err(_) => Err(AllocError),
        }
    }

    /// Takes the layer at a place out. Takes no memory.
    pub fn remove(&mut self, at: usize)
        requires { at < length self.old }
        ensures { self.new ≡ remove self.old at }
    {
        let was = tally_of(self.row(at).layer().value().contents());
        let sums = self.sums.less(was);
        drop(self.rows.shift_remove_index(at));
        self.sums = sums;
    }

    /// Takes the layer at a place out and puts it in again, so that it stands at another. Takes no memory.
    pub fn shift(&mut self, from: usize, to: usize)
        requires { (from < length self.old) × (to < length self.old) }
        ensures { (row : RevisedLayer) → slice_get self.old from ≡ Some row
            → self.new ≡ insert (remove self.old from) to row }
    {
        self.rows.move_index(from, to);
    }
}
