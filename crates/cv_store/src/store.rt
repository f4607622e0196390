//! The project at its present version.

ghost use Rattle.std.specs.Prelude.{◌≡◌, ◌<◌, ◌≤◌, suc, option_map, slice_get, map, set, insert, remove};
ghost use Rattle.std.specs.Prelude.{length};
ghost use Rattle.std.specs.Prelude.{OnOk, OnErr, IfOk, Some, [], false, nat_le};
ghost use Rattle.std.specs.List.{list_any, AllByRecursion};
ghost use Rattle.cv_model.specs.Edits.{is_over, most_edits};
ghost use Rattle.cv_store.specs.Stores.{StoreParts, RevisedLayer, layer_of, id_of, has_id, frame_of};
ghost use Rattle.cv_store.specs.Stores.{with_frame};
ghost use Rattle.cv_store.specs.Tallies.{totals_of};
ghost use Rattle.cv_store.specs.Stores.{with_core, accepted, IsStore};

use crate::layers::LayerMap;
use crate::room::Room;
use crate::row::Row;
use cv_layer::{NoMemory, SharedLayer};
use cv_model::{LayerFrame, Rgb};
use std::alloc::Global;
use std::marker::Model;

/// The most edits that are accepted.
const MOST_EDITS: u64 = 4_000_000_000;

/// A project at its present version, seen as its background, its layers with their revisions, top first, and
/// the version.
///
/// The version is 1 at opening and grows by one with each accepted edit. It keeps that the layers' ids
/// differ, that no limit is passed, and that each revision is from 1 to the version.
#[derive(Drop)]
pub struct Store {
    alloc: Global,
    background: Rgb,
    layers: LayerMap,
    version: u64,
}

impl Model for Store {
    ghost use Rattle.cv_store.specs.Stores.{StoreParts, IsStore};

    ghost Value = { StoreParts };

    ghost view = { λ s. record { background = s.background; layers = s.layers; version = s.version } };

    ghost invariant = { λ s. IsStore
        (record { background = s.background; layers = s.layers; version = s.version }) };
}

impl Store {
    /// A store of no layers at version 1. Takes no memory.
    pub fn new(alloc: Global, background: Rgb) -> Store
        ensures { result ≡ record { background = background; layers = []; version = 1 } }
    {
        Store {
            alloc,
            background,
            layers: LayerMap::new(alloc),
            version: 1,
        }
    }

    /// A store of these layers at version 1, each of revision 1. Takes no memory.
    pub(crate) fn opened(alloc: Global, background: Rgb, layers: LayerMap) -> Store
        requires within { is_over (map layer_of layers) ≡ false }
        requires first { AllByRecursion (λ (row : RevisedLayer). row.revision ≡ 1) layers }
        ensures { result ≡ record { background = background; layers = layers; version = 1 } }
    {
        Store {
            alloc,
            background,
            layers,
            version: 1,
        }
    }

    /// The version: one more than the number of accepted edits.
    pub fn version(&self) -> u64
        ensures { result ≡ self.now.version }
    {
        self.version
    }

    /// The colour below all layers.
    pub fn background(&self) -> Rgb
        ensures { result ≡ self.now.background }
    {
        self.background
    }

    /// The layer at a place, 0 being the top. There is none from the number of layers on.
    pub fn place(&self, at: u32) -> Option<LayerFrame>
        ensures { result ≡ option_map frame_of (slice_get (map layer_of self.now.layers) at) }
    {
        if (at as usize) < self.layers.len() {
            Some(self.layers.row(at as usize).frame())
        } else {
            None
        }
    }

    /// How many layers there are, at most 32.
    pub fn len(&self) -> u32
        ensures len { result ≡ length self.now.layers }
        ensures few { result ≤ 32 }
        ensures kept { IsStore self.now }
    {
        self.layers.len() as u32
    }

    /// Whether as many edits were accepted as may be.
    #[tactic(auto, unfolding(cv_model::specs::Edits::most_edits))]
    pub(crate) fn is_spent(&self) -> bool
        ensures spent { result ≡ nat_le most_edits (accepted self.now) }
        ensures kept { IsStore self.now }
    {
        self.version > MOST_EDITS
    }

    /// How much an edit may still put in.
    pub(crate) fn room(&self) -> Room
        ensures room { result ≡ record {
          sums = (totals_of (map layer_of self.now.layers));
          spent = (nat_le most_edits (accepted self.now));
        } }
        ensures kept { IsStore self.now }
    {
        Room {
            sums: self.layers.sums(),
            spent: self.is_spent(),
        }
    }

    /// The layers, by their places.
    pub(crate) fn layers(&self) -> &LayerMap
        ensures layers { result.now ≡ self.now.layers }
        ensures kept { IsStore self.now }
    {
        &self.layers
    }

    /// The allocator that the store was opened with.
    pub(crate) fn alloc(&self) -> Global {
        self.alloc
    }

    /// Gives the layer at a place another frame of the same id, at the next version.
    #[tactic(auto, unfolding(cv_model::specs::Edits::most_edits))]
    pub(crate) fn reframe(&mut self, at: usize, frame: LayerFrame) -> u64
        requires within { at < length self.old.layers }
        requires same { (row : RevisedLayer) → slice_get self.old.layers at ≡ Some row
            → frame.id ≡ id_of row }
        requires open_yet { nat_le most_edits (accepted self.old) ≡ false }
        ensures version { result ≡ suc self.old.version }
        ensures made { (row : RevisedLayer) → slice_get self.old.layers at ≡ Some row
            → self.new ≡ record {
              background = self.old.background;
              layers = (set self.old.layers at (with_frame frame row));
              version = (suc self.old.version);
            } }
    {
        self.layers.set_frame(at, frame);
        self.version += 1;
        self.version
    }

    /// Puts another layer of the same id in the place of one, at the next version, which is its revision.
    #[tactic(auto, unfolding(cv_model::specs::Edits::most_edits))]
    pub(crate) fn replace(&mut self, at: usize, layer: SharedLayer) -> Result<u64, NoMemory>
        requires within { at < length self.old.layers }
        requires same { (row : RevisedLayer) → slice_get self.old.layers at ≡ Some row
            → layer.core.id ≡ id_of row }
        requires revised { layer.revision ≡ suc self.old.version }
        requires open_yet { nat_le most_edits (accepted self.old) ≡ false }
        requires small { (row : RevisedLayer) → slice_get self.old.layers at ≡ Some row
            → is_over (set (map layer_of self.old.layers) at (with_core layer row).layer) ≡ false }
        ensures version { IfOk result (λ version. version ≡ suc self.old.version) }
        ensures made { OnOk result ((row : RevisedLayer) → slice_get self.old.layers at ≡ Some row
            → self.new ≡ record {
              background = self.old.background;
              layers = (set self.old.layers at (with_core layer row));
              version = (suc self.old.version);
            }) }
        ensures err { OnErr result (self.new ≡ self.old) }
    {
        self.layers.set_layer(at, layer)?;
        self.version += 1;
        Ok(self.version)
    }

    /// Puts a layer of a new id in, so that it stands at a place, at the next version, which is its
    /// revision.
    #[tactic(auto, unfolding(cv_model::specs::Edits::most_edits))]
    pub(crate) fn put_in(&mut self, at: usize, row: Row) -> Result<u64, NoMemory>
        requires place { at ≤ length self.old.layers }
        requires fresh { list_any (has_id (id_of row)) self.old.layers ≡ false }
        requires revised { row.revision ≡ suc self.old.version }
        requires open_yet { nat_le most_edits (accepted self.old) ≡ false }
        requires small { is_over (insert (map layer_of self.old.layers) at row.layer) ≡ false }
        ensures version { IfOk result (λ version. version ≡ suc self.old.version) }
        ensures made { OnOk result (self.new ≡ record {
          background = self.old.background;
          layers = (insert self.old.layers at row);
          version = (suc self.old.version);
        }) }
        ensures err { OnErr result (self.new ≡ self.old) }
    {
        self.layers.insert(at, row)?;
        self.version += 1;
        Ok(self.version)
    }

    /// Takes the layer at a place out, at the next version.
    #[tactic(auto, unfolding(cv_model::specs::Edits::most_edits))]
    pub(crate) fn take_out(&mut self, at: usize) -> u64
        requires within { at < length self.old.layers }
        requires open_yet { nat_le most_edits (accepted self.old) ≡ false }
        ensures kept { IsStore self.old }
        ensures version { result ≡ suc self.old.version }
        ensures made { self.new ≡ record {
          background = self.old.background;
          layers = (remove self.old.layers at);
          version = (suc self.old.version);
        } }
    {
        self.layers.remove(at);
        self.version += 1;
        self.version
    }

    /// Takes the layer at a place out and puts it in again, so that it stands at another, at the next
    /// version.
    #[tactic(auto, unfolding(cv_model::specs::Edits::most_edits))]
    pub(crate) fn shift(&mut self, from: usize, to: usize) -> u64
        requires within { (from < length self.old.layers) × (to < length self.old.layers) }
        requires open_yet { nat_le most_edits (accepted self.old) ≡ false }
        ensures version { result ≡ suc self.old.version }
        ensures made { (row : RevisedLayer) → slice_get self.old.layers from ≡ Some row
            → self.new ≡ record {
              background = self.old.background;
              layers = (insert (remove self.old.layers from) to row);
              version = (suc self.old.version);
            } }
    {
        self.layers.shift(from, to);
        self.version += 1;
        self.version
    }

    /// Gives the store another background, at the next version.
    #[tactic(auto, unfolding(cv_model::specs::Edits::most_edits))]
    pub(crate) fn recolour(&mut self, colour: Rgb) -> u64
        requires { nat_le most_edits (accepted self.old) ≡ false }
        ensures kept { IsStore self.old }
        ensures version { result ≡ suc self.old.version }
        ensures made { self.new ≡ record {
          background = colour;
          layers = self.old.layers;
          version = (suc self.old.version);
        } }
    {
        self.background = colour;
        self.version += 1;
        self.version
    }
}
