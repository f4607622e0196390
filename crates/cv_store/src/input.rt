//! What layers are painted from, at the present version.

ghost use Rattle.std.specs.Prelude.{◌≡◌, option_map, option_and_then, IfOk};
ghost use Rattle.std.specs.Option.{option_copied};
ghost use Rattle.cv_layer.specs.Stamps.{stamp_list};
ghost use Rattle.cv_store.specs.Stores.{revision_in, stamp_in, input_in, stamps_in, core_stamps, core_found};

use crate::store::Store;
use cv_chunks::Shared;
use cv_layer::{Layer, LayerInput, NoMemory, SharedLayer, Stamp, Stamps};

impl Store {
    /// The layer with an id, if it is there.
    fn found(&self, id: u32) -> Option<&SharedLayer>
        ensures { option_copied result ≡ core_found self.now id }
    {
        match self.layers().find(id) {
            Some(at) => Some(self.layers().row(at).layer()),
            None => None,
        }
    }

    /// A layer, held once more.
    fn shared(&self, id: u32) -> Result<Option<SharedLayer>, NoMemory>
        ensures { IfOk result (λ found. found ≡ core_found self.now id) }
    {
        match self.found(id) {
            Some(layer) => Ok(Some(layer.clone()?)),
            None => Ok(None),
        }
    }

    /// The layer whose polygons mask one, if it is named and there.
    fn mask_of(&self, layer: &Layer) -> Result<Option<SharedLayer>, NoMemory>
        ensures { IfOk result
            (λ found. found ≡ option_and_then (core_found self.now) layer.now.core.mask) }
    {
        match layer.mask() {
            Some(id) => self.shared(id),
            None => Ok(None),
        }
    }

    /// The layer that one takes joined texts from, if it is named and there.
    fn join_of(&self, layer: &Layer) -> Result<Option<SharedLayer>, NoMemory>
        ensures { IfOk result (λ found.
            found ≡ option_and_then (λ join. core_found self.now join.layer) layer.now.core.join) }
    {
        match layer.join() {
            Some(join) => self.shared(join.layer),
            None => Ok(None),
        }
    }

    /// What a layer is painted from: its parts and its stamps. There is none exactly where the project
    /// hasn't the layer. An edit that comes later leaves it as it is.
    pub fn input(&self, layer: u32) -> Result<Option<Shared<LayerInput>>, NoMemory>
        ensures { IfOk result (λ found. found ≡ input_in self.now layer) }
    {
        let own = match self.shared(layer)? {
            Some(own) => own,
            None => return Ok(None),
        };
        let mask = self.mask_of(own.value())?;
        let join = self.join_of(own.value())?;
        match Shared::of(self.alloc(), LayerInput::of(own, mask, join)) {
            Ok(input) => Ok(Some(input)),
            Err(refused) => Err(refused.1),
        }
    }

    /// The revision of a layer, or 0 where it isn't there.
    fn revision(&self, id: u32) -> u64
        ensures { result ≡ revision_in self.now id }
    {
        match self.found(id) {
            Some(layer) => layer.value().revision(),
            None => 0,
        }
    }

    /// The stamp of an id.
    fn stamp(&self, id: u32) -> Stamp
        ensures { result ≡ stamp_in self.now id }
    {
        Stamp {
            id,
            revision: self.revision(id),
        }
    }

    /// The stamps of a layer: the revisions of the layers that its image depends on. There are none exactly
    /// where the project hasn't the layer. Takes no memory.
    pub fn stamps(&self, layer: u32) -> Option<Stamps>
        ensures { option_map stamp_list result ≡ stamps_in self.now layer }
    {
        match self.found(layer) {
            Some(own) => Some(self.stamps_of(own.value())),
            None => None,
        }
    }

    /// The stamps of a layer of the store.
    fn stamps_of(&self, layer: &Layer) -> Stamps
        ensures { stamp_list result ≡ core_stamps self.now layer.now.core }
    {
        let mask = match layer.mask() {
            Some(id) => Some(self.stamp(id)),
            None => None,
        };
        let join = match layer.join() {
            Some(join) => Some(self.stamp(join.layer)),
            None => None,
        };
        Stamps::of(self.stamp(layer.id()), mask, join)
    }
}
