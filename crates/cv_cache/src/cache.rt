//! The cache of a canvas.

ghost use Rattle.std.specs.Prelude.{◌≡◌, ◌≤◌, nat_eq, [], length, map, OnOk, OnErr, IfOk, IfErr};
ghost use Rattle.std.specs.List.{IsDistinct};
ghost use Rattle.cv_cache.specs.Caches.{CacheParts, Looked, Serves, painted_id, put_front, independent};
ghost use Rattle.cv_model.specs.Paintings.{Painting};
ghost use Rattle.cv_layer.specs.Stamps.{stamp_list};

use crate::held::{self, Images};
use cv_chunks::Shared;
use cv_layer::{NoMemory, PaintedLayer, Stamps};
use cv_model::View;
use lru::LruCache;
use std::alloc::Global;
use std::marker::Model;
use std::num::NonZeroUsize;

/// The images of a canvas's layers, seen as the list of the painted layers, the one that was used last first,
/// and the capacity. No two of them are of one layer, and they are at most as many as the capacity, as `len`
/// says.
#[derive(Drop)]
pub struct LayerCache {
    images: Option<Images>,
}

impl Model for LayerCache {
    ghost use Rattle.cv_cache.specs.Caches.{CacheParts, paintings_in, capacity_in, IsKeyedIn};

    ghost Value = { CacheParts };

    ghost view = { λ c. record { paintings = paintings_in c.images; capacity = capacity_in c.images } };

    ghost invariant = { λ c. IsKeyedIn c.images };
}

impl LayerCache {
    /// An empty cache of at most so many images. One of none takes no memory.
    pub fn new(alloc: Global, capacity: u32) -> Result<LayerCache, NoMemory>
        ensures { IfOk result (λ cache. cache ≡ record { paintings = []; capacity = capacity }) }
    {
        match NonZeroUsize::new(capacity as usize) {
            Some(capacity) => {
                let images = LruCache::sparse(alloc, capacity)?;
                Ok(LayerCache {
                    images: Some(images),
                })
            }
            None => Ok(LayerCache { images: None }),
        }
    }

    /// The image of a layer with these stamps at this view, which moves to the front; `None` exactly where
    /// there is none. Only what is there can want memory, and a refusal changes nothing.
    pub fn get(
        &mut self,
        layer: u32,
        stamps: &Stamps,
        view: &View,
    ) -> Result<Option<Shared<PaintedLayer>>, NoMemory>
        ensures ok { IfOk result (Looked self.old self.new layer (stamp_list stamps.now) view.now) }
        ensures err { OnErr result ((self.new ≡ self.old)
            × (p : Painting) × Serves self.old layer (stamp_list stamps.now) view.now p) }
    {
        let Some(images) = &mut self.images else {
            return Ok(None);
        };
        held::get(images, layer, stamps, view)
    }

    /// Puts an image in front, in the place of an older one of its layer, and cuts the others to the
    /// capacity. A refusal hands it back and changes nothing.
    pub fn put(
        &mut self,
        painted: Shared<PaintedLayer>,
    ) -> Result<(), (Shared<PaintedLayer>, NoMemory)>
        ensures ok { OnOk result (self.new
            ≡ record self.old { paintings = (put_front self.old.capacity painted self.old.paintings) }) }
        ensures err { OnErr result (self.new ≡ self.old) }
        ensures back { IfErr result (λ e. e.0 ≡ painted) }
    {
        let Some(images) = &mut self.images else {
            return Ok(());
        };
        held::put(images, painted)
    }

    /// How many images it has: at most the capacity, and no two of one layer. Takes no memory.
    pub fn len(&self) -> usize
        ensures len { result ≡ length self.now.paintings }
        ensures few { length self.now.paintings ≤ self.now.capacity }
        ensures apart { IsDistinct nat_eq (map painted_id self.now.paintings) }
    {
        match &self.images {
            Some(images) => held::count(images),
            None => 0,
        }
    }

    /// Takes all images out. Takes no memory.
    pub fn clear(&mut self)
        ensures { self.new ≡ record self.old { paintings = [] } }
    {
        if let Some(images) = &mut self.images {
            images.clear();
        }
    }

    /// Takes out the images that depend on a layer. Takes no memory.
    pub fn drop_dependents(&mut self, layer: u32)
        ensures { self.new ≡ record self.old { paintings = (independent layer self.old.paintings) } }
    {
        let Some(images) = &mut self.images else {
            return;
        };
        held::drop_dependents(images, layer);
    }
}
