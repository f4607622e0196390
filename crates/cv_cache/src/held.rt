//! The cache that holds at least one painted layer.

ghost use Rattle.std.specs.Prelude.{◌≡◌, nat_eq, not, filter, OnOk, OnErr, IfErr, IfOk, IfSome, IsSomeAnd};
ghost use Rattle.std.specs.Prelude.{MatchOption};
ghost use Rattle.std.specs.Prelude.{Some, find, option_map, length, ◌≤◌, ◌<◌};
ghost use Rattle.std.specs.List.{IsDistinct};
ghost use Rattle.std.specs.Map.{lookup, keys_of, values_of, remove_entry};
ghost use Rattle.lru.specs.LruCache.{lru_cache, promoted, put_entries};
ghost use Rattle.cv_cache.specs.Caches.{Suits, painted_id, depends_on, independent, IsKeyed};
ghost use Rattle.cv_layer.specs.Stamps.{stamp_list};

use crate::same::{depends_on, layer_of, suits};
use cv_chunks::Shared;
use cv_layer::{NoMemory, PaintedLayer, Stamps};
use cv_model::View;
use lru::LruCache;
use std::alloc::AllocError;

pub(crate) type Images = LruCache<u32, Shared<PaintedLayer>>;

/// A look for the image of a layer.
pub(crate) fn get(
    images: &mut Images,
    layer: u32,
    stamps: &Stamps,
    view: &View,
) -> Result<Option<Shared<PaintedLayer>>, NoMemory>
    ensures err { OnErr result ((images.new ≡ images.old)
        × IsSomeAnd (lookup (nat_eq layer) images.old.entries) (Suits (stamp_list stamps.now) view.now)) }
    ensures ok { IfOk result (λ o. MatchOption o
        ((images.new ≡ images.old)
        × IfSome (lookup (nat_eq layer) images.old.entries)
        (λ p. Suits (stamp_list stamps.now) view.now p → ⊥))
        (λ p. (lookup (nat_eq layer) images.old.entries ≡ Some p) × Suits (stamp_list stamps.now) view.now p
        × (images.new ≡ lru_cache (promoted (nat_eq layer) images.old.entries) images.old.cap))) }
{
    let Some(found) = images.peek(&layer) else {
        return Ok(None);
    };
    if !suits(found.value(), stamps, view) {
        return Ok(None);
    }
    let painted = found.clone()?;
    images.promote(&layer);
    Ok(Some(painted))
}

/// Puts an image under its layer.
pub(crate) fn put(
    images: &mut Images,
    painted: Shared<PaintedLayer>,
) -> Result<(), (Shared<PaintedLayer>, NoMemory)>
    ensures ok { OnOk result (images.new
        ≡ lru_cache (put_entries nat_eq images.old (painted_id painted) painted) images.old.cap) }
    ensures err { OnErr result (images.new ≡ images.old) }
    ensures back { IfErr result (λ e. e.0 ≡ painted) }
    ensures few { length images.old.entries ≤ images.old.cap }
    ensures some { 0 < images.old.cap }
{
    let _ = images.len();
    let layer = layer_of(painted.value());
    match images.put(layer, painted) {
        Ok(_) => Ok(()),
        Err(refused) => Err((refused.value.1, AllocError)),
    }
}

/// How many images there are.
pub(crate) fn count(images: &Images) -> usize
    ensures len { result ≡ length images.now.entries }
    ensures few { length images.now.entries ≤ images.now.cap }
    ensures apart { IsDistinct nat_eq (keys_of images.now.entries) }
{
    images.len()
}

/// The layer of the first image that depends on a layer.
fn first_dependent(images: &Images, layer: u32) -> Option<u32>
    ensures found { result ≡ option_map (λ e. e.0) (find (λ e. depends_on layer e.1) images.now.entries) }
    ensures apart { IsDistinct nat_eq (keys_of images.now.entries) }
{
    let _ = images.len();
    for (id, painted) in images.iter() {
        if depends_on(painted.value(), layer) {
            return Some(*id);
        }
    }
    None
}

/// Takes the image of a layer out.
fn take_out(images: &mut Images, layer: u32)
    ensures { images.new ≡ lru_cache (remove_entry (nat_eq layer) images.old.entries) images.old.cap }
{
    let _ = images.pop(&layer);
}

/// Takes out the images that depend on a layer.
pub(crate) fn drop_dependents(images: &mut Images, layer: u32)
    ensures values { values_of images.new.entries ≡ independent layer (values_of images.old.entries) }
    ensures keyed { IsKeyed images.old.entries → IsKeyed images.new.entries }
    ensures cap { images.new.cap ≡ images.old.cap }
{
    while let Some(id) = first_dependent(images, layer) {
        take_out(images, id);
    }
}
