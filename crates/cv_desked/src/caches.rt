//! The cache of a canvas, which of its images it serves.
use crate::play::{BESIDE, FIRST, opened_store};
use cv_cache::LayerCache;
use cv_chunks::Shared;
use cv_layer::{PaintedLayer, Piece};
use cv_model::{NoMemory, View};
use cv_outside::Never;
use cv_paint::paint;
use cv_store::Store;
use std::alloc::{AllocError, Global};
use std::test::Fail;

/// Three layers, none of which names another.
const THREE: &str = concat!(
    r#"{"version":1,"background":"ffffff","canvases":[],"layers":["#,
    r#"{"id":5,"name":"five","source":{"kind":"text","file":"a"},"#,
    r#""style":{"kind":"single","symbol":{}}},"#,
    r#"{"id":6,"name":"six","source":{"kind":"text","file":"b"},"#,
    r#""style":{"kind":"single","symbol":{}}},"#,
    r#"{"id":7,"name":"seven","source":{"kind":"text","file":"c"},"#,
    r#""style":{"kind":"single","symbol":{}}}]}"#
);

const EMPTY: [&str; 3] = ["wkt\n", "wkt\n", "wkt\n"];

/// A layer of a store, painted at the first view.
fn painted(alloc: Global, store: &Store, layer: u32) -> Result<Shared<PaintedLayer>, NoMemory> {
    let Some(input) = store.input(layer)? else {
        return Err(AllocError);
    };
    let piece = Piece {
        job: 0,
        slot: 0,
        input,
        view: FIRST,
    };
    let Ok(painted) = paint(alloc, &piece, &mut Never) else {
        return Err(AllocError);
    };
    match Shared::of(alloc, painted) {
        Ok(painted) => Ok(painted),
        Err(refused) => Err(refused.1),
    }
}

/// Puts a layer of a store in a cache.
fn put(alloc: Global, cache: &mut LayerCache, store: &Store, layer: u32) -> Result<(), NoMemory> {
    match cache.put(painted(alloc, store, layer)?) {
        Ok(()) => Ok(()),
        Err(refused) => Err(refused.1),
    }
}

/// Whether a cache serves a layer of a store at a view.
fn serves(
    cache: &mut LayerCache,
    store: &Store,
    layer: u32,
    view: &View,
) -> Result<bool, NoMemory> {
    let Some(stamps) = store.stamps(layer) else {
        return Ok(false);
    };
    match cache.get(layer, &stamps, view)? {
        Some(found) => Ok(found.value().input().value().layer().id() == layer),
        None => Ok(false),
    }
}

/// A cache of two images behind the layers 5, 6 and 7.
fn filled(alloc: Global, store: &Store) -> Result<LayerCache, NoMemory> {
    let mut cache = LayerCache::new(alloc, 2)?;
    put(alloc, &mut cache, store, 5)?;
    put(alloc, &mut cache, store, 6)?;
    put(alloc, &mut cache, store, 7)?;
    Ok(cache)
}

/// The layer that is last in such a cache, 6 or 7: the one that another one puts out.
fn last(alloc: Global, cache: &mut LayerCache, store: &Store) -> Result<u32, NoMemory> {
    put(alloc, cache, store, 5)?;
    let six = serves(cache, store, 6, &FIRST)?;
    let seven = serves(cache, store, 7, &FIRST)?;
    Ok(match (six, seven) {
        (true, false) => 7,
        (false, true) => 6,
        _ => 0,
    })
}

#[test]
fn the_image_used_longest_ago_goes(rt: HostRuntime) -> Result<(), Fail> {
    let alloc = rt.alloc();
    let store = opened_store(alloc, THREE, EMPTY)?;
    let mut cache = filled(alloc, &store)?;
    assert!(rt; !serves(&mut cache, &store, 5, &FIRST)?);
    assert_eq!(rt; last(alloc, &mut cache, &store)?, 6);
    Ok(())
}

#[test]
fn an_image_that_is_served_comes_first(rt: HostRuntime) -> Result<(), Fail> {
    let alloc = rt.alloc();
    let store = opened_store(alloc, THREE, EMPTY)?;
    let mut cache = filled(alloc, &store)?;
    assert!(rt; serves(&mut cache, &store, 6, &FIRST)?);
    assert_eq!(rt; last(alloc, &mut cache, &store)?, 7);
    Ok(())
}

#[test]
fn dependents_are_dropped(rt: HostRuntime) -> Result<(), Fail> {
    let alloc = rt.alloc();
    let store = opened_store(alloc, THREE, EMPTY)?;
    let mut cache = filled(alloc, &store)?;
    assert!(rt; serves(&mut cache, &store, 6, &FIRST)?);
    cache.drop_dependents(7);
    assert!(rt; !serves(&mut cache, &store, 7, &FIRST)?);
    assert!(rt; serves(&mut cache, &store, 6, &FIRST)?);
    cache.clear();
    assert!(rt; !serves(&mut cache, &store, 6, &FIRST)?);
    Ok(())
}

#[test]
fn another_view_leaves_the_order(rt: HostRuntime) -> Result<(), Fail> {
    let alloc = rt.alloc();
    let store = opened_store(alloc, THREE, EMPTY)?;
    let mut cache = filled(alloc, &store)?;
    assert!(rt; !serves(&mut cache, &store, 6, &BESIDE)?);
    assert_eq!(rt; last(alloc, &mut cache, &store)?, 6);
    Ok(())
}
