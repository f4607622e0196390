//! Whether a painted layer is the one that is looked for.

ghost use Rattle.std.specs.Prelude.{◌≡◌, nat_eq, option_map};
ghost use Rattle.std.specs.List.{list_any};
ghost use Rattle.std.specs.Option.{option_to_list};
ghost use Rattle.std.specs.Bool.{Decides};
ghost use Rattle.cv_cache.specs.Caches.{Suits, painted_id, depends_on};
ghost use Rattle.cv_layer.specs.Stamps.{stamp_list};

use cv_layer::{Layer, PaintedLayer, Stamps};
use cv_model::View;

/// Whether two views are the same.
fn is_view(a: &View, b: &View) -> bool
    ensures { Decides result (a.now ≡ b.now) }
{
    a.lx2 == b.lx2 && a.ty2 == b.ty2 && a.u == b.u && a.w == b.w && a.h == b.h
}

/// Whether two lists of stamps are the same.
fn are_stamps(a: Stamps, b: &Stamps) -> bool
    ensures { Decides result (stamp_list a ≡ stamp_list b.now) }
{
    a == *b
}

/// Whether a painted layer has these stamps and is at this view.
pub(crate) fn suits(painted: &PaintedLayer, stamps: &Stamps, view: &View) -> bool
    ensures { Decides result (Suits (stamp_list stamps.now) view.now painted.now) }
{
    are_stamps(painted.input().value().stamps(), stamps) && is_view(&painted.view(), view)
}

/// The id of the layer that a painted layer is of.
pub(crate) fn layer_of(painted: &PaintedLayer) -> u32
    ensures { result ≡ painted_id painted.now }
{
    painted.input().value().layer().id()
}

/// Whether a painted layer is of a layer, or has it as its mask layer or its join layer.
pub(crate) fn depends_on(painted: &PaintedLayer, layer: u32) -> bool
    ensures { result ≡ depends_on layer painted.now }
{
    let own = painted.input().value().layer();
    own.id() == layer || is_named(own.mask(), layer) || is_named(joined_layer(own), layer)
}

/// Whether a layer is named.
fn is_named(id: Option<u32>, layer: u32) -> bool
    ensures { result ≡ list_any (nat_eq layer) (option_to_list id) }
{
    match id {
        Some(id) => id == layer,
        None => false,
    }
}

/// The layer that a layer takes joined texts from, if it names one.
fn joined_layer(layer: &Layer) -> Option<u32>
    ensures { result ≡ option_map (λ j. j.layer) layer.now.core.join }
{
    match layer.join() {
        Some(join) => Some(join.layer),
        None => None,
    }
}
