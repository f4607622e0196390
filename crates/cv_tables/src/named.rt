//! Which layer an edit touches, and what depends on it.

ghost use Rattle.std.specs.Prelude.{◌≡◌, nat_eq, option_map, false};
ghost use Rattle.std.specs.List.{list_any};
ghost use Rattle.std.specs.Option.{option_to_list, option_map_or};
ghost use Rattle.cv_model.specs.Edits.{touched};
ghost use Rattle.cv_model.specs.Layers.{deps_of};

use cv_layer::Layer;
use cv_model::Edit;

/// The layer that a data or layer edit names. A frame edit touches none.
pub(crate) fn touched(edit: &Edit) -> Option<u32>
    ensures { result ≡ touched edit.now }
{
    match edit {
        Edit::AddFeature { layer, .. } => Some(*layer),
        Edit::InsertFeature { layer, .. } => Some(*layer),
        Edit::RemoveFeature { layer, .. } => Some(*layer),
        Edit::SetGeometry { layer, .. } => Some(*layer),
        Edit::SetAttribute { layer, .. } => Some(*layer),
        Edit::SetCell { layer, .. } => Some(*layer),
        Edit::SetStyle { layer, .. } => Some(*layer),
        Edit::SetMask { layer, .. } => Some(*layer),
        Edit::SetJoin { layer, .. } => Some(*layer),
        Edit::AddLayer { layer, .. } => Some(layer.id),
        Edit::RemoveLayer { layer } => Some(*layer),
        Edit::SetOpacity { .. } => None,
        Edit::SetBlend { .. } => None,
        Edit::SetVisible { .. } => None,
        Edit::SetScales { .. } => None,
        Edit::MoveLayer { .. } => None,
        Edit::SetBackground { .. } => None,
    }
}

/// Whether a layer is named.
fn is_named(id: Option<u32>, layer: u32) -> bool
    ensures { result ≡ list_any (nat_eq layer) (option_to_list id) }
{
    match id {
        Some(id) => id == layer,
        None => false,
    }
}

/// The layer that a layer takes joined texts from, if it names one.
fn joined_layer(layer: &Layer) -> Option<u32>
    ensures { result ≡ option_map (λ j. j.layer) layer.now.core.join }
{
    match layer.join() {
        Some(join) => Some(join.layer),
        None => None,
    }
}

/// Whether a layer depends on another, if one is named: it is that layer, or has it as its mask layer or its
/// join layer.
pub(crate) fn depends_on(own: &Layer, named: Option<u32>) -> bool
    ensures { result ≡ option_map_or (λ id. list_any (nat_eq id) (deps_of own.now.core)) named false }
{
    match named {
        Some(id) => own.id() == id || is_named(own.mask(), id) || is_named(joined_layer(own), id),
        None => false,
    }
}
