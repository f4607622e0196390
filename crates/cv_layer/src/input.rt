//! What a layer is painted from.

ghost use Rattle.std.specs.Prelude.{◌≡◌, Option, option_map, IfSome, Some, slice_get, reverse};
ghost use Rattle.std.specs.Option.{option_copied};
ghost use Rattle.cv_layer.specs.Inputs.{revision_of, stamp_of, input_of, stamps_of, IsInput};
ghost use Rattle.cv_layer.specs.Stamps.{stamp_list};

use crate::layer::{Layer, SharedLayer};
use crate::stamp::{Stamp, Stamps};
use cv_chunks::Shared;
use cv_model::View;
use std::marker::Model;

/// A layer with the layers that it takes its mask and its joined texts from, seen as their parts and the
/// stamps.
///
/// It keeps that a mask layer that is there has the id that the layer names, and a join layer too.
#[derive(Drop)]
pub struct LayerInput {
    layer: SharedLayer,
    mask: Option<SharedLayer>,
    join: Option<SharedLayer>,
    stamps: Stamps,
}

impl Model for LayerInput {
    ghost use Rattle.std.specs.Prelude.{◌≡◌, option_map};
    ghost use Rattle.cv_layer.specs.Inputs.{IsInput};
    ghost use Rattle.cv_model.specs.Paintings.{Input};
    ghost use Rattle.cv_layer.specs.Inputs.{stamps_of, input_of};
    ghost use Rattle.cv_layer.specs.Stamps.{stamp_list};

    ghost Value = { Input };

    ghost view = { λ i. input_of i.layer i.mask i.join };

    ghost invariant = { λ i. (stamp_list i.stamps ≡ stamps_of i.layer i.mask i.join)
        × IsInput (input_of i.layer i.mask i.join) };
}

/// A layer's revision, or 0 where it isn't there.
fn revision_of(layer: &Option<SharedLayer>) -> u64
    ensures { result ≡ revision_of layer.now }
{
    match layer {
        Some(layer) => layer.value().revision(),
        None => 0,
    }
}

/// The stamps of an image of a layer with these mask and join layers.
fn stamps_of(layer: &Layer, mask: &Option<SharedLayer>, join: &Option<SharedLayer>) -> Stamps
    ensures { stamp_list result ≡ stamps_of layer.now mask.now join.now }
{
    let own = Stamp {
        id: layer.id(),
        revision: layer.revision(),
    };
    let mask_stamp = match layer.mask() {
        Some(id) => Some(Stamp {
            id,
            revision: revision_of(mask),
        }),
        None => None,
    };
    let join_stamp = match layer.join() {
        Some(named) => Some(Stamp {
            id: named.layer,
            revision: revision_of(join),
        }),
        None => None,
    };
    Stamps::of(own, mask_stamp, join_stamp)
}

impl LayerInput {
    /// The input of a layer with these mask and join layers. Takes no memory.
    pub fn of(
        layer: SharedLayer,
        mask: Option<SharedLayer>,
        join: Option<SharedLayer>,
    ) -> LayerInput
        requires { IsInput (input_of layer mask join) }
        ensures { result ≡ input_of layer mask join }
    {
        let stamps = stamps_of(layer.value(), &mask, &join);
        LayerInput {
            layer,
            mask,
            join,
            stamps,
        }
    }

    /// The layer itself.
    pub fn layer(&self) -> &Layer
        ensures layer { result.now.core ≡ self.now.parts.own }
        ensures stamped { slice_get self.now.stamps 0 ≡ Some (stamp_of result.now) }
        ensures kept { IsInput self.now }
    {
        self.layer.value()
    }

    /// The layer in whose polygons it is painted, if it is there.
    pub fn mask(&self) -> Option<&Layer>
        ensures mask { option_map (λ l. l.core) (option_copied result) ≡ self.now.parts.mask }
        ensures stamped { IfSome (option_copied result)
            (λ mask. slice_get self.now.stamps 1 ≡ Some (stamp_of mask)) }
    {
        match &self.mask {
            Some(mask) => Some(mask.value()),
            None => None,
        }
    }

    /// The layer that it takes joined texts from, if it is there.
    pub fn join(&self) -> Option<&Layer>
        ensures join { option_map (λ l. l.core) (option_copied result) ≡ self.now.parts.join }
        ensures stamped { IfSome (option_copied result)
            (λ join. slice_get (reverse self.now.stamps) 0 ≡ Some (stamp_of join)) }
    {
        match &self.join {
            Some(join) => Some(join.value()),
            None => None,
        }
    }

    /// The ids and revisions of the layers that its image depends on, in order.
    pub fn stamps(&self) -> Stamps
        ensures { stamp_list result ≡ self.now.stamps }
    {
        self.stamps
    }
}

/// A slot of a job that is to be painted.
#[derive(Drop)]
pub struct Piece {
    /// The job's number.
    pub job: u32,
    /// The slot's, 0 being the bottom one.
    pub slot: u32,
    /// What is painted.
    pub input: Shared<LayerInput>,
    /// Where it is seen.
    pub view: View,
}
