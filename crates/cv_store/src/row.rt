//! A layer with its name and how it is merged into a picture.

ghost use Rattle.std.specs.Prelude.{◌≡◌};
ghost use Rattle.cv_store.specs.Stores.{RevisedLayer, id_of, core_of, frame_of, with_core, with_frame};

use cv_layer::{Layer, SharedLayer};
use cv_model::{LayerFrame, Text};
use std::marker::Model;

/// A layer of a store, seen as the layer with its revision.
#[derive(Drop)]
pub struct Row {
    layer: SharedLayer,
    name: Text,
    frame: LayerFrame,
}

impl Model for Row {
    ghost use Rattle.std.specs.Prelude.{◌≡◌};
    ghost use Rattle.cv_store.specs.Stores.{RevisedLayer};

    ghost Value = { RevisedLayer };

    ghost view = { λ r. record {
      layer = record {
        core = r.layer.core;
        name = r.name;
        visible = r.frame.visible;
        opacity = r.frame.opacity;
        blend = r.frame.blend;
        scales = r.frame.scales;
      };
      revision = r.layer.revision;
    } };

    ghost invariant = { λ r. r.frame.id ≡ r.layer.core.id };
}

impl Row {
    /// The row of these parts.
    pub fn of(layer: SharedLayer, name: Text, frame: LayerFrame) -> Row
        requires { frame.id ≡ layer.core.id }
        ensures { result ≡ record {
          layer = record {
            core = layer.core;
            name = name;
            visible = frame.visible;
            opacity = frame.opacity;
            blend = frame.blend;
            scales = frame.scales;
          };
          revision = layer.revision;
        } }
    {
        Row { layer, name, frame }
    }

    /// The layer's id.
    pub fn id(&self) -> u32
        ensures { result ≡ id_of self.now }
    {
        self.frame.id
    }

    /// The layer, as it can be held once more.
    pub fn layer(&self) -> &SharedLayer
        ensures { result.now ≡ core_of self.now }
    {
        &self.layer
    }

    /// How it is merged into a picture.
    pub fn frame(&self) -> LayerFrame
        ensures { result ≡ frame_of self.now.layer }
    {
        self.frame
    }

    /// Gives the layer another frame of the same id. No layer is copied.
    pub fn set_frame(&mut self, frame: LayerFrame)
        requires { frame.id ≡ id_of self.old }
        ensures { self.new ≡ with_frame frame self.old }
    {
        self.frame = frame;
    }

    /// Puts another layer of the same id in its place.
    pub fn set_layer(&mut self, layer: SharedLayer)
        requires { layer.core.id ≡ id_of self.old }
        ensures { self.new ≡ with_core layer self.old }
    {
        self.layer = layer;
    }
}
