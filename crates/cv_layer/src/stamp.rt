//! The ids and revisions of the layers that an image depends on.

ghost use Rattle.std.specs.Prelude.{◌≡◌, ◌∷◌, ◌++◌, [], true};
ghost use Rattle.std.specs.Option.{option_to_list};
ghost use Rattle.cv_layer.specs.Stamps.{stamp_list};

use std::marker::Model;

/// A layer's id and its revision.
#[derive(Clone, Copy, Debug, PartialEq, Eq)]
pub struct Stamp {
    /// The layer's id.
    pub id: u32,
    /// The version at which the layer was added or last changed, or 0 where it isn't there.
    pub revision: u64,
}

impl Model for Stamp {
    ghost use Rattle.cv_model.specs.Paintings.{Stamp};

    ghost Value = { Stamp };

    ghost view = { λ s. record { id = s.id; revision = s.revision } };

    ghost inverse = { λ s. record { id = s.id; revision = s.revision } };
}

/// The stamps of a layer and of those that it depends on, seen as their list: its own, then those of its
/// mask layer and of its join layer where these are named.
#[derive(Clone, Copy, Debug, PartialEq, Eq)]
pub enum Stamps {
    /// The layer's own.
    One(Stamp),
    /// The layer's own, and that of its mask layer or of its join layer.
    Two(Stamp, Stamp),
    /// The layer's own, its mask layer's and its join layer's.
    Three(Stamp, Stamp, Stamp),
}

impl Stamps {
    /// The stamps of a layer, and of its mask layer and its join layer where these are named.
    pub fn of(own: Stamp, mask: Option<Stamp>, join: Option<Stamp>) -> Stamps
        ensures { stamp_list result ≡ own ∷ option_to_list mask ++ option_to_list join }
    {
        match (mask, join) {
            (Some(mask), Some(join)) => Stamps::Three(own, mask, join),
            (Some(other), None) | (None, Some(other)) => Stamps::Two(own, other),
            (None, None) => Stamps::One(own),
        }
    }
}
