//! Edits that change how layers are merged into a picture, and edits of layers as a whole.

ghost use Rattle.std.specs.Prelude.{◌≡◌, ◌<◌, suc, length, OnOk, OnErr, IfOk, Ok, false, true};
ghost use Rattle.cv_model.specs.declared.edit.Edit.TheVariants.{SetOpacity, SetBlend, SetVisible, SetScales};
ghost use Rattle.cv_model.specs.declared.edit.Edit.TheVariants.{MoveLayer, SetBackground, RemoveLayer};
ghost use Rattle.cv_model.specs.declared.edit.Edit.TheVariants.{SetMask, SetJoin, SetStyle};
ghost use Rattle.cv_model.specs.Edits.{fits};
ghost use Rattle.cv_layer.specs.Layers.{contents_seen, RevisedCore};
ghost use Rattle.cv_store.specs.Stores.{IsStore};
ghost use Rattle.cv_store.specs.Answers.{Answers, IsEdited, PlaceAnswer, StyledAnswer, Made, is_spent};
ghost use Rattle.cv_store.specs.Answers.{IsChange, IsPut};

use crate::store::Store;
use cv_chunks::Shared;
use cv_layer::{Duplicate, Layer, LayerContents, NoMemory};
use cv_model::{Blend, EditError, Join, LayerFrame, Rgb, Scales, Style};
use std::alloc::Global;

/// Whether a style is one for what a layer holds.
fn fits(style: &Style, contents: &LayerContents) -> bool
    ensures { result ≡ fits style.now (contents_seen contents.now) }
{
    match (style, contents) {
        (Style::Ramp(_), LayerContents::Grid(_)) => true,
        (Style::Ramp(_), LayerContents::Text(_)) => false,
        (_, LayerContents::Grid(_)) => false,
        (_, LayerContents::Text(_)) => true,
    }
}

/// A layer with a copy of another join, or with none, at a revision.
fn joined(
    alloc: Global,
    layer: &Layer,
    join: &Option<Join>,
    revision: u64,
) -> Result<Layer, NoMemory>
    ensures { IfOk result (λ made. made ≡
        record { core = record layer.now.core { join = join.now }; revision = revision }) }
{
    layer.with_join(alloc, join.duplicate(alloc)?, revision)
}

/// A layer with a copy of another style, at a revision.
fn styled(alloc: Global, layer: &Layer, style: &Style, revision: u64) -> Result<Layer, NoMemory>
    requires { fits style.now layer.now.core.contents ≡ true }
    ensures { IfOk result (λ made. made ≡
        record { core = record layer.now.core { style = style.now }; revision = revision }) }
{
    layer.with_style(alloc, style.duplicate(alloc)?, revision)
}

impl Store {
    /// The place of a layer, where a further edit is accepted.
    fn place_of(&self, layer: u32) -> Result<usize, EditError>
        ensures { PlaceAnswer self.now layer result }
    {
        let at = match self.layers().find(layer) {
            Some(at) => at,
            None => return Err(EditError::UnknownLayer),
        };
        if self.is_spent() {
            return Err(EditError::Limit);
        }
        Ok(at)
    }

    /// The same, where a style must be one for what the layer holds.
    fn styled_place(&self, layer: u32, style: &Style) -> Result<usize, EditError>
        ensures { StyledAnswer self.now layer style.now result }
    {
        let at = match self.layers().find(layer) {
            Some(at) => at,
            None => return Err(EditError::UnknownLayer),
        };
        if !fits(style, self.layers().row(at).layer().value().contents()) {
            return Err(EditError::WrongKind);
        }
        if self.is_spent() {
            return Err(EditError::Limit);
        }
        Ok(at)
    }

    /// The next version.
    #[tactic(auto, unfolding(cv_model::specs::Edits::most_edits))]
    pub(crate) fn next(&self) -> u64
        requires { is_spent self.now ≡ false }
        ensures { result ≡ suc self.now.version }
    {
        self.version() + 1
    }

    /// Puts a layer that was made in the place of one of the same id, at the next version, which is its
    /// revision.
    pub(crate) fn put(&mut self, at: usize, made: Result<Layer, NoMemory>) -> Result<u64, EditError>
        requires within { at < length self.old.layers }
        requires change { IfOk made (IsChange self.old at) }
        requires open_yet { is_spent self.old ≡ false }
        ensures version { Made result (λ version. version ≡ suc self.old.version) }
        ensures made { OnOk result
            ((layer : RevisedCore) × (made ≡ Ok layer) × IsPut self.old at layer self.new) }
        ensures err { OnErr result (self.new ≡ self.old) }
    {
        let layer = match made {
            Ok(layer) => layer,
            Err(_) => return Err(EditError::NoMemory),
        };
        let shared = match Shared::of(self.alloc(), layer) {
            Ok(shared) => shared,
            Err(_) => return Err(EditError::NoMemory),
        };
        match self.replace(at, shared) {
            Ok(version) => Ok(version),
            Err(_) => Err(EditError::NoMemory),
        }
    }

    /// Changes a layer's opacity.
    pub fn set_opacity(&mut self, layer: u32, opacity: u8) -> Result<u64, EditError>
        ensures answer { Answers self.old (SetOpacity layer opacity) result }
        ensures ok { OnOk result (IsEdited self.old (SetOpacity layer opacity) self.new) }
        ensures err { OnErr result (self.new ≡ self.old) }
    {
        let at = match self.place_of(layer) {
            Ok(at) => at,
            Err(error) => return Err(error),
        };
        let was = self.layers().row(at).frame();
        Ok(self.reframe(
            at,
            LayerFrame {
                id: was.id,
                visible: was.visible,
                opacity,
                blend: was.blend,
                scales: was.scales,
            },
        ))
    }

    /// Changes a layer's blend mode.
    pub fn set_blend(&mut self, layer: u32, blend: Blend) -> Result<u64, EditError>
        ensures answer { Answers self.old (SetBlend layer blend) result }
        ensures ok { OnOk result (IsEdited self.old (SetBlend layer blend) self.new) }
        ensures err { OnErr result (self.new ≡ self.old) }
    {
        let at = match self.place_of(layer) {
            Ok(at) => at,
            Err(error) => return Err(error),
        };
        let was = self.layers().row(at).frame();
        Ok(self.reframe(
            at,
            LayerFrame {
                id: was.id,
                visible: was.visible,
                opacity: was.opacity,
                blend,
                scales: was.scales,
            },
        ))
    }

    /// Shows or hides a layer.
    pub fn set_visible(&mut self, layer: u32, visible: bool) -> Result<u64, EditError>
        ensures answer { Answers self.old (SetVisible layer visible) result }
        ensures ok { OnOk result (IsEdited self.old (SetVisible layer visible) self.new) }
        ensures err { OnErr result (self.new ≡ self.old) }
    {
        let at = match self.place_of(layer) {
            Ok(at) => at,
            Err(error) => return Err(error),
        };
        let was = self.layers().row(at).frame();
        Ok(self.reframe(
            at,
            LayerFrame {
                id: was.id,
                visible,
                opacity: was.opacity,
                blend: was.blend,
                scales: was.scales,
            },
        ))
    }

    /// Changes the scales at which a layer is painted.
    pub fn set_scales(&mut self, layer: u32, scales: Scales) -> Result<u64, EditError>
        ensures answer { Answers self.old (SetScales layer scales) result }
        ensures ok { OnOk result (IsEdited self.old (SetScales layer scales) self.new) }
        ensures err { OnErr result (self.new ≡ self.old) }
    {
        let at = match self.place_of(layer) {
            Ok(at) => at,
            Err(error) => return Err(error),
        };
        let was = self.layers().row(at).frame();
        Ok(self.reframe(
            at,
            LayerFrame {
                id: was.id,
                visible: was.visible,
                opacity: was.opacity,
                blend: was.blend,
                scales,
            },
        ))
    }

    /// Takes a layer out and puts it in again, so that it stands at the place.
    pub fn move_layer(&mut self, layer: u32, place: u32) -> Result<u64, EditError>
        ensures answer { Answers self.old (MoveLayer layer place) result }
        ensures ok { OnOk result (IsEdited self.old (MoveLayer layer place) self.new) }
        ensures err { OnErr result (self.new ≡ self.old) }
    {
        let at = match self.place_of(layer) {
            Ok(at) => at,
            Err(error) => return Err(error),
        };
        if place as usize >= self.layers().len() {
            return Err(EditError::BadPlace);
        }
        Ok(self.shift(at, place as usize))
    }

    /// Changes the colour below all layers.
    pub fn set_background(&mut self, colour: Rgb) -> Result<u64, EditError>
        ensures answer { Answers self.old (SetBackground colour) result }
        ensures ok { OnOk result (IsEdited self.old (SetBackground colour) self.new) }
        ensures err { OnErr result (self.new ≡ self.old) }
    {
        if self.is_spent() {
            return Err(EditError::Limit);
        }
        Ok(self.recolour(colour))
    }

    /// Takes a layer out.
    pub fn remove_layer(&mut self, layer: u32) -> Result<u64, EditError>
        ensures answer { Answers self.old (RemoveLayer layer) result }
        ensures ok { OnOk result (IsEdited self.old (RemoveLayer layer) self.new) }
        ensures err { OnErr result (self.new ≡ self.old) }
    {
        let at = match self.place_of(layer) {
            Ok(at) => at,
            Err(error) => return Err(error),
        };
        Ok(self.take_out(at))
    }

    /// Names another mask layer, or none.
    pub fn set_mask(&mut self, layer: u32, mask: Option<u32>) -> Result<u64, EditError>
        ensures answer { Answers self.old (SetMask layer mask) result }
        ensures ok { OnOk result (IsEdited self.old (SetMask layer mask) self.new) }
        ensures err { OnErr result (self.new ≡ self.old) }
    {
        let at = match self.place_of(layer) {
            Ok(at) => at,
            Err(error) => return Err(error),
        };
        let was = self.layers().row(at).layer().value();
        let made = was.with_mask(mask, self.next());
        self.put(at, made)
    }

    /// Names another join, or none.
    pub fn set_join(&mut self, layer: u32, join: &Option<Join>) -> Result<u64, EditError>
        ensures answer { Answers self.old (SetJoin layer join.now) result }
        ensures ok { OnOk result (IsEdited self.old (SetJoin layer join.now) self.new) }
        ensures err { OnErr result (self.new ≡ self.old) }
    {
        let at = match self.place_of(layer) {
            Ok(at) => at,
            Err(error) => return Err(error),
        };
        let was = self.layers().row(at).layer().value();
        let made = joined(self.alloc(), was, join, self.next());
        self.put(at, made)
    }

    /// Changes how a layer is drawn.
    pub fn set_style(&mut self, layer: u32, style: &Style) -> Result<u64, EditError>
        ensures answer { Answers self.old (SetStyle layer style.now) result }
        ensures ok { OnOk result (IsEdited self.old (SetStyle layer style.now) self.new) }
        ensures err { OnErr result (self.new ≡ self.old) }
    {
        let at = match self.styled_place(layer, style) {
            Ok(at) => at,
            Err(error) => return Err(error),
        };
        let was = self.layers().row(at).layer().value();
        let made = styled(self.alloc(), was, style, self.next());
        self.put(at, made)
    }
}
