//! Any edit of a store.

ghost use Rattle.std.specs.Prelude.{◌≡◌, OnOk, OnErr, Some};
ghost use Rattle.cv_store.specs.Answers.{Answers, IsEdited};
ghost use Rattle.cv_store.specs.Data.{data_layer};

use crate::data::changed;
use crate::store::Store;
use cv_model::{Edit, EditError};

impl Store {
    /// Changes what a layer holds.
    fn change(&mut self, layer: u32, edit: &Edit) -> Result<u64, EditError>
        requires { data_layer edit.now ≡ Some layer }
        ensures answer { Answers self.old edit.now result }
        ensures ok { OnOk result (IsEdited self.old edit.now self.new) }
        ensures err { OnErr result (self.new ≡ self.old) }
    {
        let at = match self.layers().find(layer) {
            Some(at) => at,
            None => return Err(EditError::UnknownLayer),
        };
        let was = self.layers().row(at).layer().value();
        let contents = match changed(self.alloc(), was.contents(), self.room(), edit) {
            Ok(contents) => contents,
            Err(error) => return Err(error),
        };
        let made = was.with_contents(contents, self.next());
        self.put(at, made)
    }

    /// Makes an edit. The answer is the new version; a refusal, want of memory among them, leaves the store
    /// as it was. A frame edit copies no layer, and an edit of one feature copies one chunk of its layer's.
    pub fn apply(&mut self, edit: &Edit) -> Result<u64, EditError>
        ensures answer { Answers self.old edit.now result }
        ensures ok { OnOk result (IsEdited self.old edit.now self.new) }
        ensures err { OnErr result (self.new ≡ self.old) }
    {
        match edit {
            Edit::AddFeature { layer, .. } => self.change(*layer, edit),
            Edit::InsertFeature { layer, .. } => self.change(*layer, edit),
            Edit::RemoveFeature { layer, .. } => self.change(*layer, edit),
            Edit::SetGeometry { layer, .. } => self.change(*layer, edit),
            Edit::SetAttribute { layer, .. } => self.change(*layer, edit),
            Edit::SetCell { layer, .. } => self.change(*layer, edit),
            Edit::SetStyle { layer, style } => self.set_style(*layer, style),
            Edit::SetMask { layer, mask } => self.set_mask(*layer, *mask),
            Edit::SetJoin { layer, join } => self.set_join(*layer, join),
            Edit::AddLayer { place, layer } => self.add_layer(*place, layer),
            Edit::RemoveLayer { layer } => self.remove_layer(*layer),
            Edit::SetOpacity { layer, opacity } => self.set_opacity(*layer, *opacity),
            Edit::SetBlend { layer, blend } => self.set_blend(*layer, *blend),
            Edit::SetVisible { layer, visible } => self.set_visible(*layer, *visible),
            Edit::SetScales { layer, scales } => self.set_scales(*layer, *scales),
            Edit::MoveLayer { layer, place } => self.move_layer(*layer, *place),
            Edit::SetBackground { colour } => self.set_background(*colour),
        }
    }
}
