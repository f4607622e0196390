//! Laws of edits, parts, pictures and colours, each the clause of a call that does nothing.

ghost use Rattle.cv_model.specs.Laws.{UntouchedPartsStay, FrameEditsLeaveParts, UntouchedDepsStay};
ghost use Rattle.cv_model.specs.Laws.{AbsentMasksShowAll, AbsentJoinsGiveNothing, EmptyPictureIsBackground};
ghost use Rattle.cv_model.specs.Laws.{OpaqueHidesBackdrop, OpaqueHidesBelow, OverNothingStays};

/// An edit that touches none of the layers on which a layer depends leaves the parts from which that layer
/// is painted.
pub fn untouched_parts_stay()
    ensures { UntouchedPartsStay }
{}

/// A frame edit leaves the parts of all layers.
pub fn frame_edits_leave_parts()
    ensures { FrameEditsLeaveParts }
{}

/// The ids on which a layer depends change only by an edit that touches the layer.
pub fn untouched_deps_stay()
    ensures { UntouchedDepsStay }
{}

/// A mask layer that isn't there masks nothing.
pub fn absent_masks_show_all()
    ensures { AbsentMasksShowAll }
{}

/// A join whose layer isn't there gives no text, as no join does.
pub fn absent_joins_give_nothing()
    ensures { AbsentJoinsGiveNothing }
{}

/// The picture of no layers is the background at each pixel.
pub fn empty_picture_is_background()
    ensures { EmptyPictureIsBackground }
{}

/// An opaque colour that is merged in normal mode at full opacity hides the backdrop.
pub fn opaque_hides_backdrop()
    ensures { OpaqueHidesBackdrop }
{}

/// An opaque colour hides what lies below it.
pub fn opaque_hides_below()
    ensures { OpaqueHidesBelow }
{}

/// A colour that isn't transparent stays as it is over nothing.
pub fn over_nothing_stays()
    ensures { OverNothingStays }
{}
