//! Laws of compositions, each the clause of a call that does nothing.

ghost use Rattle.cv_compose.specs.Laws.{ComposesListedSlots, ComposesAllSlots, SlotsAreComposition};

/// The composition of a project's slots, of which some are there, is the picture of these.
pub fn composes_listed_slots()
    ensures { ComposesListedSlots }
{}

/// The composition of a project's slots, all of which are there, is the project's picture.
pub fn composes_all_slots()
    ensures { ComposesAllSlots }
{}

/// A project's slots at a view, some of them there, are what a `ComposeInput` keeps.
pub fn slots_are_composition()
    ensures { SlotsAreComposition }
{}
