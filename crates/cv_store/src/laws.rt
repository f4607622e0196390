//! What holds of stores and histories of edits, each the clause of a call that does nothing.

ghost use Rattle.cv_store.specs.Laws.{InputStays, StampsStay, EqualStampsEqualParts, HistoryGoesOn};
ghost use Rattle.cv_store.specs.Laws.{StampsAreOfEdits, EqualStampsEqualInputs, LeftRevisionsNeverReturn};
ghost use Rattle.cv_store.specs.Opened.{OpenedIsBehind};

/// An edit that touches none of the layers on which a layer depends leaves what the layer is painted from:
/// its parts and its stamps together.
pub fn input_stays()
    ensures { InputStays }
{}

/// Such an edit leaves the layer's stamps.
pub fn stamps_stay()
    ensures { StampsStay }
{}

/// At two versions of one history at which a layer has equal stamps, it has equal parts.
pub fn equal_stamps_equal_parts()
    ensures { EqualStampsEqualParts }
{}

/// A store's project, version and revisions are those of the history of its accepted edits.
pub fn history_goes_on()
    ensures { HistoryGoesOn }
{}

/// A store as it is opened is the opened project behind no edits.
pub fn opened_is_behind()
    ensures { OpenedIsBehind }
{}

/// The stamps that a store has for a layer are those behind its accepted edits, and there are none for one
/// that isn't there.
pub fn stamps_are_of_edits()
    ensures { StampsAreOfEdits }
{}

/// Stores at two versions of one history that have equal stamps of a layer have equal inputs of it.
pub fn equal_stamps_equal_inputs()
    ensures { EqualStampsEqualInputs }
{}

/// A revision that a layer has left, be it by an edit or by being taken out, never returns.
pub fn left_revisions_never_return()
    ensures { LeftRevisionsNeverReturn }
{}
