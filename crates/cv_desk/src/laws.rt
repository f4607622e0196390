//! What holds of desks after every list of calls, each the clause of a call that does nothing.

ghost use Rattle.cv_desk.specs.Laws.{CallsMakeHistory, DesksAreKnown, ListsAreKnown};
ghost use Rattle.cv_desk.specs.Laws.{StampsTellInputs, StampsTellPresentInputs};

/// After every list of calls, by any callers, that is made from a desk as it is opened, the journal is the
/// list of the calls' entries, it is legal, and the desk's state is the one after it.
pub fn calls_make_history()
    ensures { CallsMakeHistory }
{}

/// A desk's journal is legal, and each cached layer, slot and published picture is what the definitions name.
pub fn desks_are_known()
    ensures { DesksAreKnown }
{}

/// After every list of calls, by any callers, that is made from a desk as it is opened, the journal is the
/// list of the calls' entries and is legal, and each cached layer, slot and published picture of the desk
/// that the last call leaves is what the definitions name of that journal.
pub fn lists_are_known()
    ensures { ListsAreKnown }
{}

/// A layer that has equal stamps in two jobs of a desk is painted from the same there.
pub fn stamps_tell_inputs()
    ensures { StampsTellInputs }
{}

/// A layer that has its present stamps in a job is painted there from what it is painted from at present.
pub fn stamps_tell_present_inputs()
    ensures { StampsTellPresentInputs }
{}
