//! The words of the journal's text.

ghost use Rattle.std.specs.Prelude.{◌≡◌};
ghost use Rattle.cv_event.specs.Lines.{error_word, verdict_word, hit_word, fate_word, reason_word};

use crate::entry::Fate;
use crate::refused::Reason;
use cv_model::EditError;

fn error_word(error: EditError) -> &'static str
    ensures { result.now ≡ error_word error }
{
    match error {
        EditError::UnknownLayer => "unknown-layer",
        EditError::UnknownFeature => "unknown-feature",
        EditError::WrongKind => "wrong-kind",
        EditError::DuplicateId => "duplicate-id",
        EditError::Limit => "limit",
        EditError::BadPlace => "bad-place",
        EditError::NoMemory => "no-memory",
    }
}

/// The word of an edit's verdict.
pub(crate) fn verdict_word(refusal: Option<EditError>) -> &'static str
    ensures { result.now ≡ verdict_word refusal }
{
    match refusal {
        None => "ok",
        Some(error) => error_word(error),
    }
}

/// The word of a look.
pub(crate) fn hit_word(hit: bool) -> &'static str
    ensures { result.now ≡ hit_word hit }
{
    if hit { "hit" } else { "miss" }
}

/// The word of a fate.
pub(crate) fn fate_word(fate: Fate) -> &'static str
    ensures { result.now ≡ fate_word fate }
{
    match fate {
        Fate::Stored => "stored",
        Fate::Kept => "kept",
        Fate::Dropped => "dropped",
    }
}

/// The word of a reason.
pub(crate) fn reason_word(reason: Reason) -> &'static str
    ensures { result.now ≡ reason_word reason }
{
    match reason {
        Reason::UnknownLayer => "unknown-layer",
        Reason::UnknownFeature => "unknown-feature",
        Reason::WrongKind => "wrong-kind",
        Reason::DuplicateId => "duplicate-id",
        Reason::Limit => "limit",
        Reason::BadPlace => "bad-place",
        Reason::UnknownCanvas => "unknown-canvas",
        Reason::Empty => "empty",
        Reason::Range => "range",
        Reason::NoView => "no-view",
        Reason::TooManyJobs => "too-many-jobs",
        Reason::NoJob => "no-job",
        Reason::EndedFinished => "ended-finished",
        Reason::EndedCancelled => "ended-cancelled",
        Reason::EndedNoMemory => "ended-no-memory",
        Reason::HeldFull => "held-full",
        Reason::Nothing => "nothing",
        Reason::NothingHeld => "nothing-held",
    }
}
