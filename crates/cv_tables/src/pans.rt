//! Whether a cache is of use at another view.

ghost use Rattle.std.specs.Prelude.{◌≡◌};
ghost use Rattle.cv_event.specs.States.{keeps_cache};

use cv_model::{View, pan_of};

/// Whether a cache is of use at a view, where the one before, if there was one, was this.
pub(crate) fn keeps_cache(before: Option<View>, view: View) -> bool
    ensures { result ≡ keeps_cache before view }
{
    match before {
        Some(before) => pan_of(&before, &view).is_some(),
        None => false,
    }
}
