//! Spans: the runs of columns at which a test holds.

ghost use Rattle.cv_geom.specs.Spans.{RunsAreOne};

/// There is one list of the maximal runs of columns at which a test holds.
pub fn runs_are_one()
    ensures { RunsAreOne }
{}
