//! Laws of views, each the clause of a call that does nothing.

ghost use Rattle.cv_geom.specs.ViewLaws.{PansAdd, ViewsShowTheirExtent, CentresLieWithin};

/// Two pans in a row are the pan by their sums.
pub fn pans_add()
    ensures { PansAdd }
{}

/// The view of an extent shows it whole and in its middle.
/// In one direction at least the margin is less than rounding adds.
pub fn views_show_their_extent()
    ensures { ViewsShowTheirExtent }
{}

/// The centre of each pixel lies within its view.
pub fn centres_lie_within()
    ensures { CentresLieWithin }
{}
