//! Laws of polygons side by side, each the clause of a call that does nothing.

ghost use Rattle.cv_geom.specs.Tilings.{ReversesCrossAlike, SharedEdgesCancel, TilesCoverOnce, SquaresUnite};

/// An edge and its reverse cross alike.
pub fn reverses_cross_alike()
    ensures { ReversesCrossAlike }
{}

/// A position is inside the union of two polygons, which has their edges without the ones that they share,
/// exactly where it is inside one of the two and not in both.
pub fn shared_edges_cancel()
    ensures { SharedEdgesCancel }
{}

/// Of two polygons side by side exactly one covers each position of their union, on the common border too.
/// So fills that are not opaque are laid there once and not twice or never.
pub fn tiles_cover_once()
    ensures { TilesCoverOnce }
{}

/// Two squares side by side have a rectangle as their union.
pub fn squares_unite()
    ensures { SquaresUnite }
{}
