//! What a feature lays on a pixel.

ghost use Rattle.std.specs.Prelude.{◌≡◌, ◌++◌};
ghost use Rattle.cv_model.specs.Colours.{laid_on};
ghost use Rattle.cv_model.specs.Pens.{IsRadius};
ghost use Rattle.cv_model.specs.Pictures.{hits_rings, hits_lines, laid_where, fill_strokes, pen_strokes};
ghost use Rattle.cv_model.specs.Pictures.{marker_strokes, strokes_of};

use crate::hits::{hits_lines, hits_rings, is_covered, is_marked};
use crate::sides::half_side;
use cv_blend::over;
use cv_model::{Geometry, Marker, Pen, Point2, Rgba, Symbol, View};

/// A pixel with the fill, the pen and the marker of a geometry on it, in this order.
#[tactic(auto, using(crate::proofs::LayLemmas::laid_more), unfolding(cv_model::specs::Pictures::strokes_of))]
pub fn with_strokes(
    pixel: Rgba,
    geometry: &Geometry,
    symbol: &Symbol,
    view: &View,
    p: Point2,
) -> Rgba
    ensures { result ≡ laid_on pixel (strokes_of symbol.now view.now p geometry.now) }
{
    let filled = with_fill(pixel, geometry, symbol.fill, p);
    let drawn = with_pen(filled, geometry, symbol.pen, view, p);
    with_marker(drawn, geometry, symbol.marker, view, p)
}

/// A pixel with the fill on it, where some polygon has `p` inside.
fn with_fill(pixel: Rgba, geometry: &Geometry, fill: Option<Rgba>, p: Point2) -> Rgba
    ensures { result ≡ laid_on pixel (fill_strokes p geometry.now fill) }
{
    match fill {
        Some(fill) => with_colour(pixel, is_covered(geometry, p), fill),
        None => pixel,
    }
}

/// A pixel with the pen on it: once where it hits rings, and once more where it hits lines.
fn with_pen(pixel: Rgba, geometry: &Geometry, pen: Option<Pen>, view: &View, p: Point2) -> Rgba
    ensures { result ≡ laid_on pixel (pen_strokes view.now p geometry.now pen) }
{
    match pen {
        Some(pen) => with_paths(pixel, geometry, pen.colour, half_side(view, pen.side()), p),
        None => pixel,
    }
}

/// A pixel with a colour on it where the pen of half-width `r` hits rings, and once more where it hits lines.
#[tactic(auto, using(crate::proofs::LayLemmas::laid_more))]
fn with_paths(pixel: Rgba, geometry: &Geometry, colour: Rgba, r: i64, p: Point2) -> Rgba
    requires { IsRadius r }
    ensures { result ≡ laid_on pixel
        (laid_where (hits_rings r p geometry.now) colour ++ laid_where (hits_lines r p geometry.now) colour) }
{
    let edged = with_colour(pixel, hits_rings(geometry, r, p), colour);
    with_colour(edged, hits_lines(geometry, r, p), colour)
}

/// A pixel with the marker on it, where it covers `p` from some point.
fn with_marker(
    pixel: Rgba,
    geometry: &Geometry,
    marker: Option<Marker>,
    view: &View,
    p: Point2,
) -> Rgba
    ensures { result ≡ laid_on pixel (marker_strokes view.now p geometry.now marker) }
{
    let Some(marker) = marker else {
        return pixel;
    };
    let r = half_side(view, marker.side());
    with_colour(
        pixel,
        is_marked(geometry, marker.shape, r, p),
        marker.colour,
    )
}

/// A pixel with a colour on it, where something is hit.
fn with_colour(pixel: Rgba, is_hit: bool, colour: Rgba) -> Rgba
    ensures { result ≡ laid_on pixel (laid_where is_hit colour) }
{
    if is_hit { over(colour, pixel) } else { pixel }
}
