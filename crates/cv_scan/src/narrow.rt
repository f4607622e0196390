//! Places of crossings in numbers of 64 bits, where they fit, so that the way to the row below is short.

ghost use Rattle.std.specs.Prelude.{◌≡◌, ℕ, ◌≤◌, ◌+◌, ◌^◌, IfSome, pos, ◌≤ℤ◌, ◌<ℤ◌, unsigned_abs};
ghost use Rattle.cv_model.specs.Positions.{Position};
ghost use Rattle.cv_model.specs.Views.{PixelGrid};
ghost use Rattle.cv_scan.specs.Narrow.{wide_place, wide_slope};
ghost use Rattle.cv_scan.specs.Terms.{IsPlace, IsSlope};

use crate::terms::{Place, Slope};

/// A `Place` whose parts have 64 bits.
#[derive(Clone, Copy, Debug, PartialEq, Eq)]
pub struct NarrowPlace {
    pub column: i64,
    pub over: i64,
}

/// A `Slope` whose parts have 64 bits.
#[derive(Clone, Copy, Debug, PartialEq, Eq)]
pub struct NarrowSlope {
    pub columns: i64,
    pub part: i64,
    pub whole: i64,
}

/// A place and a slope in numbers of 64 bits, if they fit. They don't only where the edge leads up by 2 ^ 63
/// over the side of a pixel or more, both in doubled millionths.
pub fn narrowed(place: Place, slope: &Slope) -> Option<(NarrowPlace, NarrowSlope)>
    requires over { pos 0 ≤ℤ place.over }
    requires less { place.over <ℤ slope.now.whole }
    requires part { pos 0 ≤ℤ slope.now.part }
    requires lesser { slope.now.part <ℤ slope.now.whole }
    ensures place { IfSome result (λ made. wide_place made.0 ≡ place) }
    ensures slope { IfSome result (λ made. wide_slope made.1 ≡ slope.now) }
{
    let whole = i64::try_from(slope.whole).ok()?;
    let place = NarrowPlace {
        column: place.column,
        over: place.over as i64,
    };
    let slope = NarrowSlope {
        columns: slope.columns,
        part: slope.part as i64,
        whole,
    };
    Some((place, slope))
}

/// The same place in longer numbers.
pub fn wide(place: NarrowPlace) -> Place
    ensures { result ≡ wide_place place }
{
    Place {
        column: place.column,
        over: i128::from(place.over),
    }
}

/// The place in the row below.
pub fn next_below(place: NarrowPlace, slope: &NarrowSlope) -> NarrowPlace
    requires over { pos 0 ≤ℤ place.over }
    requires part { pos 0 ≤ℤ slope.now.part }
    requires whole { pos 0 ≤ℤ slope.now.whole }
    requires near { unsigned_abs place.column ≤ 2 ^ 62 + 2 ^ 34 }
    requires few { unsigned_abs slope.now.columns ≤ 2 ^ 29 }
    ensures near { unsigned_abs result.column ≤ unsigned_abs place.column + 2 ^ 30 }
    ensures place { (v : PixelGrid) (a b : Position) (row : ℕ) → pos 1 ≤ℤ v.u
        → IsSlope v a b (wide_slope slope.now) → IsPlace v a b row (wide_place place)
        → IsPlace v a b (row + 1) (wide_place result) }
{
    let column = place.column + slope.columns;
    let over = place.over - slope.part;
    if over < 0 {
        NarrowPlace {
            column: column + 1,
            over: over + slope.whole,
        }
    } else {
        NarrowPlace { column, over }
    }
}
