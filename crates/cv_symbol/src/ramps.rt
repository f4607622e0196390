//! The colours of ramps.

ghost use Rattle.std.specs.Prelude.{◌≡◌, ◌+◌, ◌≤◌, ◌≤ℤ◌, ◌<ℤ◌, ℤ, All};
ghost use Rattle.cv_model.specs.Positions.{IsCoordinate};
ghost use Rattle.cv_model.specs.Views.{rise};
ghost use Rattle.cv_model.specs.Ramps.{ramp_of, first_colour, is_at, reaches, channel_between};
ghost use Rattle.cv_model.specs.Ramps.{colour_between, linear, linear_from};

use cv_model::{Cell, Ramp, RampKind, Rgba, Stop};

/// The colour of a cell without data, and of a number that no stop answers for.
const CLEAR: Rgba = Rgba {
    r: 0,
    g: 0,
    b: 0,
    a: 0,
};

/// The colour that a ramp gives to a cell.
///
/// Source: this project's own; between two stops each channel goes in proportion to the distances, rounded to
/// the nearest, a half upwards.
#[tactic(auto, unfolding(cv_model::specs::Ramps::ramp_of))]
pub fn ramp(ramp: &Ramp, cell: Cell) -> Rgba
    ensures { result ≡ ramp_of ramp.now cell }
{
    match cell {
        Cell::Value(number) => match ramp.kind() {
            RampKind::Exact => exact(ramp.stops(), number),
            RampKind::Discrete => discrete(ramp.stops(), number),
            RampKind::Linear => linear(ramp.stops(), number),
        },
        Cell::Void => CLEAR,
    }
}

/// The colour of the stop at the number.
fn exact(stops: &[Stop], number: i64) -> Rgba
    ensures { result ≡ first_colour (is_at number) stops.now }
{
    for stop in stops {
        if stop.value == number {
            return stop.colour;
        }
    }
    CLEAR
}

/// The colour of the first stop that isn't below the number.
fn discrete(stops: &[Stop], number: i64) -> Rgba
    ensures { result ≡ first_colour (reaches number) stops.now }
{
    for stop in stops {
        if number <= stop.value {
            return stop.colour;
        }
    }
    CLEAR
}

/// The first colour below the first stop, the last one from the last stop on, and a mixture between two.
fn linear(stops: &[Stop], number: i64) -> Rgba
    requires in_range { All (λ s. IsCoordinate s.value) stops.now }
    ensures { result ≡ linear stops.now number }
{
    match stops.split_first() {
        Some((first, rest)) => {
            if number < first.value {
                first.colour
            } else {
                from(*first, rest, number)
            }
        }
        None => CLEAR,
    }
}

/// The colour from a stop on.
fn from(first: Stop, rest: &[Stop], number: i64) -> Rgba
    requires first { IsCoordinate first.value }
    requires rest { All (λ s. IsCoordinate s.value) rest.now }
    requires behind { first.value ≤ℤ number }
    ensures { result ≡ linear_from first rest.now number }
{
    let mut below = first;
    for stop in rest {
        if number < stop.value {
            return between(below, *stop, number);
        }
        below = *stop;
    }
    below.colour
}

/// The colour between two stops.
fn between(below: Stop, above: Stop, number: i64) -> Rgba
    requires below { IsCoordinate below.value }
    requires above { IsCoordinate above.value }
    requires behind { below.value ≤ℤ number }
    requires before { number <ℤ above.value }
    ensures { result ≡ colour_between below above number }
{
    let from_below = distance(below.value, number);
    let from_above = distance(number, above.value);
    Rgba {
        r: channel(from_below, from_above, below.colour.r, above.colour.r),
        g: channel(from_below, from_above, below.colour.g, above.colour.g),
        b: channel(from_below, from_above, below.colour.b, above.colour.b),
        a: channel(from_below, from_above, below.colour.a, above.colour.a),
    }
}

/// How far `b` lies above `a`, both from -10^15 to 10^15.
fn distance(a: i64, b: i64) -> u64
    requires a { IsCoordinate a }
    requires b { IsCoordinate b }
    requires order { a ≤ℤ b }
    ensures value { result ≡ rise a b }
    ensures most { result ≤ 2000000000000000 }
{
    (b - a) as u64
}

/// A channel between two, in proportion to the distances.
fn channel(below: u64, above: u64, c0: u8, c1: u8) -> u8
    requires below { below ≤ 2000000000000000 }
    requires above { above ≤ 2000000000000000 }
    requires apart { 1 ≤ below + above }
    ensures { result ≡ channel_between below above c0 c1 }
{
    let weighed = u64::from(c0) * above + u64::from(c1) * below;
    let distance = below + above;
    ((2 * weighed + distance) / (2 * distance)) as u8
}
