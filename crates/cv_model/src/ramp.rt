//! The colours of a grid's numbers.

ghost use Rattle.std.specs.Prelude.{◌≡◌};

use crate::colour::Rgba;
use crate::sequence::Sequence;
use std::marker::Model;

/// How a ramp goes from its stops to a colour.
#[derive(Clone, Copy, Debug, PartialEq, Eq)]
pub enum RampKind {
    /// The colour of the stop of equal value.
    Exact,
    /// The colour of the first stop that isn't less.
    Discrete,
    /// Between the colours of two neighbours, by the distance from each.
    Linear,
}

/// A colour at a number.
#[derive(Clone, Copy, Debug, PartialEq, Eq)]
pub struct Stop {
    /// The number, in millionths, from -10^15 to 10^15.
    pub value: i64,
    /// The colour there.
    pub colour: Rgba,
}

/// The stops of a ramp.
pub type StopList = Sequence<Stop>;

/// The colours of a grid's numbers, seen as a kind and its stops.
///
/// It keeps that there are 1 to 256 stops, that their values ascend strictly, and that these are in range.
#[derive(Drop)]
pub struct Ramp {
    kind: RampKind,
    stops: StopList,
}

impl Model for Ramp {
    ghost use Rattle.cv_model.specs.Ramps.{RampParts, IsRamp};

    ghost Value = { RampParts };

    ghost view = { λ r. record { kind = r.kind; stops = r.stops } };

    ghost invariant = { λ r. IsRamp (record { kind = r.kind; stops = r.stops }) };
}

impl Ramp {
    ghost use Rattle.cv_model.specs.Ramps.{IsRamp};

    /// The ramp of these parts.
    pub fn of(kind: RampKind, stops: StopList) -> Ramp
        requires { IsRamp (record { kind = kind; stops = stops }) }
        ensures { result ≡ record { kind = kind; stops = stops } }
    {
        Ramp { kind, stops }
    }

    /// How it goes from its stops to a colour.
    pub fn kind(&self) -> RampKind
        ensures { result ≡ self.now.kind }
    {
        self.kind
    }

    /// Its stops, by ascending values.
    pub fn stops(&self) -> &[Stop]
        ensures stops { result.now ≡ self.now.stops }
        ensures kept { IsRamp self.now }
    {
        self.stops.as_slice()
    }
}
