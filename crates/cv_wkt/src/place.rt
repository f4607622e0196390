//! Where a text stands between two tokens.

ghost use Rattle.std.specs.Prelude.{◌≡◌, if◌then◌else◌};
ghost use Rattle.cv_wkt.specs.Grammar.{group_of, item, Many, One, Several, many};
ghost use Rattle.cv_wkt.specs.Reader.{behind_word};
ghost use Rattle.cv_wkt.specs.Refusals.{refusal, cause_of, not_a_name, not_a_coordinate};

use crate::kind::{Kind, Word};
use cv_decimal::Fixed;
use cv_model::WktError;

/// A list in parentheses.
#[derive(Clone, Copy)]
pub enum Frame {
    /// The one point of `POINT`.
    OnePoint,
    /// The one point of a member of `MULTIPOINT`.
    OneMember,
    /// The points of a line.
    LinePoints,
    /// The points of a ring.
    RingPoints,
    /// The members of `MULTIPOINT`.
    Members,
    /// The lines of `MULTILINESTRING`.
    Lines,
    /// The rings of a polygon.
    Rings,
    /// The polygons of `MULTIPOLYGON`.
    Polygons,
    /// The geometries of `GEOMETRYCOLLECTION`.
    Geometries,
}

/// A part of a text.
#[derive(Clone, Copy)]
pub enum Sort {
    /// A point's ordinates.
    Ordinates,
    /// A member of `MULTIPOINT`.
    Member,
    /// `EMPTY`, or a list in parentheses.
    Group(Frame),
    /// A whole geometry.
    Geometry,
}

/// What may come next.
#[derive(Clone, Copy)]
pub enum Now {
    /// Anything that a text begins with.
    Start,
    /// What follows `SRID`.
    BehindSrid,
    /// What follows `SRID=`.
    BehindEquals,
    /// What follows the digits of an SRID.
    BehindDigits,
    /// A part of this sort.
    Begin(Sort),
    /// What follows a geometry's word, which says what list it has.
    BehindWord(Frame),
    /// The y of a point.
    BehindX,
    /// What follows an item of a list, with so many ordinates as may still come.
    Behind(u8),
}

/// Why a token is refused.
#[derive(Clone, Copy)]
pub enum Cause {
    /// It can't stand there.
    Unexpected,
    /// A curve's or a surface's word in place of a geometry's.
    Curved,
    /// An x or y beyond the range.
    Beyond,
    /// A collection within eight.
    Deep,
    /// One vertex too many.
    Full,
}

impl Word {
    /// What list follows the word.
    pub fn group(self) -> Frame
        ensures { result ≡ group_of self }
    {
        match self {
            Word::Point => Frame::OnePoint,
            Word::LineString => Frame::LinePoints,
            Word::Polygon => Frame::Rings,
            Word::MultiPoint => Frame::Members,
            Word::MultiLineString => Frame::Lines,
            Word::MultiPolygon => Frame::Polygons,
            Word::Collection => Frame::Geometries,
        }
    }

    /// What follows the word.
    pub fn behind(self, joined: bool) -> Now
        ensures { result ≡ behind_word self joined }
    {
        if joined {
            Now::Begin(Sort::Group(self.group()))
        } else {
            Now::BehindWord(self.group())
        }
    }
}

impl Frame {
    /// What the list consists of.
    pub fn item(self) -> Sort
        ensures { result ≡ item self }
    {
        match self {
            Frame::OnePoint | Frame::OneMember | Frame::LinePoints | Frame::RingPoints => {
                Sort::Ordinates
            }
            Frame::Members => Sort::Member,
            Frame::Lines => Sort::Group(Frame::LinePoints),
            Frame::Rings => Sort::Group(Frame::RingPoints),
            Frame::Polygons => Sort::Group(Frame::Rings),
            Frame::Geometries => Sort::Geometry,
        }
    }

    /// May the list have more than one item.
    pub fn repeats(self) -> bool
        ensures { many self ≡ (if result then Several else One) }
    {
        match self {
            Frame::OnePoint | Frame::OneMember => false,
            _ => true,
        }
    }
}

impl Cause {
    /// The refusal at an offset.
    pub fn at(self, offset: u64) -> WktError
        ensures { result ≡ refusal self offset }
    {
        match self {
            Cause::Unexpected => WktError::Syntax(offset),
            Cause::Curved => WktError::Curve(offset),
            Cause::Beyond => WktError::OutOfRange(offset),
            Cause::Deep => WktError::TooDeep,
            Cause::Full => WktError::TooMany,
        }
    }
}

fn not_a_name(kind: Kind) -> Cause
    ensures { result ≡ not_a_name kind }
{
    match kind {
        Kind::Curve => Cause::Curved,
        _ => Cause::Unexpected,
    }
}

fn not_a_coordinate(kind: Kind) -> Cause
    ensures { result ≡ not_a_coordinate kind }
{
    match kind {
        Kind::Number(Fixed::High, _) | Kind::Number(Fixed::Low, _) => Cause::Beyond,
        _ => Cause::Unexpected,
    }
}

impl Now {
    /// Why a token can't stand here, where it can't.
    pub fn cause(self, kind: Kind) -> Cause
        ensures { result ≡ cause_of self kind }
    {
        match self {
            Now::Start | Now::Begin(Sort::Geometry) => not_a_name(kind),
            Now::Begin(Sort::Ordinates) | Now::Begin(Sort::Member) | Now::BehindX => {
                not_a_coordinate(kind)
            }
            _ => Cause::Unexpected,
        }
    }
}
