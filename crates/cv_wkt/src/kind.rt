//! The kinds of tokens.

ghost use Rattle.std.specs.Prelude.{◌≡◌, ◌∷◌, [], map, Some, IfSome};
ghost use Rattle.cv_wkt.specs.Kind.{is_sign, is_tag, tag_in, named, found_in, geometry_kind, keyword_kind};
ghost use Rattle.cv_wkt.specs.Kind.{word_kind, kind_of, IsKindInRange};
ghost use Rattle.std.specs.Char.{is_ascii_digit};
ghost use Rattle.std.specs.List.{list_all};
ghost use Rattle.cv_model.specs.Positions.{IsCoordinate};
ghost use Rattle.cv_number.specs.Reader.{decimal_of};
ghost use Rattle.cv_number.specs.declared.fixed.Fixed.TheVariants.{Value};

use crate::short::coordinate;
use cv_decimal::Fixed;

/// The words of geometries.
#[derive(Clone, Copy)]
pub enum Word {
    Point,
    LineString,
    Polygon,
    MultiPoint,
    MultiLineString,
    MultiPolygon,
    Collection,
}

/// The words of geometries, with what they name.
const GEOMETRIES: [(&[u8], Word); 7] = [
    (b"POINT", Word::Point),
    (b"LINESTRING", Word::LineString),
    (b"POLYGON", Word::Polygon),
    (b"MULTIPOINT", Word::MultiPoint),
    (b"MULTILINESTRING", Word::MultiLineString),
    (b"MULTIPOLYGON", Word::MultiPolygon),
    (b"GEOMETRYCOLLECTION", Word::Collection),
];

/// The words of curves and surfaces, which are refused.
const REFUSED: [(&[u8], ()); 10] = [
    (b"CIRCULARSTRING", ()),
    (b"COMPOUNDCURVE", ()),
    (b"CURVEPOLYGON", ()),
    (b"MULTICURVE", ()),
    (b"MULTISURFACE", ()),
    (b"CURVE", ()),
    (b"SURFACE", ()),
    (b"POLYHEDRALSURFACE", ()),
    (b"TIN", ()),
    (b"TRIANGLE", ()),
];

/// What a token is.
#[derive(Clone, Copy)]
pub enum Kind {
    /// `(`
    Open,
    /// `)`
    Close,
    /// `,`
    Comma,
    /// `;`
    Semicolon,
    /// `=`
    Equals,
    /// `SRID`
    Srid,
    /// `EMPTY`
    Empty,
    /// `Z`, `M` or `ZM` apart from a word.
    Tag,
    /// A geometry's word, and whether a tag is joined to it.
    Name(Word, bool),
    /// The word of a curve or a surface.
    Curve,
    /// A decimal, and whether it consists of digits alone.
    Number(Fixed, bool),
    /// A token that stands nowhere.
    Other,
}

/// Is a byte a token by itself.
pub fn is_sign(byte: u8) -> bool
    ensures { result ≡ is_sign byte }
{
    byte == b'(' || byte == b')' || byte == b',' || byte == b';' || byte == b'='
}

fn is_tag(bytes: &[u8]) -> bool
    ensures { result ≡ is_tag bytes.now }
{
    b"Z".eq_ignore_ascii_case(bytes)
        || b"M".eq_ignore_ascii_case(bytes)
        || b"ZM".eq_ignore_ascii_case(bytes)
}

/// Whether a tag stands there, behind a word.
fn tag_in(bytes: &[u8]) -> Option<bool>
    ensures { result ≡ tag_in bytes.now }
{
    if bytes.is_empty() {
        return Some(false);
    }
    is_tag(bytes).then_some(true)
}

/// Whether a name has a tag joined to it; `None` where it isn't this name.
fn named(name: &[u8], bytes: &[u8]) -> Option<bool>
    ensures { result ≡ named name.now bytes.now }
{
    if bytes.len() < name.len() {
        return None;
    }
    let parts = bytes.split_at(name.len());
    if !name.eq_ignore_ascii_case(parts.0) {
        return None;
    }
    tag_in(parts.1)
}

/// What the first word of a table stands for that a token is, and whether a tag is joined to it.
fn found_in<T: Copy>(table: &[(&[u8], T)], bytes: &[u8]) -> Option<(T, bool)>
    ensures { result ≡ found_in (map (λ entry. (entry.0.now, entry.1)) table.now) bytes.now }
{
    for entry in table {
        if let Some(joined) = named(entry.0, bytes) {
            return Some((entry.1, joined));
        }
    }
    None
}

/// The kind of a geometry's word, or of a word that is refused. A call of its own, since within the loop over
/// all tokens the search would take registers from the numbers.
#[inline(never)]
#[tactic(auto, unfolding(crate::specs::Kind::geometry_kind))]
fn geometry_kind(bytes: &[u8]) -> Kind
    ensures kind { result ≡ geometry_kind bytes.now }
    ensures range { IsKindInRange result }
{
    if let Some(found) = found_in(&GEOMETRIES, bytes) {
        return Kind::Name(found.0, found.1);
    }
    match found_in(&REFUSED, bytes) {
        Some(_) => Kind::Curve,
        None => Kind::Other,
    }
}

/// The kind of a token that is neither a decimal nor a sign.
#[tactic(auto, unfolding(crate::specs::Kind::keyword_kind))]
fn keyword_kind(bytes: &[u8]) -> Kind
    ensures kind { result ≡ keyword_kind bytes.now }
    ensures range { IsKindInRange result }
{
    if b"SRID".eq_ignore_ascii_case(bytes) {
        Kind::Srid
    } else if b"EMPTY".eq_ignore_ascii_case(bytes) {
        Kind::Empty
    } else if is_tag(bytes) {
        Kind::Tag
    } else {
        geometry_kind(bytes)
    }
}

/// The kind of a token that is no decimal.
#[tactic(auto, unfolding(crate::specs::Kind::word_kind))]
fn word_kind(bytes: &[u8]) -> Kind
    ensures kind { result ≡ word_kind bytes.now }
    ensures range { IsKindInRange result }
{
    if b"(".eq_ignore_ascii_case(bytes) {
        Kind::Open
    } else if b")".eq_ignore_ascii_case(bytes) {
        Kind::Close
    } else if b",".eq_ignore_ascii_case(bytes) {
        Kind::Comma
    } else if b";".eq_ignore_ascii_case(bytes) {
        Kind::Semicolon
    } else if b"=".eq_ignore_ascii_case(bytes) {
        Kind::Equals
    } else {
        keyword_kind(bytes)
    }
}

fn is_digits(bytes: &[u8]) -> bool
    ensures { result ≡ list_all is_ascii_digit bytes.now }
{
    bytes.iter().all(|byte| byte.is_ascii_digit())
}

/// The value of a token that is a coordinate as most are written; any other may be one too.
fn short_value(bytes: &[u8]) -> Option<i64>
    ensures value { IfSome result (λ z. decimal_of bytes.now ≡ Some (Value z)) }
    ensures range { IfSome result IsCoordinate }
{
    let spelt = coordinate(bytes)?;
    (spelt.len == bytes.len()).then_some(spelt.millionths)
}

/// The kind of a byte that is a token by itself.
fn sign_kind(byte: u8) -> Option<Kind>
    ensures kind { IfSome result (λ kind. kind ≡ kind_of (byte ∷ [])) }
    ensures range { IfSome result IsKindInRange }
{
    match byte {
        b'(' => Some(Kind::Open),
        b')' => Some(Kind::Close),
        b',' => Some(Kind::Comma),
        b';' => Some(Kind::Semicolon),
        b'=' => Some(Kind::Equals),
        _ => None,
    }
}

/// The kind of a token, given by its bytes.
#[tactic(auto, unfolding(crate::specs::Kind::kind_of))]
pub fn classify(bytes: &[u8]) -> Kind
    ensures kind { result ≡ kind_of bytes.now }
    ensures range { IsKindInRange result }
{
    if let [byte] = bytes
        && let Some(kind) = sign_kind(*byte)
    {
        return kind;
    }
    if let Some(value) = short_value(bytes) {
        return Kind::Number(Fixed::Value(value), is_digits(bytes));
    }
    match cv_decimal::read(bytes) {
        Ok(value) => Kind::Number(value, is_digits(bytes)),
        Err(_) => word_kind(bytes),
    }
}
