//! The words of a command, read by hand.

ghost use Rattle.std.specs.Prelude.{◌≡◌, ℕ, ◌≤◌, ◌↔◌, ◌∷◌, [], IfSome, IsTrue, length, codes, ℤ};
ghost use Rattle.std.specs.List.{list_all};
ghost use Rattle.std.specs.Option.{SomeIff};
ghost use Rattle.std.specs.Str.Parse.{AllDigits, digits_value};
ghost use Rattle.cv_model.specs.declared.colour.Rgb.{Rgb};
ghost use Rattle.cv_model.specs.Positions.{Rectangle, IsCoordinate};
ghost use Rattle.cv_model.specs.Views.{PixelGrid};
ghost use Rattle.cv_top.specs.declared.orders.Order.{Order};
ghost use Rattle.cv_top.specs.Parts.{QuickParts, CheckParts, PaintParts};
ghost use Rattle.cv_top.specs.Words.{IsCount, IsColour, IsValueOf, IsExtentOf, IsViewOf, IsQuick};
ghost use Rattle.cv_top.specs.Words.{IsCheck, IsPaint, IsOrder};
ghost use Rattle.cv_words.specs.Plain.{is_plain};

use crate::alone::session_order;
use crate::orders::{CheckOrder, Order, PaintOrder, QuickOrder};
use cv_decimal::Fixed;
use cv_geom::view_of;
use cv_model::{Extent, Rgb, Text, View};

/// What the words ask for, if they are a command's form.
pub fn order_of(words: &[Text]) -> Option<Order<'_>>
    ensures found { IfSome result (λ order. IsOrder words.now order) }
    ensures only { (order : Order) → IsOrder words.now order → result ≡ Some order }
{
    if let Some(order) = check_order(words) {
        return Some(Order::Check(order));
    }
    if let Some(order) = paint_order(words) {
        return Some(Order::Paint(order));
    }
    match session_order(words) {
        Some(order) => Some(Order::Session(order)),
        None => Some(Order::Quick(quick_order(words)?)),
    }
}

/// Whether a word may name a file: it isn't empty, and doesn't begin with a hyphen.
pub(crate) fn is_plain(word: &[u8]) -> bool
    ensures { result ≡ is_plain word.now }
{
    match word.first() {
        Some(byte) => *byte != b'-',
        None => false,
    }
}

/// Whether a word is the command `check`.
fn is_check(word: &str) -> bool
    ensures { IsTrue result ↔ (word.now ≡ codes "check") }
{
    word == "check"
}

/// What the words ask for, if they are `check` and the name of a project.
fn check_order(words: &[Text]) -> Option<CheckOrder<'_>>
    ensures found { IfSome result (λ order. IsCheck words.now order) }
    ensures only { (order : CheckParts) → IsCheck words.now order → result ≡ Some order }
{
    let [command, project] = words else {
        return None;
    };
    let project = project.as_str();
    if is_check(command.as_str()) && is_plain(project.as_bytes()) {
        Some(CheckOrder { project })
    } else {
        None
    }
}

/// Whether a word is the command `paint`.
fn is_paint(word: &str) -> bool
    ensures { IsTrue result ↔ (word.now ≡ codes "paint") }
{
    word == "paint"
}

/// Whether three words may name files.
fn are_plain(project: &str, number: &str, out: &str) -> bool
    ensures { result ≡ list_all is_plain (project.now ∷ number.now ∷ out.now ∷ []) }
{
    is_plain(project.as_bytes()) && is_plain(number.as_bytes()) && is_plain(out.as_bytes())
}

/// What the words ask for, if they are `paint`, the name of a project, the number of a canvas and the name of
/// a picture.
fn paint_order(words: &[Text]) -> Option<PaintOrder<'_>>
    ensures found { IfSome result (λ order. IsPaint words.now order) }
    ensures only { (order : PaintParts) → IsPaint words.now order → result ≡ Some order }
{
    let [command, project, number, out] = words else {
        return None;
    };
    let (project, number, out) = (project.as_str(), number.as_str(), out.as_str());
    if !is_paint(command.as_str()) || !are_plain(project, number, out) {
        return None;
    }
    let canvas = whole(number)?;
    Some(PaintOrder {
        project,
        number,
        canvas,
        out,
    })
}

/// What the words ask for, if they are `quick` and its nine words: two names, a size in pixels, an extent in
/// map units and six hexadecimal digits.
fn quick_order(words: &[Text]) -> Option<QuickOrder<'_>>
    ensures found { IfSome result (λ order. IsQuick words.now order) }
    ensures only { (order : QuickParts) → IsQuick words.now order → result ≡ Some order }
{
    let [command, csv, out, w, h, xmin, ymin, xmax, ymax, fill] = words else {
        return None;
    };
    if !is_quick(command.as_str()) {
        return None;
    }
    let extent = extent(xmin.as_str(), ymin.as_str(), xmax.as_str(), ymax.as_str())?;
    let view = sized(w.as_str(), h.as_str(), extent)?;
    let fill = colour(fill.as_str().as_bytes())?;
    let (csv, out) = (csv.as_str(), out.as_str());
    Some(QuickOrder {
        csv,
        out,
        view,
        fill,
    })
}

/// Whether a word is the command `quick`.
fn is_quick(word: &str) -> bool
    ensures { IsTrue result ↔ (word.now ≡ codes "quick") }
{
    word == "quick"
}

/// A word as a decimal that is a value, in millionths of a map unit.
fn number(word: &str) -> Option<i64>
    ensures found { IfSome result (λ z. IsValueOf word.now z) }
    ensures only { (z : ℤ) → IsValueOf word.now z → result ≡ Some z }
    ensures range { IfSome result (λ z. IsCoordinate z) }
{
    millionths(cv_decimal::read(word.as_bytes()).ok()?)
}

/// The millionths of a decimal that is a value.
fn millionths(decimal: Fixed) -> Option<i64>
    ensures found { IfSome result (λ z. decimal ≡ Fixed.Value z) }
    ensures only { (z : ℤ) → decimal ≡ Fixed.Value z → result ≡ Some z }
{
    match decimal {
        Fixed::Value(millionths) => Some(millionths),
        Fixed::High | Fixed::Low | Fixed::NotNumber => None,
    }
}

/// Four words as an extent.
fn extent(xmin: &str, ymin: &str, xmax: &str, ymax: &str) -> Option<Extent>
    ensures found { IfSome result (λ e. IsExtentOf xmin.now ymin.now xmax.now ymax.now e) }
    ensures only { (e : Rectangle) → IsExtentOf xmin.now ymin.now xmax.now ymax.now e → result ≡ Some e }
{
    let xmin = number(xmin)?;
    let ymin = number(ymin)?;
    let xmax = number(xmax)?;
    let ymax = number(ymax)?;
    Some(rectangle(xmin, ymin, xmax, ymax))
}

/// The extent of four coordinates.
fn rectangle(xmin: i64, ymin: i64, xmax: i64, ymax: i64) -> Extent
    requires west_in { IsCoordinate xmin }
    requires south_in { IsCoordinate ymin }
    requires east_in { IsCoordinate xmax }
    requires north_in { IsCoordinate ymax }
    ensures { result ≡ record { xmin = xmin; ymin = ymin; xmax = xmax; ymax = ymax } }
{
    Extent {
        xmin,
        ymin,
        xmax,
        ymax,
    }
}

/// Two words as a size, and the view of the extent at it.
fn sized(w: &str, h: &str, extent: Extent) -> Option<View>
    ensures found { IfSome result (λ v. IsViewOf w.now h.now extent v) }
    ensures only { (v : PixelGrid) → IsViewOf w.now h.now extent v → result ≡ Some v }
{
    let w = whole(w)?;
    let h = whole(h)?;
    view_of(extent, w, h).ok()
}

/// One to ten digits as a number of 32 bits. One that is too large is none.
pub(crate) fn whole(word: &str) -> Option<u32>
    ensures found { IfSome result (λ n. IsCount word.now n) }
    ensures only { (n : ℕ) → n ≤ 4294967295 → IsCount word.now n → result ≡ Some n }
{
    u32::try_from(count(word)?).ok()
}

/// One to ten digits as a number.
fn count(word: &str) -> Option<u64>
    ensures found { IfSome result (λ n. IsCount word.now n) }
    ensures only { (n : ℕ) → IsCount word.now n → result ≡ Some n }
{
    if word.len() > 10 || word.as_bytes().first() == Some(&b'+') {
        return None;
    }
    word.parse::<u64>().ok()
}

/// Two hexadecimal digits, in either case, as a number.
fn channel(high: u8, low: u8) -> Option<u8>
    ensures { SomeIff result (AllDigits 16 (high ∷ low ∷ [])) (digits_value 16 (high ∷ low ∷ [])) }
{
    let high = char::from(high).to_digit(16)?;
    let low = char::from(low).to_digit(16)?;
    Some((16 * high + low) as u8)
}

/// Six hexadecimal digits, in either case, as red, green and blue.
fn colour(word: &[u8]) -> Option<Rgb>
    ensures found { IfSome result (λ c. IsColour word.now c) }
    ensures only { (c : Rgb) → IsColour word.now c → result ≡ Some c }
{
    match word {
        [r1, r2, g1, g2, b1, b2] => {
            let r = channel(*r1, *r2)?;
            let g = channel(*g1, *g2)?;
            let b = channel(*b1, *b2)?;
            Some(Rgb { r, g, b })
        }
        _ => None,
    }
}
