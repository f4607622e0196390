//! Styles, with their classes and stops.

ghost use Rattle.std.specs.Prelude.{◌≡◌, int_lt, true, false, if◌then◌else◌, IfOk, OnOk, map};
ghost use Rattle.cv_model.specs.Positions.{IsCoordinate};
ghost use Rattle.cv_model.specs.ProjectFiles.{IsName, IsRange, IsStyle, is_ramp};
ghost use Rattle.cv_project.specs.Answers.{Answers};
ghost use Rattle.cv_project.specs.Fields.{no_others};
ghost use Rattle.cv_project.specs.Seen.{seen};
ghost use Rattle.cv_project.specs.Styles.{column_of, names_twice, class_of, range_of, stop_of, ascends};
ghost use Rattle.cv_project.specs.Styles.{single_of, categorised_of, graduated_of, ramp_of, fits, fitting};
ghost use Rattle.cv_project.specs.Styles.{style_of};

use crate::kind::{AnyText, Colour, Kind, Name, OneOf};
use crate::list::{Each, ListOf};
use crate::node::Node;
use crate::ranges::{COORDINATE, MOST_CLASSES, STOPS};
use crate::refusal::Refusal;
use crate::symbol::SymbolKind;
use crate::words::StyleKind;
use cv_model::{Class, Classes, Field, Ramp, Range, Stop, Style};

/// The column that a style reads: by `field`, or else by `joined`.
#[tactic(auto, unfolding(crate::specs::Styles::column_of))]
fn column(node: &Node<'_>) -> Result<Field, Refusal>
    ensures exact { Answers result (column_of (seen node.now)) }
    ensures kept { IfOk result (λ field. IsName field.name) }
{
    if let Some(name) = node.optional("field", &Name)? {
        let joined = false;
        return Ok(Field { joined, name });
    }
    match node.optional("joined", &Name)? {
        Some(name) => {
            let joined = true;
            Ok(Field { joined, name })
        }
        None => Err(node.missing("field")),
    }
}

/// Whether `field` and `joined` stand side by side.
fn names_twice(node: &Node<'_>) -> bool
    ensures { result ≡ names_twice (seen node.now) }
{
    node.field("field").is_some() && node.field("joined").is_some()
}

/// Whether a style has no keys but the first names where `joined` stands beside `field`, and else no keys but
/// the second.
fn only_columns(node: &Node<'_>, twice: &[&str], once: &[&str]) -> Result<(), Refusal>
    ensures { Answers result
        (no_others (if names_twice (seen node.now)
        then map (λ n. n.now) twice.now else map (λ n. n.now) once.now) (seen node.now)) }
{
    if names_twice(node) {
        node.no_others(twice)
    } else {
        node.no_others(once)
    }
}

/// A class of a categorised style.
#[derive(Drop)]
pub struct ClassKind;

impl Kind for ClassKind {
    type Made = Class;

    ghost made = { λ _. class_of };

    ghost keeps = { λ _ _. Unit {0} };

    #[tactic(auto, unfolding(crate::specs::Styles::class_of))]
    fn read(&self, node: &Node<'_>) -> Result<Class, Refusal> {
        node.object()?;
        let value = node.required("value", &AnyText)?;
        let symbol = node.required("symbol", &SymbolKind)?;
        node.no_others(&["symbol", "value"])?;
        Ok(Class { value, symbol })
    }
}

/// A class of a graduated style.
#[derive(Drop)]
pub struct RangeKind;

impl Kind for RangeKind {
    type Made = Range;

    ghost made = { λ _. range_of };

    ghost keeps = { λ _. IsRange };

    #[tactic(auto, unfolding(crate::specs::Styles::range_of))]
    fn read(&self, node: &Node<'_>) -> Result<Range, Refusal> {
        node.object()?;
        let lower = node.required("lower", &COORDINATE)?;
        let upper = node.required("upper", &COORDINATE)?;
        let symbol = node.required("symbol", &SymbolKind)?;
        node.no_others(&["lower", "symbol", "upper"])?;
        Ok(Range {
            lower,
            upper,
            symbol,
        })
    }
}

/// A stop of a ramp.
#[derive(Drop)]
pub struct StopKind;

impl Kind for StopKind {
    type Made = Stop;

    ghost made = { λ _. stop_of };

    ghost keeps = { λ _ stop. IsCoordinate stop.value };

    #[tactic(auto, unfolding(crate::specs::Styles::stop_of))]
    fn read(&self, node: &Node<'_>) -> Result<Stop, Refusal> {
        node.object()?;
        let value = node.required("value", &COORDINATE)?;
        let colour = node.required("colour", &Colour)?;
        node.no_others(&["colour", "value"])?;
        Ok(Stop { value, colour })
    }
}

/// One symbol.
#[tactic(auto, unfolding(crate::specs::Styles::single_of))]
fn single(node: &Node<'_>) -> Result<Style, Refusal>
    ensures exact { Answers result (single_of (seen node.now)) }
    ensures kept { IfOk result IsStyle }
    ensures plain { IfOk result (λ style. is_ramp style ≡ false) }
{
    let symbol = node.required("symbol", &SymbolKind)?;
    node.no_others(&["kind", "symbol"])?;
    Ok(Style::Single(symbol))
}

/// A symbol for each text.
#[tactic(auto, unfolding(crate::specs::Styles::categorised_of))]
fn categorised(node: &Node<'_>) -> Result<Style, Refusal>
    ensures exact { Answers result (categorised_of (seen node.now)) }
    ensures kept { IfOk result IsStyle }
    ensures plain { IfOk result (λ style. is_ramp style ≡ false) }
{
    let column = column(node)?;
    let classes = ListOf {
        least: 0,
        most: MOST_CLASSES,
        of: Each(ClassKind),
    };
    let classes = node.required("classes", &classes)?;
    let fallback = node.optional("fallback", &SymbolKind)?;
    only_columns(
        node,
        &["field", "classes", "fallback", "kind"],
        &["field", "joined", "classes", "fallback", "kind"],
    )?;
    Ok(Style::Categorised(column, Classes::of(classes), fallback))
}

/// A symbol for each range of numbers.
#[tactic(auto, unfolding(crate::specs::Styles::graduated_of))]
fn graduated(node: &Node<'_>) -> Result<Style, Refusal>
    ensures exact { Answers result (graduated_of (seen node.now)) }
    ensures kept { IfOk result IsStyle }
    ensures plain { IfOk result (λ style. is_ramp style ≡ false) }
{
    let column = column(node)?;
    let classes = ListOf {
        least: 0,
        most: MOST_CLASSES,
        of: Each(RangeKind),
    };
    let classes = node.required("classes", &classes)?;
    only_columns(
        node,
        &["field", "classes", "kind"],
        &["field", "joined", "classes", "kind"],
    )?;
    Ok(Style::Graduated(column, Classes::of(classes)))
}

/// Whether a stop's value is above a number.
fn is_above(stop: &Stop, value: i64) -> bool
    ensures { result ≡ int_lt value stop.now.value }
{
    value < stop.value
}

/// Whether each stop's value is above the one before it.
fn ascends(stops: &[Stop]) -> bool
    ensures { result ≡ ascends stops.now }
{
    let Some((first, rest)) = stops.split_first() else {
        return true;
    };
    let mut last = first.value;
    for stop in rest {
        if !is_above(stop, last) {
            return false;
        }
        last = stop.value;
    }
    true
}

/// A colour for each number of a grid.
#[tactic(auto, unfolding(crate::specs::Styles::ramp_of))]
fn ramp(node: &Node<'_>) -> Result<Style, Refusal>
    ensures exact { Answers result (ramp_of (seen node.now)) }
    ensures kept { IfOk result IsStyle }
    ensures ramp { IfOk result (λ style. is_ramp style ≡ true) }
{
    let kind = node.required("ramp", &OneOf::WORDS)?;
    let stops = ListOf {
        least: STOPS.least,
        most: STOPS.most,
        of: Each(StopKind),
    };
    let stops = node.required("stops", &stops)?;
    node.tested(ascends(stops.as_slice()), "stops")?;
    node.no_others(&["kind", "ramp", "stops"])?;
    Ok(Style::Ramp(Ramp::of(kind, stops)))
}

/// Whether a kind of style fits a source, which is a grid or not.
fn fits(grid: bool, kind: StyleKind) -> bool
    ensures { result ≡ fits grid kind }
{
    match kind {
        StyleKind::Ramp => grid,
        StyleKind::Single | StyleKind::Categorised | StyleKind::Graduated => !grid,
    }
}

/// Whether a node's style is of a kind that fits the source.
#[tactic(auto, unfolding(crate::specs::Styles::fitting))]
fn fitting(node: &Node<'_>, grid: bool, kind: StyleKind) -> Result<(), Refusal>
    ensures exact { Answers result (fitting grid kind (seen node.now)) }
    ensures held { OnOk result (fits grid kind ≡ true) }
{
    if fits(grid, kind) {
        Ok(())
    } else {
        Err(node.wrong_kind_at("kind"))
    }
}

/// The style of a layer whose source is a grid or is none.
#[derive(Drop)]
pub struct StyleOf {
    /// Whether the source is a grid.
    pub grid: bool,
}

impl Kind for StyleOf {
    type Made = Style;

    ghost made = { λ k. style_of k.grid };

    ghost keeps = { λ k style. IsStyle style × (is_ramp style ≡ k.grid) };

    #[tactic(auto, unfolding(crate::specs::Styles::style_of))]
    fn read(&self, node: &Node<'_>) -> Result<Style, Refusal> {
        node.object()?;
        let kind = node.required("kind", &OneOf::WORDS)?;
        fitting(node, self.grid, kind)?;
        match kind {
            StyleKind::Single => single(node),
            StyleKind::Categorised => categorised(node),
            StyleKind::Graduated => graduated(node),
            StyleKind::Ramp => ramp(node),
        }
    }
}
