//! Which features and cells are drawn how.

use crate::classes::Classes;
use crate::ramp::Ramp;
use crate::symbol::Symbol;
use crate::text::Text;

/// How a layer is drawn: a text layer by one of the first three, a grid by a ramp.
#[derive(Drop)]
pub enum Style {
    /// Each feature with this symbol.
    Single(Symbol),
    /// By the text of a field: the first class with an equal text, else the symbol for all others, if there
    /// is one.
    Categorised(Field, ClassList, Option<Symbol>),
    /// By a field read as a decimal: the first range that holds it, with both its bounds.
    Graduated(Field, RangeList),
    /// Each cell by its number.
    Ramp(Ramp),
}

/// The column that a style reads.
#[derive(Drop)]
pub struct Field {
    /// Whether the text comes from the join layer, and not from the layer itself.
    pub joined: bool,
    /// The column's name.
    pub name: Text,
}

/// A class of a categorised style.
#[derive(Drop)]
pub struct Class {
    /// The text that its features have.
    pub value: Text,
    /// How they are drawn.
    pub symbol: Symbol,
}

/// A class of a graduated style.
#[derive(Clone, Copy, Debug)]
pub struct Range {
    /// Its least number, in millionths.
    pub lower: i64,
    /// Its greatest number, in millionths.
    pub upper: i64,
    /// How its features are drawn.
    pub symbol: Symbol,
}

/// The classes of a categorised style, the first before the others.
pub type ClassList = Classes<Class>;

/// The classes of a graduated style, the first before the others.
pub type RangeList = Classes<Range>;
