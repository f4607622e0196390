//! Symbols: pens, markers and fills.

ghost use Rattle.std.specs.Prelude.{◌≡◌};

use crate::kind::{Colour, Kind, OneOf};
use crate::node::Node;
use crate::ranges::{MARKER_SIZE, PEN_WIDTH};
use crate::refusal::Refusal;
use cv_model::{Marker, Pen, Symbol};

/// A pen.
#[derive(Drop)]
pub struct PenKind;

impl Kind for PenKind {
    type Made = Pen;

    ghost use Rattle.cv_project.specs.Symbols.{pen_of};

    ghost made = { λ _. pen_of };

    ghost keeps = { λ _ _. Unit {0} };

    #[tactic(auto, unfolding(crate::specs::Symbols::pen_of))]
    fn read(&self, node: &Node<'_>) -> Result<Pen, Refusal> {
        node.object()?;
        let colour = node.required("colour", &Colour)?;
        let width = node.required("width", &PEN_WIDTH)?;
        node.no_others(&["colour", "width"])?;
        let width = width as u32;
        Ok(Pen { colour, width })
    }
}

/// A marker.
#[derive(Drop)]
pub struct MarkerKind;

impl Kind for MarkerKind {
    type Made = Marker;

    ghost use Rattle.cv_project.specs.Symbols.{marker_of};

    ghost made = { λ _. marker_of };

    ghost keeps = { λ _ _. Unit {0} };

    #[tactic(auto, unfolding(crate::specs::Symbols::marker_of))]
    fn read(&self, node: &Node<'_>) -> Result<Marker, Refusal> {
        node.object()?;
        let shape = node.required("shape", &OneOf::WORDS)?;
        let colour = node.required("colour", &Colour)?;
        let size = node.required("size", &MARKER_SIZE)?;
        node.no_others(&["colour", "shape", "size"])?;
        let size = size as u32;
        Ok(Marker {
            shape,
            colour,
            size,
        })
    }
}

/// A symbol.
#[derive(Drop)]
pub struct SymbolKind;

impl Kind for SymbolKind {
    type Made = Symbol;

    ghost use Rattle.cv_project.specs.Symbols.{symbol_of};

    ghost made = { λ _. symbol_of };

    ghost keeps = { λ _ _. Unit {0} };

    #[tactic(auto, unfolding(crate::specs::Symbols::symbol_of))]
    fn read(&self, node: &Node<'_>) -> Result<Symbol, Refusal> {
        node.object()?;
        let fill = node.optional("fill", &Colour)?;
        let pen = node.optional("pen", &PenKind)?;
        let marker = node.optional("marker", &MarkerKind)?;
        node.no_others(&["fill", "marker", "pen"])?;
        Ok(Symbol { fill, pen, marker })
    }
}
