//! The parts of a project file, each with the tree that stands for it.

ghost use Rattle.std.specs.Prelude.{◌≡◌, List, ℕ, IfOk, IfSome, OnOk, All};
ghost use Rattle.serde_json.specs.Data.{string, boolean};
ghost use Rattle.serde_json.specs.View.{view};
ghost use Rattle.cv_project.specs.Kept.{IsByte, IsWord, KeptBackground, KeptColour, KeptPen, KeptMarker};
ghost use Rattle.cv_project.specs.Kept.{KeptSymbol, KeptClass, KeptRange, KeptStop, KeptClasses, KeptRamp};
ghost use Rattle.cv_project.specs.Kept.{KeptStyle, KeptJoin, KeptLayer, KeptCanvas, KeptFile};
ghost use Rattle.cv_project.specs.Trees.{object_of, whole_tree, decimal_tree, background_tree, colour_tree};
ghost use Rattle.cv_project.specs.Trees.{pen_tree, marker_tree, symbol_tree, class_tree, range_tree};
ghost use Rattle.cv_project.specs.Trees.{stop_tree, column_field, single_fields, categorised_fields};
ghost use Rattle.cv_project.specs.Trees.{graduated_fields, ramp_fields, style_tree, text_source_fields};
ghost use Rattle.cv_project.specs.Trees.{grid_source_fields, source_tree, join_tree, scales_tree, bounded};
ghost use Rattle.cv_project.specs.Trees.{layer_tree, extent_tree, canvas_tree, file_tree};
ghost use Rattle.cv_project.specs.Words.{delimiter_word};
ghost use Rattle.cv_model.specs.Positions.{IsExtent};
ghost use Rattle.cv_model.specs.Scales.{AreScales};

use crate::tree::{Object, Part, list};
use crate::words::{SourceKind, StyleKind, Word};
use cv_model::{
    CanvasFile, Class, Delimiter, Extent, Field, Join, LayerFile, Marker, NoMemory, Pen,
    ProjectFile, Ramp, Range, Rgb, Rgba, Scales, Source, Stop, Style, Symbol, Text,
};
use serde_json::Value;
use std::alloc::Global;

impl Part for u8 {
    ghost stands = { whole_tree };

    ghost kept = { IsByte };

    fn tree(&self, _alloc: Global) -> Result<Value, NoMemory> {
        Ok(Value::from(*self))
    }
}

impl Part for u32 {
    ghost stands = { whole_tree };

    ghost kept = { IsWord };

    fn tree(&self, _alloc: Global) -> Result<Value, NoMemory> {
        Ok(Value::from(*self))
    }
}

impl Part for u64 {
    ghost stands = { whole_tree };

    ghost kept = { λ _. Unit {0} };

    fn tree(&self, _alloc: Global) -> Result<Value, NoMemory> {
        Ok(Value::from(*self))
    }
}

impl Part for bool {
    ghost stands = { boolean };

    ghost kept = { λ _. Unit {0} };

    fn tree(&self, _alloc: Global) -> Result<Value, NoMemory> {
        Ok(Value::from(*self))
    }
}

impl Part for Text {
    ghost stands = { string };

    ghost kept = { λ _. Unit {0} };

    fn tree(&self, alloc: Global) -> Result<Value, NoMemory> {
        Value::try_from_str(alloc, self.as_str())
    }
}

/// A value that is written as its word.
#[derive(Drop)]
struct Spelt<W>(W);

impl<W: Word> Part for Spelt<W> {
    ghost stands = { λ s. string (W.spelling s.0) };

    ghost kept = { λ _. Unit {0} };

    fn tree(&self, alloc: Global) -> Result<Value, NoMemory> {
        Value::try_from_str(alloc, self.0.word())
    }
}

/// Millionths, which are written as a decimal.
impl Part for i64 {
    ghost stands = { decimal_tree };

    ghost kept = { λ _. Unit {0} };

    fn tree(&self, alloc: Global) -> Result<Value, NoMemory> {
        let text = cv_decimal::write(alloc, *self)?;
        Ok(Value::String(text))
    }
}

/// The tree of a background.
fn background(alloc: Global, colour: Rgb) -> Result<Value, NoMemory>
    ensures tree { IfOk result (λ value. view value ≡ background_tree colour) }
    ensures kept { KeptBackground colour }
{
    let text = hex::encode(alloc, [colour.r, colour.g, colour.b])?;
    Ok(Value::String(text))
}

impl Part for Rgb {
    ghost stands = { background_tree };

    ghost kept = { KeptBackground };

    fn tree(&self, alloc: Global) -> Result<Value, NoMemory> {
        background(alloc, *self)
    }
}

/// The tree of a colour.
fn colour(alloc: Global, colour: Rgba) -> Result<Value, NoMemory>
    ensures tree { IfOk result (λ value. view value ≡ colour_tree colour) }
    ensures kept { KeptColour colour }
{
    let text = hex::encode(alloc, [colour.r, colour.g, colour.b, colour.a])?;
    Ok(Value::String(text))
}

impl Part for Rgba {
    ghost stands = { colour_tree };

    ghost kept = { KeptColour };

    fn tree(&self, alloc: Global) -> Result<Value, NoMemory> {
        colour(alloc, *self)
    }
}

impl Part for Pen {
    ghost stands = { pen_tree };

    ghost kept = { KeptPen };

    #[tactic(auto, unfolding(crate::specs::Trees::pen_fields))]
    fn tree(&self, alloc: Global) -> Result<Value, NoMemory> {
        let mut fields = Object::new(alloc);
        fields.always("colour", &self.colour)?;
        fields.always("width", &self.width)?;
        Ok(fields.value())
    }
}

impl Part for Marker {
    ghost stands = { marker_tree };

    ghost kept = { KeptMarker };

    #[tactic(auto, unfolding(crate::specs::Trees::marker_fields))]
    fn tree(&self, alloc: Global) -> Result<Value, NoMemory> {
        let mut fields = Object::new(alloc);
        fields.always("colour", &self.colour)?;
        fields.always("shape", &Spelt(self.shape))?;
        fields.always("size", &self.size)?;
        Ok(fields.value())
    }
}

impl Part for Symbol {
    ghost stands = { symbol_tree };

    ghost kept = { KeptSymbol };

    #[tactic(auto, unfolding(crate::specs::Trees::symbol_fields))]
    fn tree(&self, alloc: Global) -> Result<Value, NoMemory> {
        let mut fields = Object::new(alloc);
        fields.if_any("fill", &self.fill)?;
        fields.if_any("marker", &self.marker)?;
        fields.if_any("pen", &self.pen)?;
        Ok(fields.value())
    }
}

impl Part for Class {
    ghost stands = { class_tree };

    ghost kept = { KeptClass };

    #[tactic(auto, unfolding(crate::specs::Trees::class_fields))]
    fn tree(&self, alloc: Global) -> Result<Value, NoMemory> {
        let mut fields = Object::new(alloc);
        fields.always("symbol", &self.symbol)?;
        fields.always("value", &self.value)?;
        Ok(fields.value())
    }
}

impl Part for Range {
    ghost stands = { range_tree };

    ghost kept = { KeptRange };

    #[tactic(auto, unfolding(crate::specs::Trees::range_fields))]
    fn tree(&self, alloc: Global) -> Result<Value, NoMemory> {
        let mut fields = Object::new(alloc);
        fields.always("lower", &self.lower)?;
        fields.always("symbol", &self.symbol)?;
        fields.always("upper", &self.upper)?;
        Ok(fields.value())
    }
}

impl Part for Stop {
    ghost stands = { stop_tree };

    ghost kept = { KeptStop };

    #[tactic(auto, unfolding(crate::specs::Trees::stop_fields))]
    fn tree(&self, alloc: Global) -> Result<Value, NoMemory> {
        let mut fields = Object::new(alloc);
        fields.always("colour", &self.colour)?;
        fields.always("value", &self.value)?;
        Ok(fields.value())
    }
}

/// The field that names the column of a style.
fn column_field(column: &Field) -> &'static str
    ensures { result.now ≡ column_field column.now }
{
    if column.joined { "joined" } else { "field" }
}

/// The tree of one symbol.
#[tactic(auto, unfolding(crate::specs::Trees::single_fields))]
fn single(alloc: Global, symbol: &Symbol) -> Result<Value, NoMemory>
    ensures tree { IfOk result (λ value. view value ≡ object_of (single_fields symbol.now)) }
    ensures kept { OnOk result (KeptSymbol symbol.now) }
{
    let mut fields = Object::new(alloc);
    fields.always("kind", &Spelt(StyleKind::Single))?;
    fields.always("symbol", symbol)?;
    Ok(fields.value())
}

/// The tree of a symbol for each text.
#[tactic(auto, unfolding(crate::specs::Trees::categorised_fields))]
fn categorised(
    alloc: Global,
    column: &Field,
    classes: &[Class],
    fallback: &Option<Symbol>,
) -> Result<Value, NoMemory>
    ensures tree { IfOk result
        (λ value. view value ≡ object_of (categorised_fields column.now classes.now fallback.now)) }
    ensures kept { OnOk result (All KeptClass classes.now × IfSome fallback.now KeptSymbol) }
{
    let mut fields = Object::new(alloc);
    fields.list("classes", classes)?;
    fields.if_any("fallback", fallback)?;
    fields.always(column_field(column), &column.name)?;
    fields.always("kind", &Spelt(StyleKind::Categorised))?;
    Ok(fields.value())
}

/// The tree of a symbol for each range of numbers.
#[tactic(auto, unfolding(crate::specs::Trees::graduated_fields))]
fn graduated(alloc: Global, column: &Field, classes: &[Range]) -> Result<Value, NoMemory>
    ensures tree { IfOk result (λ value. view value ≡ object_of (graduated_fields column.now classes.now)) }
    ensures kept { OnOk result (All KeptRange classes.now) }
{
    let mut fields = Object::new(alloc);
    fields.list("classes", classes)?;
    fields.always(column_field(column), &column.name)?;
    fields.always("kind", &Spelt(StyleKind::Graduated))?;
    Ok(fields.value())
}

/// The tree of a colour for each number of a grid.
#[tactic(auto, unfolding(crate::specs::Trees::ramp_fields))]
fn ramp(alloc: Global, ramp: &Ramp) -> Result<Value, NoMemory>
    ensures tree { IfOk result (λ value. view value ≡ object_of (ramp_fields ramp.now)) }
    ensures kept { OnOk result (KeptRamp ramp.now) }
{
    let mut fields = Object::new(alloc);
    fields.always("kind", &Spelt(StyleKind::Ramp))?;
    fields.always("ramp", &Spelt(ramp.kind()))?;
    fields.list("stops", ramp.stops())?;
    Ok(fields.value())
}

impl Part for Style {
    ghost stands = { style_tree };

    ghost kept = { KeptStyle };

    fn tree(&self, alloc: Global) -> Result<Value, NoMemory> {
        match self {
            Style::Single(symbol) => single(alloc, symbol),
            Style::Categorised(column, classes, fallback) => {
                categorised(alloc, column, classes.as_slice(), fallback)
            }
            Style::Graduated(column, classes) => graduated(alloc, column, classes.as_slice()),
            Style::Ramp(found) => ramp(alloc, found),
        }
    }
}

/// The tree of a delimited text.
#[tactic(auto, unfolding(crate::specs::Trees::text_source_fields))]
fn text_source(
    alloc: Global,
    file: &Text,
    delimiter: Delimiter,
    geometry: &Text,
) -> Result<Value, NoMemory>
    ensures { IfOk result
        (λ value. view value
        ≡ object_of (text_source_fields file.now (delimiter_word delimiter) geometry.now)) }
{
    let mut fields = Object::new(alloc);
    fields.always("delimiter", &Spelt(delimiter))?;
    fields.always("file", file)?;
    fields.always("geometry", geometry)?;
    fields.always("kind", &Spelt(SourceKind::Text))?;
    Ok(fields.value())
}

/// The tree of an ASCII grid.
#[tactic(auto, unfolding(crate::specs::Trees::grid_source_fields))]
fn grid_source(alloc: Global, file: &Text) -> Result<Value, NoMemory>
    ensures { IfOk result (λ value. view value ≡ object_of (grid_source_fields file.now)) }
{
    let mut fields = Object::new(alloc);
    fields.always("file", file)?;
    fields.always("kind", &Spelt(SourceKind::Grid))?;
    Ok(fields.value())
}

impl Part for Source {
    ghost stands = { source_tree };

    ghost kept = { λ _. Unit {0} };

    fn tree(&self, alloc: Global) -> Result<Value, NoMemory> {
        match self {
            Source::Text {
                file,
                delimiter,
                geometry,
            } => text_source(alloc, file, *delimiter, geometry),
            Source::Grid { file } => grid_source(alloc, file),
        }
    }
}

impl Part for Join {
    ghost stands = { join_tree };

    ghost kept = { KeptJoin };

    #[tactic(auto, unfolding(crate::specs::Trees::join_fields))]
    fn tree(&self, alloc: Global) -> Result<Value, NoMemory> {
        let mut fields = Object::new(alloc);
        fields.always("key", &self.key)?;
        fields.always("layer", &self.layer)?;
        fields.always("local", &self.local)?;
        Ok(fields.value())
    }
}

impl Part for Scales {
    ghost stands = { scales_tree };

    ghost kept = { AreScales };

    #[tactic(auto, unfolding(crate::specs::Trees::scales_fields))]
    fn tree(&self, alloc: Global) -> Result<Value, NoMemory> {
        let mut fields = Object::new(alloc);
        fields.if_any("greatest", &self.greatest)?;
        fields.if_any("least", &self.least)?;
        Ok(fields.value())
    }
}

/// Scales that have a bound.
fn bounded(scales: Scales) -> Option<Scales>
    ensures { result ≡ bounded scales }
{
    if scales.least.is_some() || scales.greatest.is_some() {
        Some(scales)
    } else {
        None
    }
}

impl Part for LayerFile {
    ghost stands = { layer_tree };

    ghost kept = { KeptLayer };

    #[tactic(auto, unfolding(crate::specs::Trees::layer_fields))]
    fn tree(&self, alloc: Global) -> Result<Value, NoMemory> {
        let mut fields = Object::new(alloc);
        fields.always("blend", &Spelt(self.blend))?;
        fields.always("id", &self.id)?;
        fields.if_any("join", &self.join)?;
        fields.if_any("mask", &self.mask)?;
        fields.always("name", &self.name)?;
        fields.always("opacity", &self.opacity)?;
        fields.if_any("scales", &bounded(self.scales))?;
        fields.always("source", &self.source)?;
        fields.always("style", &self.style)?;
        fields.always("visible", &self.visible)?;
        Ok(fields.value())
    }
}

impl Part for Extent {
    ghost stands = { extent_tree };

    ghost kept = { IsExtent };

    #[tactic(auto, unfolding(crate::specs::Trees::extent_tree))]
    fn tree(&self, alloc: Global) -> Result<Value, NoMemory> {
        list(alloc, &[self.xmin, self.ymin, self.xmax, self.ymax])
    }
}

impl Part for CanvasFile {
    ghost stands = { canvas_tree };

    ghost kept = { KeptCanvas };

    #[tactic(auto, unfolding(crate::specs::Trees::canvas_fields))]
    fn tree(&self, alloc: Global) -> Result<Value, NoMemory> {
        let mut fields = Object::new(alloc);
        fields.always("cache", &self.cache)?;
        fields.if_any("extent", &self.extent)?;
        fields.always("height", &self.height)?;
        fields.always("width", &self.width)?;
        Ok(fields.value())
    }
}

impl Part for ProjectFile {
    ghost stands = { file_tree };

    ghost kept = { KeptFile };

    #[tactic(auto, unfolding(crate::specs::Trees::file_fields, crate::specs::Trees::file_tree))]
    fn tree(&self, alloc: Global) -> Result<Value, NoMemory> {
        let version: u64 = 2;
        let mut fields = Object::new(alloc);
        fields.always("background", &self.background())?;
        fields.list("canvases", self.canvases())?;
        fields.list("layers", self.layers())?;
        fields.always("version", &version)?;
        Ok(fields.value())
    }
}
