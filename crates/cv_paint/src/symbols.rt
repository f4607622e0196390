//! Which symbol each feature of a layer is drawn with: found once for a piece, by maps of texts.

ghost use Rattle.std.specs.Prelude.{◌≡◌, ℕ, ◌≤◌, List, Option, Some, None, if◌then◌else◌, option_map};
ghost use Rattle.std.specs.Prelude.{bytes_eq, option_and_then, true, ◌∷◌, [], OnOk, IfOk, IfErr};
ghost use Rattle.std.specs.Option.{option_copied, option_or, unwrap_or};
ghost use Rattle.cv_model.specs.Styles.{class_of};
ghost use Rattle.cv_model.specs.Texts.{joined_in, feature_symbol};
ghost use Rattle.cv_layer.specs.Layers.{contents_seen};
ghost use Rattle.cv_paint.specs.Finish.{StopCause};
ghost use Rattle.cv_paint.specs.Symbols.{given_by, symbol_by, text_at, column_of, joined_symbol, field_of};
ghost use Rattle.cv_paint.specs.Symbols.{IsRuleOf, AreSymbols};
ghost use Rattle.cv_paint.specs.Widths.{IsWidest};

use crate::error::PaintError;
use crate::texts::column;
use crate::widths::widest_of;
use cv_layer::{FeatureRow, LayerContents, LayerInput, Table};
use cv_model::{Class, Field, NoMemory, Style, Symbol, Text};
use cv_outside::Stop;
use cv_symbol::symbol;
use std::alloc::Global;
use std::collections::HashMap;
use std::marker::Model;

/// What texts give: a symbol, or that there is none.
type Given<'a> = HashMap<&'a str, Option<&'a Symbol>>;

/// Which symbol a text gives; the text may be absent.
#[derive(Drop)]
pub enum Rule<'a> {
    /// Each text, and an absent one, gives this.
    Same(Option<&'a Symbol>),
    /// A text gives what the map says; one that it doesn't have, and an absent one, give this.
    ByText(Given<'a>, Option<&'a Symbol>),
    /// Each text, and an absent one, gives what the style says.
    ByStyle(&'a Style),
}

/// The text of a feature in a column, if there is the column.
fn text_at(row: &FeatureRow, column: Option<usize>) -> Option<&Text>
    ensures { option_copied result ≡ text_at column row.now }
{
    row.values().get(column?)
}

/// The symbol that a rule gives to a text.
fn symbol_by<'a>(rule: &Rule<'a>, text: Option<&Text>) -> Option<&'a Symbol>
    ensures { option_copied result ≡ symbol_by rule.now (option_copied text.entry) }
{
    match rule {
        Rule::Same(symbol) => *symbol,
        Rule::ByText(given, other) => match text {
            Some(text) => given_or(given, text, *other),
            None => *other,
        },
        Rule::ByStyle(style) => symbol(*style, text),
    }
}

/// What a map gives to a text, or this where it doesn't have the text.
fn given_or<'a>(given: &Given<'a>, text: &Text, other: Option<&'a Symbol>) -> Option<&'a Symbol>
    ensures { option_copied result ≡ unwrap_or (given_by given.now text.now) (option_copied other.entry) }
{
    match given.get(text.as_str()) {
        Some(symbol) => *symbol,
        None => other,
    }
}

/// Keeps what a text gives, where the map doesn't have it yet.
fn keep<'a>(
    given: &mut Given<'a>,
    text: &'a str,
    symbol: Option<&'a Symbol>,
) -> Result<(), NoMemory>
    ensures { OnOk result ((q : List ℕ) → given_by given.new q ≡ option_or (given_by given.old q)
        (if bytes_eq q text.now then Some (option_copied symbol.entry) else None)) }
{
    given.entry(text)?.or_insert(symbol);
    Ok(())
}

/// The symbols of classes, each by its text; of those with the same text the first one's.
fn class_symbols<'a>(alloc: Global, classes: &'a [Class]) -> Result<Given<'a>, NoMemory>
    ensures { IfOk result (λ made. (q : List ℕ)
        → given_by made q ≡ option_map Some (class_of classes.now q)) }
{
    let mut given = HashMap::with_capacity(alloc, classes.len())?;
    for class in classes {
        keep(&mut given, class.value.as_str(), Some(&class.symbol))?;
    }
    Ok(given)
}

/// The rule of a style.
fn rule_of<'a>(alloc: Global, style: &'a Style) -> Result<Rule<'a>, NoMemory>
    ensures { IfOk result (IsRuleOf style.now) }
{
    match style {
        Style::Single(symbol) => Ok(Rule::Same(Some(symbol))),
        Style::Categorised(_, classes, fallback) => {
            let given = class_symbols(alloc, classes.as_slice())?;
            Ok(Rule::ByText(given, fallback.as_ref()))
        }
        Style::Graduated(_, _) => Ok(Rule::ByStyle(style)),
        Style::Ramp(_) => Ok(Rule::Same(None)),
    }
}

/// Keeps what a feature's text in the key column gives, by its text in another column.
fn keep_row<'a>(
    given: &mut Given<'a>,
    row: &'a FeatureRow,
    key: Option<usize>,
    column: Option<usize>,
    rule: &Rule<'a>,
) -> Result<(), NoMemory>
    ensures { OnOk result ((q : List ℕ) → given_by given.new q ≡ option_or (given_by given.old q)
        (joined_symbol rule.now key column (row.now ∷ []) q)) }
{
    if let Some(text) = text_at(row, key) {
        keep(given, text.as_str(), symbol_by(rule, text_at(row, column)))?;
    }
    Ok(())
}

/// Keeps what these features' texts in the key column give; of those with the same text the first one's.
fn keep_rows<'a>(
    given: &mut Given<'a>,
    rows: &'a [FeatureRow],
    key: Option<usize>,
    column: Option<usize>,
    rule: &Rule<'a>,
) -> Result<(), NoMemory>
    ensures { OnOk result ((q : List ℕ) → given_by given.new q ≡ option_or (given_by given.old q)
        (joined_symbol rule.now key column rows.now q)) }
{
    for row in rows {
        keep_row(given, row, key, column, rule)?;
    }
    Ok(())
}

/// What the features of a table give, each by its text in the key column; of those with the same text the
/// first one. The stop is asked now and then.
fn joined_symbols<'a, S: Stop>(
    alloc: Global,
    table: &'a Table,
    key: Option<usize>,
    column: Option<usize>,
    rule: &Rule<'a>,
    stop: &mut S,
) -> Result<Given<'a>, PaintError>
    ensures counts { S.yeses stop.old ≤ S.yeses stop.new }
    ensures ok { IfOk result (λ made. (q : List ℕ)
        → given_by made q ≡ joined_symbol rule.now key column table.now.features q) }
    ensures quiet { OnOk result (S.yeses stop.new ≡ S.yeses stop.old) }
    ensures err { IfErr result (λ e. StopCause e (S.yeses stop.old) (S.yeses stop.new)) }
{
    let rows = table.rows();
    let mut given = HashMap::new(alloc);
    let mut at = 0;
    while at < rows.len() {
        if stop.poll() {
            return Err(PaintError::Stopped);
        }
        let run = rows.run_from(at);
        keep_rows(&mut given, run, key, column, rule)?;
        at += run.len() as u64;
    }
    Ok(given)
}

/// The rule that gives to a text what a style's rule gives to the joined text.
fn joined_rule<'a, S: Stop>(
    alloc: Global,
    there: &'a LayerContents,
    key: &Text,
    name: &Text,
    rule: &Rule<'a>,
    stop: &mut S,
) -> Result<Rule<'a>, PaintError>
    ensures counts { S.yeses stop.old ≤ S.yeses stop.new }
    ensures ok { IfOk result (λ made. (text : Option (List ℕ)) → symbol_by made text
        ≡ symbol_by rule.now (option_and_then (joined_in (contents_seen there.now) key.now name.now) text)) }
    ensures quiet { OnOk result (S.yeses stop.new ≡ S.yeses stop.old) }
    ensures err { IfErr result (λ e. StopCause e (S.yeses stop.old) (S.yeses stop.new)) }
{
    let other = symbol_by(rule, None);
    match there {
        LayerContents::Text(table) => {
            let columns = table.columns();
            let (key, column) = (column(columns, key), column(columns, name));
            let given = joined_symbols(alloc, table, key, column, rule, stop)?;
            Ok(Rule::ByText(given, other))
        }
        LayerContents::Grid(_) => Ok(Rule::Same(other)),
    }
}

/// The place of a layer's first column of a name; a grid has no columns.
fn column_of(contents: &LayerContents, name: &Text) -> Option<usize>
    ensures { result ≡ column_of (contents_seen contents.now) name.now }
{
    match contents {
        LayerContents::Text(table) => column(table.columns(), name),
        LayerContents::Grid(_) => None,
    }
}

/// The field that a style reads.
fn field_of(style: &Style) -> Option<&Field>
    ensures { option_copied result ≡ field_of style.now }
{
    match style {
        Style::Categorised(field, _, _) => Some(field),
        Style::Graduated(field, _) => Some(field),
        Style::Single(_) => None,
        Style::Ramp(_) => None,
    }
}

/// Which symbol each feature of a layer is drawn with, seen as the parts that the layer is painted from.
///
/// A feature's symbol is found by one look-up of its text, or by its number among the classes of a graduated
/// style. A map has at most an entry for each class, and for each feature of the join layer.
#[derive(Drop)]
pub struct Symbols<'a> {
    input: &'a LayerInput,
    column: Option<usize>,
    rule: Rule<'a>,
    widest: u32,
}

impl<'a> Model for Symbols<'a> {
    ghost use Rattle.cv_model.specs.Layers.{Parts};

    ghost Value = { Parts };

    ghost use Rattle.cv_paint.specs.Symbols.{AreSymbols};
    ghost use Rattle.cv_paint.specs.Widths.{IsWidest};

    ghost view = { λ s. s.input.now.parts };

    ghost invariant = { λ s. AreSymbols s.input.now.parts s.column s.rule
        × IsWidest s.input.now.parts.own.style s.widest };
}

impl<'a> Symbols<'a> {
    /// The symbols of a layer's features. The stop is asked now and then while the join layer is read.
    pub fn of<S: Stop>(
        alloc: Global,
        input: &'a LayerInput,
        stop: &mut S,
    ) -> Result<Symbols<'a>, PaintError>
        ensures counts { S.yeses stop.old ≤ S.yeses stop.new }
        ensures ok { IfOk result (λ made. made ≡ input.now.parts) }
        ensures quiet { OnOk result (S.yeses stop.new ≡ S.yeses stop.old) }
        ensures err { IfErr result (λ e. StopCause e (S.yeses stop.old) (S.yeses stop.new)) }
    {
        let style = input.layer().style();
        let rule = rule_of(alloc, style)?;
        let Some(field) = field_of(style) else {
            return Ok(Symbols::by_rule(input, None, rule));
        };
        if field.joined {
            return Symbols::by_join(alloc, input, field, rule, stop);
        }
        let column = column_of(input.layer().contents(), &field.name);
        Ok(Symbols::by_rule(input, column, rule))
    }

    /// The symbols by a field of the join layer.
    fn by_join<S: Stop>(
        alloc: Global,
        input: &'a LayerInput,
        field: &Field,
        rule: Rule<'a>,
        stop: &mut S,
    ) -> Result<Symbols<'a>, PaintError>
        requires style { field_of input.now.parts.own.style ≡ Some field.now }
        requires joined { field.now.joined ≡ true }
        requires rule { IsRuleOf input.now.parts.own.style rule }
        ensures counts { S.yeses stop.old ≤ S.yeses stop.new }
        ensures ok { IfOk result (λ made. made ≡ input.now.parts) }
        ensures quiet { OnOk result (S.yeses stop.new ≡ S.yeses stop.old) }
        ensures err { IfErr result (λ e. StopCause e (S.yeses stop.old) (S.yeses stop.new)) }
    {
        let Some(join) = input.layer().join() else {
            return Ok(Symbols::by_rule(input, None, rule));
        };
        let Some(there) = input.join() else {
            return Ok(Symbols::by_rule(input, None, rule));
        };
        let rule = joined_rule(alloc, there.contents(), &join.key, &field.name, &rule, stop)?;
        let column = column_of(input.layer().contents(), &join.local);
        Ok(Symbols::by_rule(input, column, rule))
    }

    /// The symbols that a rule gives to the texts in a column.
    fn by_rule(input: &'a LayerInput, column: Option<usize>, rule: Rule<'a>) -> Symbols<'a>
        requires { AreSymbols input.now.parts column rule }
        ensures { result ≡ input.now.parts }
    {
        let widest = widest_of(input.layer().style());
        Symbols {
            input,
            column,
            rule,
            widest,
        }
    }

    /// What the layer is painted from.
    pub fn input(&self) -> &'a LayerInput
        ensures { result.now.parts ≡ self.now }
    {
        self.input
    }

    /// The symbol with which a feature is drawn, if it is drawn.
    pub fn symbol(&self, row: &FeatureRow) -> Option<&'a Symbol>
        ensures { option_copied result ≡ feature_symbol self.now row.now }
    {
        symbol_by(&self.rule, text_at(row, self.column))
    }

    /// The width of the widest symbol that the layer's style can give, in pixels; 1 where there is none.
    pub fn widest(&self) -> u32
        ensures { IsWidest self.now.own.style result }
    {
        self.widest
    }
}
