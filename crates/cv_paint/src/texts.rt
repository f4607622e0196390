//! Which text of a feature its style reads, and the symbol that it gets by it.

ghost use Rattle.std.specs.Prelude.{◌≡◌, Bool, option_and_then, position, slice_get, bytes_eq, find};
ghost use Rattle.std.specs.Option.{option_copied};
ghost use Rattle.cv_model.specs.Texts.{text_in, text_of, has_text, joined_in, joined_text, field_text};
ghost use Rattle.cv_model.specs.Texts.{style_text, feature_symbol};
ghost use Rattle.cv_layer.specs.Layers.{contents_seen};

use cv_layer::{FeatureRow, LayerContents, LayerInput, Table};
use cv_model::{Field, Join, Style, Symbol, Text};
use cv_symbol::symbol;

/// The place, from 0 on, of the first column of a name; none where no column has it.
pub fn column(columns: &[Text], name: &Text) -> Option<usize>
    ensures { result ≡ position (bytes_eq name.now) columns.now }
{
    columns
        .iter()
        .position(|column| name.as_str() == column.as_str())
}

/// The text of a feature in the first column of a name; none where there is no such column.
fn text_in<'a>(columns: &[Text], name: &Text, row: &'a FeatureRow) -> Option<&'a Text>
    ensures { option_copied result ≡ text_in columns.now name.now row.now }
{
    let at = column(columns, name)?;
    row.values().get(at)
}

/// The text of a layer's feature in a column; a grid has none.
fn text_of<'a>(contents: &LayerContents, name: &Text, row: &'a FeatureRow) -> Option<&'a Text>
    ensures { option_copied result ≡ text_of (contents_seen contents.now) name.now row.now }
{
    match contents {
        LayerContents::Text(table) => text_in(table.columns(), name, row),
        LayerContents::Grid(_) => None,
    }
}

/// Whether a feature has a text in a column.
fn has_text(columns: &[Text], name: &Text, text: &Text, row: &FeatureRow) -> bool
    ensures { result ≡ has_text columns.now name.now text.now row.now }
{
    match text_in(columns, name, row) {
        Some(found) => text.as_str() == found.as_str(),
        None => false,
    }
}

/// The first of these features with a text in a column.
fn first_in<'a>(
    rows: &'a [FeatureRow],
    columns: &[Text],
    name: &Text,
    text: &Text,
) -> Option<&'a FeatureRow>
    ensures { option_copied result ≡ find (has_text columns.now name.now text.now) rows.now }
{
    rows.iter().find(|row| has_text(columns, name, text, row))
}

/// The first feature of a table with a text in a column.
fn first_with<'a>(table: &'a Table, name: &Text, text: &Text) -> Option<&'a FeatureRow>
    ensures { option_copied result
        ≡ find (has_text table.now.columns name.now text.now) table.now.features }
{
    let rows = table.rows();
    let mut at = 0;
    while at < rows.len() {
        let run = rows.run_from(at);
        match first_in(run, table.columns(), name, text) {
            Some(row) => return Some(row),
            None => at += run.len() as u64,
        }
    }
    None
}

/// The text in a column of a layer's first feature that has a text in its key column.
fn joined_in<'a>(
    contents: &'a LayerContents,
    key: &Text,
    name: &Text,
    text: &Text,
) -> Option<&'a Text>
    ensures { option_copied result ≡ joined_in (contents_seen contents.now) key.now name.now text.now }
{
    match contents {
        LayerContents::Text(table) => {
            let row = first_with(table, key, text)?;
            text_in(table.columns(), name, row)
        }
        LayerContents::Grid(_) => None,
    }
}

/// The text that a feature takes from the join layer.
fn joined_text<'a>(
    own: &LayerContents,
    join: &Join,
    there: &'a LayerContents,
    name: &Text,
    row: &FeatureRow,
) -> Option<&'a Text>
    ensures { option_copied result
        ≡ joined_text (contents_seen own.now) join.now (contents_seen there.now) name.now row.now }
{
    let text = text_of(own, &join.local, row)?;
    joined_in(there, &join.key, name, text)
}

/// The text of a feature that a style's field reads, of its own layer or by the join.
fn field_text<'a>(input: &'a LayerInput, field: &Field, row: &'a FeatureRow) -> Option<&'a Text>
    ensures { option_copied result ≡ field_text input.now.parts field.now row.now }
{
    let own = input.layer();
    if !field.joined {
        return text_of(own.contents(), &field.name, row);
    }
    let join = own.join()?;
    let there = input.join()?;
    joined_text(own.contents(), join, there.contents(), &field.name, row)
}

/// The text of a feature that a style reads.
fn style_text<'a>(input: &'a LayerInput, style: &Style, row: &'a FeatureRow) -> Option<&'a Text>
    ensures { option_copied result ≡ style_text style.now input.now.parts row.now }
{
    match style {
        Style::Categorised(field, _, _) => field_text(input, field, row),
        Style::Graduated(field, _) => field_text(input, field, row),
        Style::Single(_) => None,
        Style::Ramp(_) => None,
    }
}

/// The symbol with which a feature is drawn, if it is drawn.
#[tactic(auto, unfolding(cv_model::specs::Texts::feature_symbol))]
pub fn feature_symbol<'a>(input: &'a LayerInput, row: &FeatureRow) -> Option<&'a Symbol>
    ensures { option_copied result ≡ feature_symbol input.now.parts row.now }
{
    let style = input.layer().style();
    let text = style_text(input, style, row);
    symbol(style, text)
}
