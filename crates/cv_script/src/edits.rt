//! The edits of a script, each as its row of the table says.

ghost use Rattle.std.specs.Prelude.{◌≡◌, IfOk, IfSome};
ghost use Rattle.cv_model.specs.Scales.{IsScale};
ghost use Rattle.cv_script.specs.declared.names.EditName.TheVariants as edit_name;
ghost use Rattle.cv_script.specs.Answers.{Answers};
ghost use Rattle.cv_script.specs.Table.{feature, join, bound, is_ordered, scales, empty_layer, new_layer};
ghost use Rattle.cv_script.specs.Table.{edit_row, edit_made};

use crate::commands::only_number;
use crate::error::Refusal;
use crate::kinds::{
    cell, decimal, geometry, geometry_or_none, id, is_none_word, name, names, number,
    number_or_none, rgb, text, texts, whole,
};
use crate::names::EditName;
use crate::spelling::value;
use crate::styles::{ramp, symbol};
use crate::words::Word;
use cv_model::{
    Blend, Edit, Feature, FeatureList, Join, LayerData, NewLayer, Scales, Sequence, Style, Symbol,
    Text, Values,
};
use std::alloc::Global;

/// `id wkt value..`.
#[tactic(auto, unfolding(crate::specs::Table::feature))]
fn feature(alloc: Global, words: &[Word]) -> Result<Feature, Refusal>
    ensures { Answers result (feature words.now) }
{
    let [id, geometry, values @ ..] = words else {
        return Err(Refusal::Bad);
    };
    let id = self::id(id.as_slice())?;
    let geometry = self::geometry(alloc, geometry.as_slice())?;
    let values = texts(alloc, values)?;
    Ok(Feature {
        id,
        geometry: Some(geometry),
        values,
    })
}

fn add_feature(alloc: Global, words: &[Word]) -> Result<Edit, Refusal>
    ensures { Answers result ((edit_row edit_name.AddFeature).makes words.now) }
{
    let [layer, rest @ ..] = words else {
        return Err(Refusal::Bad);
    };
    let layer = number(layer.as_slice())?;
    let feature = feature(alloc, rest)?;
    Ok(Edit::AddFeature { layer, feature })
}

fn insert_feature(alloc: Global, words: &[Word]) -> Result<Edit, Refusal>
    ensures { Answers result ((edit_row edit_name.InsertFeature).makes words.now) }
{
    let [layer, at, rest @ ..] = words else {
        return Err(Refusal::Bad);
    };
    let layer = number(layer.as_slice())?;
    let at = number(at.as_slice())?;
    let feature = feature(alloc, rest)?;
    Ok(Edit::InsertFeature { layer, at, feature })
}

fn remove_feature(words: &[Word]) -> Result<Edit, Refusal>
    ensures { Answers result ((edit_row edit_name.RemoveFeature).makes words.now) }
{
    let [layer, id] = words else {
        return Err(Refusal::Bad);
    };
    let layer = number(layer.as_slice())?;
    let id = self::id(id.as_slice())?;
    Ok(Edit::RemoveFeature { layer, id })
}

fn set_geometry(alloc: Global, words: &[Word]) -> Result<Edit, Refusal>
    ensures { Answers result ((edit_row edit_name.SetGeometry).makes words.now) }
{
    let [layer, id, geometry] = words else {
        return Err(Refusal::Bad);
    };
    let layer = number(layer.as_slice())?;
    let id = self::id(id.as_slice())?;
    let geometry = geometry_or_none(alloc, geometry.as_slice())?;
    Ok(Edit::SetGeometry {
        layer,
        id,
        geometry,
    })
}

fn set_attribute(alloc: Global, words: &[Word]) -> Result<Edit, Refusal>
    ensures { Answers result ((edit_row edit_name.SetAttribute).makes words.now) }
{
    let [layer, id, column, value] = words else {
        return Err(Refusal::Bad);
    };
    let layer = number(layer.as_slice())?;
    let id = self::id(id.as_slice())?;
    let column = name(alloc, column.as_slice())?;
    let value = text(alloc, value.as_slice())?;
    Ok(Edit::SetAttribute {
        layer,
        id,
        column,
        value,
    })
}

fn set_cell(words: &[Word]) -> Result<Edit, Refusal>
    ensures { Answers result ((edit_row edit_name.SetCell).makes words.now) }
{
    let [layer, row, col, cell] = words else {
        return Err(Refusal::Bad);
    };
    let layer = number(layer.as_slice())?;
    let row = number(row.as_slice())?;
    let col = number(col.as_slice())?;
    let cell = self::cell(cell.as_slice())?;
    Ok(Edit::SetCell {
        layer,
        row,
        col,
        cell,
    })
}

fn set_style(words: &[Word]) -> Result<Edit, Refusal>
    ensures { Answers result ((edit_row edit_name.SetStyle).makes words.now) }
{
    let [layer, parts @ ..] = words else {
        return Err(Refusal::Bad);
    };
    let layer = number(layer.as_slice())?;
    let symbol = symbol(parts)?;
    Ok(Edit::SetStyle {
        layer,
        style: Style::Single(symbol),
    })
}

fn set_ramp(alloc: Global, words: &[Word]) -> Result<Edit, Refusal>
    ensures { Answers result ((edit_row edit_name.SetRamp).makes words.now) }
{
    let [layer, rest @ ..] = words else {
        return Err(Refusal::Bad);
    };
    let layer = number(layer.as_slice())?;
    let ramp = ramp(alloc, rest)?;
    Ok(Edit::SetStyle {
        layer,
        style: Style::Ramp(ramp),
    })
}

fn set_mask(words: &[Word]) -> Result<Edit, Refusal>
    ensures { Answers result ((edit_row edit_name.SetMask).makes words.now) }
{
    let [layer, mask] = words else {
        return Err(Refusal::Bad);
    };
    let layer = number(layer.as_slice())?;
    let mask = number_or_none(mask.as_slice())?;
    Ok(Edit::SetMask { layer, mask })
}

/// `id local key`, or `none`.
#[tactic(auto, unfolding(crate::specs::Table::join))]
fn join(alloc: Global, words: &[Word]) -> Result<Option<Join>, Refusal>
    ensures { Answers result (join words.now) }
{
    match words {
        [word] => {
            if is_none_word(word.as_slice()) {
                Ok(None)
            } else {
                Err(Refusal::Bad)
            }
        }
        [layer, local, key] => {
            let layer = number(layer.as_slice())?;
            let local = name(alloc, local.as_slice())?;
            let key = name(alloc, key.as_slice())?;
            Ok(Some(Join { layer, local, key }))
        }
        _ => Err(Refusal::Bad),
    }
}

fn set_join(alloc: Global, words: &[Word]) -> Result<Edit, Refusal>
    ensures { Answers result ((edit_row edit_name.SetJoin).makes words.now) }
{
    let [layer, rest @ ..] = words else {
        return Err(Refusal::Bad);
    };
    let layer = number(layer.as_slice())?;
    let join = join(alloc, rest)?;
    Ok(Edit::SetJoin { layer, join })
}

/// A text layer without features, shown as it is painted, in a symbol without parts.
fn empty_layer(alloc: Global, id: u32, name: Text, columns: Values) -> NewLayer
    ensures { result ≡ empty_layer id name columns }
{
    let table = FeatureList::of(columns, Sequence::new(alloc), Sequence::new(alloc));
    let no_parts = Symbol {
        fill: None,
        pen: None,
        marker: None,
    };
    let scales = Scales {
        least: None,
        greatest: None,
    };
    NewLayer {
        id,
        name,
        contents: LayerData::Text(table),
        visible: true,
        opacity: 255,
        blend: Blend::Normal,
        mask: None,
        join: None,
        style: Style::Single(no_parts),
        scales,
    }
}

/// `id name column..`.
#[tactic(auto, unfolding(crate::specs::Table::new_layer))]
fn new_layer(alloc: Global, words: &[Word]) -> Result<NewLayer, Refusal>
    ensures { Answers result (new_layer words.now) }
{
    let [id, name, columns @ ..] = words else {
        return Err(Refusal::Bad);
    };
    let id = self::id(id.as_slice())?;
    let name = self::name(alloc, name.as_slice())?;
    let columns = names(alloc, columns)?;
    Ok(empty_layer(alloc, id, name, columns))
}

fn add_layer(alloc: Global, words: &[Word]) -> Result<Edit, Refusal>
    ensures { Answers result ((edit_row edit_name.AddLayer).makes words.now) }
{
    let [place, rest @ ..] = words else {
        return Err(Refusal::Bad);
    };
    let place = number(place.as_slice())?;
    let layer = new_layer(alloc, rest)?;
    Ok(Edit::AddLayer { place, layer })
}

fn remove_layer(words: &[Word]) -> Result<Edit, Refusal>
    ensures { Answers result ((edit_row edit_name.RemoveLayer).makes words.now) }
{
    let layer = only_number(words)?;
    Ok(Edit::RemoveLayer { layer })
}

fn set_opacity(words: &[Word]) -> Result<Edit, Refusal>
    ensures { Answers result ((edit_row edit_name.SetOpacity).makes words.now) }
{
    let [layer, opacity] = words else {
        return Err(Refusal::Bad);
    };
    let layer = number(layer.as_slice())?;
    let opacity = whole(opacity.as_slice(), 0, 255)?;
    let opacity = opacity as u8;
    Ok(Edit::SetOpacity { layer, opacity })
}

fn set_blend(words: &[Word]) -> Result<Edit, Refusal>
    ensures { Answers result ((edit_row edit_name.SetBlend).makes words.now) }
{
    let [layer, blend] = words else {
        return Err(Refusal::Bad);
    };
    let layer = number(layer.as_slice())?;
    let blend = value(blend.as_slice())?;
    Ok(Edit::SetBlend { layer, blend })
}

fn show(words: &[Word]) -> Result<Edit, Refusal>
    ensures { Answers result ((edit_row edit_name.Show).makes words.now) }
{
    let layer = only_number(words)?;
    Ok(Edit::SetVisible {
        layer,
        visible: true,
    })
}

fn hide(words: &[Word]) -> Result<Edit, Refusal>
    ensures { Answers result ((edit_row edit_name.Hide).makes words.now) }
{
    let layer = only_number(words)?;
    Ok(Edit::SetVisible {
        layer,
        visible: false,
    })
}

fn move_layer(words: &[Word]) -> Result<Edit, Refusal>
    ensures { Answers result ((edit_row edit_name.MoveLayer).makes words.now) }
{
    let [layer, place] = words else {
        return Err(Refusal::Bad);
    };
    let layer = number(layer.as_slice())?;
    let place = number(place.as_slice())?;
    Ok(Edit::MoveLayer { layer, place })
}

fn set_background(words: &[Word]) -> Result<Edit, Refusal>
    ensures { Answers result ((edit_row edit_name.SetBackground).makes words.now) }
{
    let [colour] = words else {
        return Err(Refusal::Bad);
    };
    let colour = rgb(colour.as_slice())?;
    Ok(Edit::SetBackground { colour })
}

/// A bound of scales, in millionths from 0 to 10^15, or `none`.
fn bound(word: &[u8]) -> Result<Option<i64>, Refusal>
    ensures exact { Answers result (bound word.now) }
    ensures kept { IfOk result (λ found. IfSome found IsScale) }
{
    if is_none_word(word) {
        return Ok(None);
    }
    let millionths = decimal(word, 0, 1_000_000_000_000_000)?;
    Ok(Some(millionths))
}

/// Whether the least bound isn't above the greatest, where both are there.
fn is_ordered(least: Option<i64>, greatest: Option<i64>) -> bool
    ensures { result ≡ is_ordered least greatest }
{
    match (least, greatest) {
        (Some(least), Some(greatest)) => least <= greatest,
        _ => true,
    }
}

/// `least greatest`.
#[tactic(auto, unfolding(crate::specs::Table::scales))]
fn scales(words: &[Word]) -> Result<Scales, Refusal>
    ensures { Answers result (scales words.now) }
{
    let [least, greatest] = words else {
        return Err(Refusal::Bad);
    };
    let least = bound(least.as_slice())?;
    let greatest = bound(greatest.as_slice())?;
    if is_ordered(least, greatest) {
        Ok(Scales { least, greatest })
    } else {
        Err(Refusal::Bad)
    }
}

fn set_scales(words: &[Word]) -> Result<Edit, Refusal>
    ensures { Answers result ((edit_row edit_name.SetScales).makes words.now) }
{
    let [layer, rest @ ..] = words else {
        return Err(Refusal::Bad);
    };
    let layer = number(layer.as_slice())?;
    let scales = scales(rest)?;
    Ok(Edit::SetScales { layer, scales })
}

/// The edit of a name and the words behind it.
fn named(alloc: Global, name: EditName, words: &[Word]) -> Result<Edit, Refusal>
    ensures { Answers result ((edit_row name).makes words.now) }
{
    match name {
        EditName::AddFeature => add_feature(alloc, words),
        EditName::InsertFeature => insert_feature(alloc, words),
        EditName::RemoveFeature => remove_feature(words),
        EditName::SetGeometry => set_geometry(alloc, words),
        EditName::SetAttribute => set_attribute(alloc, words),
        EditName::SetCell => set_cell(words),
        EditName::SetStyle => set_style(words),
        EditName::SetRamp => set_ramp(alloc, words),
        EditName::SetMask => set_mask(words),
        EditName::SetJoin => set_join(alloc, words),
        EditName::AddLayer => add_layer(alloc, words),
        EditName::RemoveLayer => remove_layer(words),
        EditName::SetOpacity => set_opacity(words),
        EditName::SetBlend => set_blend(words),
        EditName::Show => show(words),
        EditName::Hide => hide(words),
        EditName::MoveLayer => move_layer(words),
        EditName::SetBackground => set_background(words),
        EditName::SetScales => set_scales(words),
    }
}

/// The edit of a name and the words behind it.
pub fn edit(alloc: Global, name: &Word, words: &[Word]) -> Result<Edit, Refusal>
    ensures { Answers result (edit_made name.now words.now) }
{
    let name = value(name.as_slice())?;
    named(alloc, name, words)
}
