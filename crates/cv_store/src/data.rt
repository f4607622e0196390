//! Edits of what a layer holds, each a function of it that answers other contents.

ghost use Rattle.std.specs.Prelude.{◌≡◌, ◌<◌, length, IfOk, IsSome, position, slice_get, bytes_eq, Some, []};
ghost use Rattle.cv_model.specs.declared.edit.Edit.TheVariants.{AddFeature, InsertFeature, RemoveFeature};
ghost use Rattle.cv_model.specs.declared.edit.Edit.TheVariants.{SetGeometry, SetAttribute, SetCell};
ghost use Rattle.cv_model.specs.Features.{IsFeatureTable};
ghost use Rattle.cv_layer.specs.Layers.{contents_seen};
ghost use Rattle.cv_store.specs.Data.{changed, data_layer, answer_to, table_seen, cells_seen, HasRoom};
ghost use Rattle.cv_store.specs.Data.{Judges};

use crate::room::Room;
use crate::tally::{NONE, feature_tally, geometry_tally};
use cv_layer::{Cells, Duplicate, FeatureRow, LayerContents, NoMemory, Table};
use cv_model::{Cell, Edit, EditError, Feature, Geometry, Text};
use std::alloc::Global;

/// The feature at a place.
fn row_at(table: &Table, at: u64) -> &FeatureRow
    requires { at < length table.now.features }
    ensures row { slice_get table.now.features at ≡ Some result.now }
    ensures kept { IsFeatureTable
        (record { columns = table.now.columns; features = table.now.features; notes = [] }) }
{
    let Some(row) = table.rows().get(at) else {
        unreachable!()
    };
    row
}

/// The place of the first column of a name.
fn column_in(columns: &[Text], name: &Text) -> Option<usize>
    ensures { result ≡ position (bytes_eq name.now) columns.now }
{
    columns
        .iter()
        .position(|column| name.as_str() == column.as_str())
}

/// A feature put in, so that it stands at a place.
fn inserted(
    alloc: Global,
    table: &Table,
    room: Room,
    place: u64,
    feature: &Feature,
) -> Result<Table, EditError>
    requires { HasRoom room (table_seen table.now) }
    ensures answer { Judges result
        (answer_to room (table_seen table.now) (InsertFeature 0 place feature.now)) }
    ensures made { IfOk result (λ made.
        table_seen made ≡ changed (InsertFeature 0 place feature.now) (table_seen table.now)) }
{
    if table.find(feature.id).is_some() {
        return Err(EditError::DuplicateId);
    }
    if room.is_passed(NONE, feature_tally(feature)) {
        return Err(EditError::Limit);
    }
    if place > table.rows().len() {
        return Err(EditError::BadPlace);
    }
    if feature.values.len() != table.columns().len() as u64 {
        return Err(EditError::BadPlace);
    }
    let copy = match feature.duplicate(alloc) {
        Ok(copy) => copy,
        Err(_) => return Err(EditError::NoMemory),
    };
    match table.with_feature(place, copy) {
        Ok(made) => Ok(made),
        Err(_) => Err(EditError::NoMemory),
    }
}

/// A feature put behind the others.
fn added(alloc: Global, table: &Table, room: Room, feature: &Feature) -> Result<Table, EditError>
    requires { HasRoom room (table_seen table.now) }
    ensures answer { Judges result (answer_to room (table_seen table.now) (AddFeature 0 feature.now)) }
    ensures made { IfOk result
        (λ made. table_seen made ≡ changed (AddFeature 0 feature.now) (table_seen table.now)) }
{
    inserted(alloc, table, room, table.rows().len(), feature)
}

/// A feature taken out.
fn removed(table: &Table, room: Room, id: u32) -> Result<Table, EditError>
    requires { HasRoom room (table_seen table.now) }
    ensures answer { Judges result (answer_to room (table_seen table.now) (RemoveFeature 0 id)) }
    ensures made { IfOk result
        (λ made. table_seen made ≡ changed (RemoveFeature 0 id) (table_seen table.now)) }
{
    let Some(at) = table.find(id) else {
        return Err(EditError::UnknownFeature);
    };
    if room.spent {
        return Err(EditError::Limit);
    }
    match table.without_feature(id, at) {
        Ok(made) => Ok(made),
        Err(_) => Err(EditError::NoMemory),
    }
}

/// Another geometry of a feature, or none.
fn with_geometry(
    alloc: Global,
    table: &Table,
    room: Room,
    id: u32,
    geometry: &Option<Geometry>,
) -> Result<Table, EditError>
    requires { HasRoom room (table_seen table.now) }
    ensures answer { Judges result
        (answer_to room (table_seen table.now) (SetGeometry 0 id geometry.now)) }
    ensures made { IfOk result
        (λ made. table_seen made ≡ changed (SetGeometry 0 id geometry.now) (table_seen table.now)) }
{
    let Some(at) = table.find(id) else {
        return Err(EditError::UnknownFeature);
    };
    let was = geometry_tally(row_at(table, at).geometry());
    if room.is_passed(was, geometry_tally(geometry.as_ref())) {
        return Err(EditError::Limit);
    }
    let copy = match geometry.duplicate(alloc) {
        Ok(copy) => copy,
        Err(_) => return Err(EditError::NoMemory),
    };
    match table.with_geometry(id, at, copy) {
        Ok(made) => Ok(made),
        Err(_) => Err(EditError::NoMemory),
    }
}

/// Another text in the first column of a name, of a feature.
fn with_attribute(
    table: &Table,
    room: Room,
    id: u32,
    column: &Text,
    value: &Text,
) -> Result<Table, EditError>
    requires { HasRoom room (table_seen table.now) }
    ensures answer { Judges result
        (answer_to room (table_seen table.now) (SetAttribute 0 id column.now value.now)) }
    ensures made { IfOk result (λ made. table_seen made ≡
        changed (SetAttribute 0 id column.now value.now) (table_seen table.now)) }
{
    let Some(at) = table.find(id) else {
        return Err(EditError::UnknownFeature);
    };
    if room.spent {
        return Err(EditError::Limit);
    }
    let Some(place) = column_in(table.columns(), column) else {
        return Err(EditError::BadPlace);
    };
    match table.with_value(id, at, place, value) {
        Ok(made) => Ok(made),
        Err(_) => Err(EditError::NoMemory),
    }
}

/// Another cell of a grid.
fn with_cell(cells: &Cells, room: Room, row: u32, col: u32, cell: Cell) -> Result<Cells, EditError>
    requires { HasRoom room (cells_seen cells.now) }
    ensures answer { Judges result (answer_to room (cells_seen cells.now) (SetCell 0 row col cell)) }
    ensures made { IfOk result
        (λ made. cells_seen made ≡ changed (SetCell 0 row col cell) (cells_seen cells.now)) }
{
    if room.spent {
        return Err(EditError::Limit);
    }
    if row >= cells.rows() {
        return Err(EditError::BadPlace);
    }
    if col >= cells.cols() {
        return Err(EditError::BadPlace);
    }
    match cells.with_cell(row, col, cell) {
        Ok(made) => Ok(made),
        Err(_) => Err(EditError::NoMemory),
    }
}

/// What an edit makes of a text layer.
fn changed_table(alloc: Global, table: &Table, room: Room, edit: &Edit) -> Result<Table, EditError>
    requires room { HasRoom room (table_seen table.now) }
    requires kind { IsSome (data_layer edit.now) }
    ensures answer { Judges result (answer_to room (table_seen table.now) edit.now) }
    ensures made { IfOk result (λ made. table_seen made ≡ changed edit.now (table_seen table.now)) }
{
    match edit {
        Edit::AddFeature { feature, .. } => added(alloc, table, room, feature),
        Edit::InsertFeature { at, feature, .. } => {
            inserted(alloc, table, room, u64::from(*at), feature)
        }
        Edit::RemoveFeature { id, .. } => removed(table, room, *id),
        Edit::SetGeometry { id, geometry, .. } => with_geometry(alloc, table, room, *id, geometry),
        Edit::SetAttribute {
            id,
            column,
            value,
            ..
        } => with_attribute(table, room, *id, column, value),
        _ => Err(EditError::WrongKind),
    }
}

/// What an edit makes of a grid.
fn changed_cells(cells: &Cells, room: Room, edit: &Edit) -> Result<Cells, EditError>
    requires room { HasRoom room (cells_seen cells.now) }
    requires kind { IsSome (data_layer edit.now) }
    ensures answer { Judges result (answer_to room (cells_seen cells.now) edit.now) }
    ensures made { IfOk result (λ made. cells_seen made ≡ changed edit.now (cells_seen cells.now)) }
{
    match edit {
        Edit::SetCell { row, col, cell, .. } => with_cell(cells, room, *row, *col, *cell),
        _ => Err(EditError::WrongKind),
    }
}

/// What an edit of a layer's contents makes of them. The contents themselves stay.
pub fn changed(
    alloc: Global,
    contents: &LayerContents,
    room: Room,
    edit: &Edit,
) -> Result<LayerContents, EditError>
    requires room { HasRoom room (contents_seen contents.now) }
    requires kind { IsSome (data_layer edit.now) }
    ensures answer { Judges result (answer_to room (contents_seen contents.now) edit.now) }
    ensures made { IfOk result
        (λ made. contents_seen made ≡ changed edit.now (contents_seen contents.now)) }
{
    match contents {
        LayerContents::Text(table) => {
            Ok(LayerContents::Text(changed_table(alloc, table, room, edit)?))
        }
        LayerContents::Grid(cells) => Ok(LayerContents::Grid(changed_cells(cells, room, edit)?)),
    }
}
