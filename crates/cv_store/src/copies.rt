//! Copies of the data of a layer, in memory of their own.

ghost use Rattle.std.specs.Prelude.{◌≡◌, ◌++◌, IfOk, OnOk};
ghost use Rattle.cv_model.specs.Layers.{contents_of};

use cv_layer::{Duplicate, NoMemory};
use cv_model::{FeatureList, Grid, LayerData, Sequence};
use std::alloc::Global;

/// Puts copies of these items behind those of a list. A refusal leaves some of them there.
fn put_copies<T: Duplicate + Drop>(
    alloc: Global,
    list: &mut Sequence<T>,
    items: &[T],
) -> Result<(), NoMemory>
    ensures { OnOk result (list.new ≡ list.old ++ items.now) }
{
    for item in items {
        list.put(item.duplicate(alloc)?)?;
    }
    Ok(())
}

/// A list of copies of these items.
fn copies<T: Duplicate + Drop>(alloc: Global, items: &[T]) -> Result<Sequence<T>, NoMemory>
    ensures { IfOk result (λ made. made ≡ items.now) }
{
    let mut made = Sequence::with_room(alloc, items.len() as u64)?;
    put_copies(alloc, &mut made, items)?;
    Ok(made)
}

/// The same columns and features, without the notes of a reader.
fn list_copy(alloc: Global, list: &FeatureList) -> Result<FeatureList, NoMemory>
    ensures columns { IfOk result (λ made. made.columns ≡ list.now.columns) }
    ensures features { IfOk result (λ made. made.features ≡ list.now.features) }
{
    let columns = copies(alloc, list.columns())?;
    let features = copies(alloc, list.features())?;
    Ok(FeatureList::of(columns, features, Sequence::new(alloc)))
}

/// The same grid.
fn grid_copy(alloc: Global, grid: &Grid) -> Result<Grid, NoMemory>
    ensures { IfOk result (λ made. made ≡ grid.now) }
{
    let cells = grid.cells().copy(alloc)?;
    Ok(Grid::of(
        grid.cols(),
        grid.rows(),
        grid.left2(),
        grid.bottom2(),
        grid.dx(),
        grid.dy(),
        cells,
    ))
}

/// The same data, without the notes of a reader.
pub fn data_copy(alloc: Global, given: &LayerData) -> Result<LayerData, NoMemory>
    ensures { IfOk result (λ made. contents_of made ≡ contents_of given.now) }
{
    match given {
        LayerData::Text(list) => Ok(LayerData::Text(list_copy(alloc, list)?)),
        LayerData::Grid(grid) => Ok(LayerData::Grid(grid_copy(alloc, grid)?)),
    }
}
