//! A store as a project file opens it.

ghost use Rattle.std.specs.Prelude.{◌≡◌, true, [], map, zip, IfOk};
ghost use Rattle.cv_model.specs.Edits.{fits};
ghost use Rattle.cv_model.specs.Layers.{contents_of};
ghost use Rattle.cv_model.specs.Openings.{opening_of, layer_of_file, CanOpen};
ghost use Rattle.cv_store.specs.Laws.{IsBehind};
ghost use Rattle.cv_store.specs.Opened.{first_row, opened_row, store_of, CanBeRows};

use crate::layers::LayerMap;
use crate::row::Row;
use crate::store::Store;
use cv_chunks::Shared;
use cv_layer::{Layer, NoMemory};
use cv_model::{LayerData, LayerFile, LayerFrame, ProjectFile};
use std::alloc::Global;

/// A layer of a file with its data, which is moved into it, at revision 1.
fn opened_row(alloc: Global, file: LayerFile, contents: LayerData) -> Result<Row, NoMemory>
    requires { fits file.style (contents_of contents) ≡ true }
    ensures { IfOk result (λ row. row ≡ first_row (layer_of_file file contents)) }
{
    let frame = LayerFrame {
        id: file.id,
        visible: file.visible,
        opacity: file.opacity,
        blend: file.blend,
        scales: file.scales,
    };
    let layer = Layer::of(
        alloc, file.id, file.style, file.mask, file.join, contents, 1,
    )?;
    match Shared::of(alloc, layer) {
        Ok(layer) => Ok(Row::of(layer, file.name, frame)),
        Err(refused) => Err(refused.1),
    }
}

/// These layers with their data, in order, each at revision 1.
fn opened_rows(
    alloc: Global,
    files: Vec<LayerFile>,
    contents: Vec<LayerData>,
) -> Result<LayerMap, NoMemory>
    requires { CanBeRows (zip files.items contents.items) }
    ensures { IfOk result (λ made. made ≡ map opened_row (zip files.items contents.items)) }
{
    let mut made = LayerMap::new(alloc);
    let mut rest = contents.into_iter();
    for file in files {
        let Some(data) = rest.next() else {
            return Ok(made);
        };
        let row = opened_row(alloc, file, data)?;
        made.insert(made.len(), row)?;
    }
    Ok(made)
}

impl Store {
    /// The store of a project file and the data of its layers, in their order, which are moved into it. Its
    /// version is 1, and so is each layer's revision. The one refusal is want of memory.
    pub fn open(
        alloc: Global,
        file: ProjectFile,
        contents: Vec<LayerData>,
    ) -> Result<Store, NoMemory>
        requires { CanOpen file contents.items }
        ensures value { IfOk result (λ store. store ≡ store_of file contents.items) }
        ensures behind { IfOk result (IsBehind (opening_of file contents.items).project []) }
    {
        let (background, _, layers) = file.into_parts();
        let layers = opened_rows(alloc, layers.into_vec(), contents)?;
        Ok(Store::opened(alloc, background, layers))
    }
}
