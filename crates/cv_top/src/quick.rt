//! The command `quick`: one layer is read, and its project painted.

ghost use Rattle.std.specs.Prelude.{◌≡◌, ◌∷◌, [], IfOk};
ghost use Rattle.cv_model.specs.Openings.{CanOpen};
ghost use Rattle.cv_model.specs.Symbols.{filled};
ghost use Rattle.cv_outside.specs.Seen.{tray_seen, sink_seen};
ghost use Rattle.cv_store.specs.Stores.{project_of};
ghost use Rattle.cv_top.specs.Opened.{quick_source, quick_layer, quick_file, quick_project};
ghost use Rattle.cv_top.specs.Outcomes.{picture_made};
ghost use Rattle.cv_top.specs.Runs.{Untouched, IsWritten, Obeys};

use crate::orders::{Order, QuickOrder};
use crate::pictures::write_last_picture;
use cv_model::{
    Blend, CanvasList, Delimiter, LayerData, LayerFile, LayerList, NoMemory, ProjectFile, Rgb,
    Rgba, Scales, Sequence, Source, Style, Symbol, Text,
};
use cv_open::{End, Left, read_layer};
use cv_outside::{Shelf, Sink, Tray};
use cv_store::Store;
use std::alloc::Global;

/// The colour below the layer.
const WHITE: Rgb = Rgb {
    r: 255,
    g: 255,
    b: 255,
};

/// The source of the layer in the delimited text of this name.
fn quick_source(alloc: Global, csv: &str) -> Result<Source, NoMemory>
    ensures { IfOk result (λ source. source ≡ quick_source csv.now) }
{
    let file = Text::of(alloc, csv)?;
    let geometry = Text::of(alloc, "wkt")?;
    Ok(Source::Text {
        file,
        delimiter: Delimiter::Comma,
        geometry,
    })
}

/// The symbol of an opaque fill alone.
fn filled(fill: Rgb) -> Symbol
    ensures { result ≡ filled fill }
{
    let fill = Rgba {
        r: fill.r,
        g: fill.g,
        b: fill.b,
        a: 255,
    };
    Symbol {
        fill: Some(fill),
        pen: None,
        marker: None,
    }
}

/// The layer with this fill, as it would stand in a project file.
fn quick_layer(alloc: Global, fill: Rgb) -> Result<LayerFile, NoMemory>
    ensures { IfOk result (λ layer. layer ≡ quick_layer fill) }
{
    let name = Text::of(alloc, "")?;
    let source = quick_source(alloc, "")?;
    Ok(LayerFile {
        id: 1,
        name,
        source,
        visible: true,
        opacity: 255,
        blend: Blend::Normal,
        mask: None,
        join: None,
        style: Style::Single(filled(fill)),
        scales: Scales {
            least: None,
            greatest: None,
        },
    })
}

/// The project of that layer over white.
fn quick_file(alloc: Global, fill: Rgb) -> Result<ProjectFile, NoMemory>
    ensures { IfOk result (λ file. file ≡ quick_file fill) }
{
    let mut layers = LayerList::new(alloc);
    layers.put(quick_layer(alloc, fill)?)?;
    Ok(ProjectFile::of(WHITE, CanvasList::new(alloc), layers))
}

/// The store of that project with the data of its layer.
fn quick_store(alloc: Global, fill: Rgb, contents: LayerData) -> Result<Store, NoMemory>
    requires { CanOpen (quick_file fill) (contents ∷ []) }
    ensures { IfOk result (λ store. project_of store ≡ quick_project fill contents) }
{
    let file = quick_file(alloc, fill)?;
    let mut all = Sequence::new(alloc);
    all.put(contents)?;
    Store::open(alloc, file, all.into_vec())
}

/// Paints the layer that was read, and writes the picture and its size.
fn paint_layer<T: Tray, O: Sink>(
    alloc: Global,
    contents: LayerData,
    order: &QuickOrder<'_>,
    tray: &mut T,
    out: &mut O,
) -> End
    requires { CanOpen (quick_file order.now.fill) (contents ∷ []) }
    ensures untouched { Untouched result ⊥ ⊥ (out.new ≡ out.old) }
    ensures written { IsWritten result
        (picture_made order.now.out (quick_project order.now.fill contents) order.now.view)
        (tray_seen T.Tray tray.old) (tray_seen T.Tray tray.new)
        (sink_seen O.Sink out.old) (sink_seen O.Sink out.new) }
{
    match quick_store(alloc, order.fill, contents) {
        Ok(store) => write_last_picture(alloc, store, &order.view, order.out, tray, out),
        Err(_) => End::NoMemory,
    }
}

/// Reads the layer of this source, and paints it.
fn paint_source<F: Shelf, T: Tray, O: Sink>(
    alloc: Global,
    source: &Source,
    order: &QuickOrder<'_>,
    shelf: &mut F,
    tray: &mut T,
    out: &mut O,
) -> End
    requires { source.now ≡ quick_source order.now.csv }
    ensures { Obeys F.Shelf T.Tray O.Sink (Order.Quick order.now) result
        shelf.old shelf.new tray.old tray.new out.old out.new }
{
    match read_layer(alloc, shelf, 0, &Left::all(), source) {
        Ok(read) => paint_layer(alloc, read.contents, order, tray, out),
        Err(end) => end,
    }
}

/// Reads the layer's file, once, and paints what it spells.
pub(crate) fn quick<F: Shelf, T: Tray, O: Sink>(
    alloc: Global,
    order: &QuickOrder<'_>,
    shelf: &mut F,
    tray: &mut T,
    out: &mut O,
) -> End
    ensures { Obeys F.Shelf T.Tray O.Sink (Order.Quick order.now) result
        shelf.old shelf.new tray.old tray.new out.old out.new }
{
    match quick_source(alloc, order.csv) {
        Ok(source) => paint_source(alloc, &source, order, shelf, tray, out),
        Err(_) => End::NoMemory,
    }
}
