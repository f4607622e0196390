//! The report on an opened project.

ghost use Rattle.std.specs.Prelude.{◌≡◌, ◌++◌, [], OnOk, IfOk, string_bytes};
ghost use Rattle.std.specs.List.{flat_map};
ghost use Rattle.cv_model.specs.ProjectFiles.{IsInForm};
ghost use Rattle.cv_open.specs.Reports.{note_word, note_line, layer_line, layer_lines, layers_lines};
ghost use Rattle.cv_open.specs.Reports.{project_line, report_of};

use crate::opening::Opened;
use crate::room::vertices_in_all;
use cv_model::{FeatureList, LayerData, LayerFile, NoMemory, Note, ProjectFile, WktError};
use std::alloc::Global;

/// The word of a note: why a geometry was refused.
fn note_word(error: &WktError) -> &'static str
    ensures { result.now ≡ note_word error.now }
{
    match error {
        WktError::Syntax(_) => "syntax",
        WktError::Curve(_) => "curve",
        WktError::OutOfRange(_) => "out-of-range",
        WktError::TooDeep => "too-deep",
        WktError::TooMany => "too-many",
        WktError::NoMemory => "no-memory",
    }
}

/// Writes the line of a note.
fn write_note(note: &Note, text: &mut String) -> Result<(), NoMemory>
    ensures { OnOk result (string_bytes text.new ≡ string_bytes text.old ++ note_line note.now) }
{
    let (row, word) = (note.row, note_word(&note.error));
    write!(text, "note {row} {word}\n")?;
    Ok(())
}

/// Writes the lines of notes.
fn write_notes(notes: &[Note], text: &mut String) -> Result<(), NoMemory>
    ensures { OnOk result (string_bytes text.new ≡ string_bytes text.old ++ flat_map note_line notes.now) }
{
    for note in notes {
        write_note(note, text)?;
    }
    Ok(())
}

/// Writes the line of a layer.
fn write_layer_line(id: u32, contents: &LayerData, text: &mut String) -> Result<(), NoMemory>
    ensures { OnOk result (string_bytes text.new ≡ string_bytes text.old ++ layer_line id contents.now) }
{
    match contents {
        LayerData::Text(table) => {
            let (features, notes) = (table.features().len(), table.notes().len());
            let vertices = vertices_in_all(table);
            write!(text, "layer {id} text {features} {vertices} {notes}\n")?;
        }
        LayerData::Grid(grid) => {
            let (cols, rows) = (grid.cols(), grid.rows());
            write!(text, "layer {id} grid {cols} {rows}\n")?;
        }
    }
    Ok(())
}

/// Writes the lines of a layer: its counts, and the notes on its geometries.
fn write_layer(id: u32, contents: &LayerData, text: &mut String) -> Result<(), NoMemory>
    ensures { OnOk result (string_bytes text.new ≡ string_bytes text.old ++ layer_lines id contents.now) }
{
    write_layer_line(id, contents, text)?;
    match contents {
        LayerData::Text(table) => write_notes(table.notes(), text),
        LayerData::Grid(_) => Ok(()),
    }
}

/// Writes the lines of layers, each with its data.
fn write_layers(
    layers: &[LayerFile],
    contents: &[LayerData],
    text: &mut String,
) -> Result<(), NoMemory>
    ensures { OnOk result (string_bytes text.new
        ≡ string_bytes text.old ++ layers_lines layers.now contents.now) }
{
    let mut rest = contents;
    for layer in layers {
        let Some((first, behind)) = rest.split_first() else {
            return Ok(());
        };
        write_layer(layer.id, first, text)?;
        rest = behind;
    }
    Ok(())
}

/// Writes the line of a project.
fn write_project_line(file: &ProjectFile, text: &mut String) -> Result<(), NoMemory>
    ensures { OnOk result (string_bytes text.new ≡ string_bytes text.old ++ project_line file.now) }
{
    let (layers, canvases) = (file.layers().len(), file.canvases().len());
    write!(text, "project {layers} {canvases}\n")?;
    Ok(())
}

/// The lines on an opened project.
fn lines_of(alloc: Global, opened: &Opened) -> Result<String, NoMemory>
    ensures { IfOk result (λ text. string_bytes text
        ≡ layers_lines opened.now.file.layers opened.now.contents ++ project_line opened.now.file) }
{
    let mut text = String::new(alloc);
    write_layers(opened.file.layers(), opened.contents.as_slice(), &mut text)?;
    write_project_line(&opened.file, &mut text)?;
    Ok(text)
}

/// The report on an opened project: for each layer its counts and notes, then those of the project, and then
/// the project as it is written.
#[tactic(auto, unfolding(crate::specs::Reports::report_of))]
pub fn report(alloc: Global, opened: &Opened) -> Result<Vec<u8>, NoMemory>
    requires { IsInForm opened.now.file }
    ensures { IfOk result (λ bytes. bytes.items ≡ report_of opened.now) }
{
    let lines = lines_of(alloc, opened)?;
    let written = cv_project::write(alloc, &opened.file)?;
    let mut bytes = lines.into_bytes();
    bytes.extend_from_slice(written.as_slice())?;
    bytes.push(b'\n')?;
    Ok(bytes)
}
