//! What a command writes: its picture and its text.

ghost use Rattle.std.specs.Prelude.{◌≡◌, [], IfOk, string_bytes};
ghost use Rattle.cv_outside.specs.Seen.{TraySeen, tray_seen, sink_seen};
ghost use Rattle.cv_top.specs.Outcomes.{Made, image_line, one_made};
ghost use Rattle.cv_top.specs.Runs.{Untouched, IsWritten};

use cv_model::{NoMemory, View};
use cv_open::{End, Which};
use cv_outside::{Sink, Tray, TrayEnd, Unwritten, write_all};
use std::alloc::Global;

/// The line that tells the size of a picture.
pub(crate) fn image_line(alloc: Global, view: &View) -> Result<String, NoMemory>
    ensures { IfOk result (λ line. string_bytes line ≡ image_line view.now) }
{
    let (w, h) = (view.w, view.h);
    let line = format!(in alloc; "image {w} {h}\n")?;
    Ok(line)
}

/// Writes a text.
pub(crate) fn write_text<O: Sink>(text: &[u8], out: &mut O) -> End
    ensures untouched { Untouched result ⊥ ⊥ (out.new ≡ out.old) }
    ensures written { (tray : TraySeen) → IsWritten result (Made [] text.now) tray tray
        (sink_seen O.Sink out.old) (sink_seen O.Sink out.new) }
{
    match write_all(out, text) {
        Ok(()) => End::Done,
        Err(Unwritten::Failed) => End::WriteFault(Which::Text),
        Err(Unwritten::NoMemory) => End::NoMemory,
    }
}

/// Writes the output's bytes under the name, and then the text.
pub(crate) fn write_outputs<T: Tray, O: Sink>(
    name: &str,
    bytes: &[u8],
    text: &[u8],
    tray: &mut T,
    out: &mut O,
) -> End
    ensures untouched { Untouched result ⊥ ⊥ (out.new ≡ out.old) }
    ensures written { IsWritten result (one_made name.now bytes.now text.now)
        (tray_seen T.Tray tray.old) (tray_seen T.Tray tray.new)
        (sink_seen O.Sink out.old) (sink_seen O.Sink out.new) }
{
    match tray.write(name, bytes) {
        TrayEnd::Failed => End::WriteFault(Which::Output(1)),
        TrayEnd::NoMemory => End::NoMemory,
        TrayEnd::Kept => match write_all(out, text) {
            Ok(()) => End::Done,
            Err(Unwritten::Failed) => End::WriteFault(Which::Text),
            Err(Unwritten::NoMemory) => End::NoMemory,
        },
    }
}
