//! The text of a journal.

ghost use Rattle.std.specs.Prelude.{◌≡◌, ℕ, ◌++◌, ◌∷◌, [], ◌≤◌, ◌+◌, length, IfOk, OnOk};
ghost use Rattle.std.specs.Prelude.{string_bytes, decimal};
ghost use Rattle.std.specs.Prelude.{codes, if◌then◌else◌, ◌<◌};
ghost use Rattle.std.specs.Fmt.{signed_decimal};
ghost use Rattle.cv_event.specs.Lines.{corner_part};
ghost use Rattle.std.specs.List.{flat_map};
ghost use Rattle.cv_event.specs.Lines.{ended, act_words, edits_with, entry_line, entry_lines, refused_line};
ghost use Rattle.cv_event.specs.declared.entry.Act.TheVariants as act;
ghost use Rattle.cv_event.specs.Lines.{last_line, listed_slots, slots_word, journal_text};

use crate::entry::{Act, Entry};
use crate::journal::Journal;
use crate::refused::{Refused, RefusedList};
use crate::words::{fate_word, hit_word, reason_word, verdict_word};
use cv_model::{NoMemory, View};
use std::alloc::Global;

/// Puts a slot behind others where it is set.
fn push_where(slots: &mut Vec<u32>, slot: u32, is_set: bool) -> Result<(), NoMemory>
    ensures { OnOk result (slots.new.items
        ≡ (if is_set then slots.old.items ++ slot ∷ [] else slots.old.items)) }
{
    if is_set {
        slots.push(slot)?;
    }
    Ok(())
}

/// The slots that a preview lists, ascending.
#[tactic(auto, unfolding(crate::specs::Lines::listed_slots))]
fn listed_slots(alloc: Global, bits: u32) -> Result<Vec<u32>, NoMemory>
    ensures { IfOk result (λ slots. slots.items ≡ listed_slots bits) }
{
    let mut slots = Vec::new(alloc);
    let mut rest = bits;
    for slot in 0..32u32 {
        push_where(&mut slots, slot, rest % 2 == 1)?;
        rest /= 2;
    }
    Ok(slots)
}

/// Puts a number behind a text.
fn push_number(text: &mut Vec<u8>, alloc: Global, number: u32) -> Result<(), NoMemory>
    ensures { OnOk result (text.new.items ≡ text.old.items ++ decimal number) }
{
    let digits = number.to_string(alloc)?;
    text.extend_from_slice(digits.as_bytes())?;
    Ok(())
}

/// Puts further slots behind a text, each after a comma.
fn push_slots(text: &mut Vec<u8>, alloc: Global, slots: &[u32]) -> Result<(), NoMemory>
    ensures { OnOk result (text.new.items
        ≡ text.old.items ++ flat_map (λ slot. 44 ∷ decimal slot) slots.now) }
{
    for slot in slots {
        text.push(b',')?;
        push_number(text, alloc, *slot)?;
    }
    Ok(())
}

/// Puts slots behind a text with commas between them, or `-` for none.
fn push_slots_word(text: &mut Vec<u8>, alloc: Global, slots: &[u32]) -> Result<(), NoMemory>
    ensures { OnOk result (text.new.items ≡ text.old.items ++ slots_word slots.now) }
{
    match slots {
        [] => {
            text.push(b'-')?;
            Ok(())
        }
        [first, rest @ ..] => {
            push_number(text, alloc, *first)?;
            push_slots(text, alloc, rest)
        }
    }
}

/// Puts a piece behind a text.
fn push_piece(text: &mut Vec<u8>, piece: String) -> Result<(), NoMemory>
    ensures { OnOk result (text.new.items ≡ text.old.items ++ string_bytes piece) }
{
    text.extend_from_slice(piece.as_bytes())?;
    Ok(())
}

/// The first part of the end of a view's line, with its corner.
fn corner_text(alloc: Global, canvas: u32, left: i64, top: i64) -> Result<String, NoMemory>
    ensures { IfOk result (λ text. string_bytes text ≡ corner_part (decimal canvas) (signed_decimal left)
        (signed_decimal top)) }
{
    let text = format!(in alloc; " view {canvas} {left} {top}")?;
    Ok(text)
}

/// The second part, with the side of its pixels and its size.
fn size_text(alloc: Global, unit: i64, width: u32, height: u32) -> Result<String, NoMemory>
    ensures { IfOk result (λ text. string_bytes text ≡ ended (signed_decimal unit ∷ decimal width
        ∷ decimal height ∷ [])) }
{
    let text = format!(in alloc; " {unit} {width} {height}\n")?;
    Ok(text)
}

/// Puts the end of a view's line, of its numbers, behind its number and its caller.
fn push_numbers(
    text: &mut Vec<u8>,
    alloc: Global,
    canvas: u32,
    left: i64,
    top: i64,
    unit: i64,
    size: (u32, u32),
) -> Result<(), NoMemory>
    ensures { OnOk result (text.new.items ≡ text.old.items ++ ended (codes "view" ∷ decimal canvas
        ∷ signed_decimal left ∷ signed_decimal top ∷ signed_decimal unit ∷ decimal size.0
        ∷ decimal size.1 ∷ [])) }
{
    let corner = corner_text(alloc, canvas, left, top)?;
    push_piece(text, corner)?;
    let size = size_text(alloc, unit, size.0, size.1)?;
    push_piece(text, size)?;
    Ok(())
}

/// Puts the end of a view's line behind its number and its caller.
fn push_view_end(text: &mut Vec<u8>, alloc: Global, canvas: u32, view: View) -> Result<(), NoMemory>
    ensures { OnOk result (text.new.items ≡ text.old.items ++ ended (act_words 0 (act.View canvas view))) }
{
    push_numbers(
        text,
        alloc,
        canvas,
        view.lx2,
        view.ty2,
        view.u,
        (view.w, view.h),
    )
}

/// Puts the end of a preview's line behind its number and its caller.
fn push_preview_end(text: &mut Vec<u8>, alloc: Global, job: u32, bits: u32) -> Result<(), NoMemory>
    ensures { OnOk result (text.new.items ≡ text.old.items ++ ended (act_words 0 (act.Preview job bits))) }
{
    let slots = listed_slots(alloc, bits)?;
    let begin = format!(in alloc; " preview {job} ")?;
    push_piece(text, begin)?;
    push_slots_word(text, alloc, slots.as_slice())?;
    text.push(b'\n')?;
    Ok(())
}

/// Puts the end of an act's line behind its number and its caller, where so many edits stand up to it.
fn push_act_end(text: &mut Vec<u8>, alloc: Global, act: &Act, edits: u64) -> Result<(), NoMemory>
    ensures { OnOk result (text.new.items ≡ text.old.items ++ ended (act_words edits act.now)) }
{
    match act {
        Act::Edit(_, refusal) => {
            let word = verdict_word(*refusal);
            push_piece(text, format!(in alloc; " edit {edits} {word}\n")?)
        }
        Act::View(canvas, view) => push_view_end(text, alloc, *canvas, *view),
        Act::Start(canvas, job) => push_piece(text, format!(in alloc; " start {canvas} {job}\n")?),
        Act::Look(job, slot, hit) => {
            let word = hit_word(*hit);
            push_piece(text, format!(in alloc; " look {job} {slot} {word}\n")?)
        }
        Act::Deliver(job, slot, fate) => {
            let word = fate_word(*fate);
            push_piece(text, format!(in alloc; " deliver {job} {slot} {word}\n")?)
        }
        Act::Compose(job) => push_piece(text, format!(in alloc; " compose {job}\n")?),
        Act::Finish(job) => push_piece(text, format!(in alloc; " finish {job}\n")?),
        Act::Fail(job) => push_piece(text, format!(in alloc; " fail {job}\n")?),
        Act::Cancel(job) => push_piece(text, format!(in alloc; " cancel {job}\n")?),
        Act::Preview(job, bits) => push_preview_end(text, alloc, *job, *bits),
        Act::Save(canvas, job) => push_piece(text, format!(in alloc; " save {canvas} {job}\n")?),
    }
}

/// Puts the line of an entry of this number behind a text, where so many edits stand up to it.
fn push_entry(
    text: &mut Vec<u8>,
    alloc: Global,
    number: u64,
    edits: u64,
    entry: &Entry,
) -> Result<(), NoMemory>
    ensures { OnOk result (text.new.items ≡ text.old.items ++ entry_line number edits entry.now) }
{
    let caller = entry.caller;
    push_piece(text, format!(in alloc; "{number} {caller}")?)?;
    push_act_end(text, alloc, &entry.act, edits)
}

/// How many edits stand up to an act, where so many stand before it.
fn edits_with(edits: u64, act: &Act) -> u64
    requires { edits < 18446744073709551615 }
    ensures counted { result ≡ edits_with edits act.now }
    ensures most { result ≤ edits + 1 }
{
    match act {
        Act::Edit(_, _) => edits + 1,
        _ => edits,
    }
}

/// Puts the lines of entries behind a text.
fn push_entries(text: &mut Vec<u8>, alloc: Global, entries: &[Entry]) -> Result<(), NoMemory>
    ensures { OnOk result (text.new.items ≡ text.old.items ++ entry_lines 1 0 entries.now) }
{
    let mut edits = 0;
    for (index, entry) in entries.iter().enumerate() {
        edits = edits_with(edits, &entry.act);
        push_entry(text, alloc, index as u64 + 1, edits, entry)?;
    }
    Ok(())
}

/// Puts the line of a refused command behind a text.
fn push_command(text: &mut Vec<u8>, alloc: Global, command: Refused) -> Result<(), NoMemory>
    ensures { OnOk result (text.new.items ≡ text.old.items ++ refused_line command) }
{
    let (line, seen, word) = (command.line, command.seen, reason_word(command.reason));
    push_piece(text, format!(in alloc; "refused {line} {seen} {word}\n")?)
}

/// Puts the lines of refused commands behind a text.
fn push_refused(text: &mut Vec<u8>, alloc: Global, refused: &[Refused]) -> Result<(), NoMemory>
    ensures { OnOk result (text.new.items ≡ text.old.items ++ flat_map refused_line refused.now) }
{
    for command in refused {
        push_command(text, alloc, *command)?;
    }
    Ok(())
}

/// The text of a journal, of the commands that were refused, and of the number of written images: a line for
/// each entry, numbered from 1, and for each command, and the line `end` with the numbers of entries and of
/// images. The text names an edit by its number among the edits.
#[tactic(auto, unfolding(crate::specs::Lines::journal_text))]
pub fn text(
    alloc: Global,
    journal: &Journal,
    refused: &RefusedList,
    images: u32,
) -> Result<Vec<u8>, NoMemory>
    ensures { IfOk result (λ text. text.items ≡ journal_text journal.now.entries refused.now images) }
{
    let mut text = Vec::new(alloc);
    push_entries(&mut text, alloc, journal.as_slice())?;
    push_refused(&mut text, alloc, refused.as_slice())?;
    let entries = journal.len();
    push_piece(&mut text, format!(in alloc; "end {entries} {images}\n")?)?;
    Ok(text)
}
