//! The command `session` over devices in memory that fail: how each run ends, and what stands then.
use super::check_tests::files_of;
use super::paint_tests::{BASE, MASK, TOP, TWO};
use super::*;
use cv_outside::{MemShelf, MemSink, MemTray};
use cv_testing::words_of;
use std::alloc::{AllocError, Global};
use std::collections::BTreeMap;
use std::test::Fail;

const ALL: u64 = u64::MAX;

// The names of the files that the session reads, in order, and another one.
const NAMES: [&str; 6] = [
    "two.json", "top.csv", "base.csv", "mask.csv", "s.txt", "other",
];

const TEXTS: [&str; 6] = [
    TWO,
    TOP,
    BASE,
    MASK,
    "start 0\nwait 0\nsave 0 a.ppm\nstart 0\nwait 0\nsave 0 b.ppm\n",
    "",
];

// A shelf without the file of a number, of which the read of a number fails, both counted from 1.
fn shelf(alloc: Global, absent: usize, failing: u64) -> Result<MemShelf, AllocError> {
    let mut pairs = Vec::new(alloc);
    for at in 0..6 {
        if at + 1 != absent {
            pairs.push((NAMES[at], TEXTS[at]))?;
        }
    }
    let files = files_of(alloc, pairs.as_slice())?;
    Ok(MemShelf::new(alloc, files, Vec::from_slice(alloc, &[failing])?))
}

// How many bytes stand under a name.
fn size_of(tray: &MemTray, name: &str) -> usize {
    match tray.file(name) {
        Some(bytes) => bytes.len(),
        None => 0,
    }
}

// How a session ends without the file of a number, where the read, the write and the piece of text of these
// numbers fail, and the sink takes so many bytes at a time and so many in all: the end, the size of the first
// picture, and how much text was taken.
fn ended(
    alloc: Global,
    absent: usize,
    fails: [u64; 3],
    limits: [u64; 2],
) -> Result<String, AllocError> {
    let [read, write, print] = fails;
    let [piece, room] = limits;
    let mut shelf = shelf(alloc, absent, read)?;
    let failing = Vec::from_slice(alloc, &[write])?;
    let mut tray = MemTray::new(alloc, BTreeMap::new(alloc), failing);
    let sink = MemSink::new(Vec::new(alloc), Vec::from_slice(alloc, &[print])?);
    let mut out = sink.with_limits(piece, room);
    let words = words_of(alloc, "session two.json s.txt --workers 0")?;
    let end = run_once(alloc, words.as_slice(), &mut shelf, &mut tray, &mut out);
    let (first, taken) = (size_of(&tray, "a.ppm"), out.bytes().len());
    format!(in alloc; "{end:?} {first} {taken}")
}

#[test]
fn a_file_of_a_session_is_missing(rt: HostRuntime) -> Result<(), Fail> {
    let wants = ["Project", "Layer(0)", "Layer(1)", "Layer(2)", "Script"];
    for at in 0..5 {
        let want = wants[at];
        let found = ended(rt.alloc(), at + 1, [0, 0, 0], [ALL, ALL])?;
        let text = format!(in rt.alloc(); "Missing({want}) 0 0")?;
        assert_eq!(rt; found.as_str(), text.as_str());
    }
    Ok(())
}

#[test]
fn a_read_of_a_session_fails(rt: HostRuntime) -> Result<(), Fail> {
    let wants = ["Project", "Layer(0)", "Layer(1)", "Layer(2)", "Script"];
    for at in 0..5 {
        let want = wants[at];
        let found = ended(rt.alloc(), 0, [at as u64 + 1, 0, 0], [ALL, ALL])?;
        let text = format!(in rt.alloc(); "ReadFault({want}) 0 0")?;
        assert_eq!(rt; found.as_str(), text.as_str());
    }
    Ok(())
}

#[test]
fn a_picture_or_the_text_of_a_session_fails(rt: HostRuntime) -> Result<(), Fail> {
    let rows = [
        ([0, 0, 0], [ALL, ALL], "Done 59 272"),
        ([0, 1, 0], [ALL, ALL], "WriteFault(Output(1)) 0 0"),
        ([0, 2, 0], [ALL, ALL], "WriteFault(Output(2)) 59 0"),
        ([0, 0, 1], [ALL, ALL], "WriteFault(Text) 59 0"),
        ([0, 0, 0], [1, ALL], "Done 59 272"),
        ([0, 0, 0], [ALL, 100], "WriteFault(Text) 59 100"),
    ];
    for (fails, limits, want) in rows {
        let found = ended(rt.alloc(), 0, fails, limits)?;
        assert_eq!(rt; found.as_str(), want);
    }
    Ok(())
}
