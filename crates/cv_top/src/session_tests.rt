//! The command `session` over devices in memory: worked scripts with their journals and pictures, and words
//! and scripts that are refused.
use super::check_tests::files_of;
use super::paint_tests::{After, BASE, MASK, TOP, TWO, painted, reds};
use super::*;
use cv_outside::{MemShelf, MemTray, SureSink};
use cv_testing::words_of;
use std::alloc::{AllocError, Global};
use std::collections::BTreeMap;
use std::test::Fail;

// A canvas without layers.
const BLANK: &str =
    "{\"version\":1,\"background\":\"102030\",\"canvases\":[{\"width\":2,\"height\":1,\
    \"extent\":[\"0\",\"0\",\"2\",\"1\"]}],\"layers\":[]}";

const ALONE: &str = "session two.json s.txt --workers 0";

// The first job of the project of three layers, done whole.
const STARTED: &str = "1 0 view 0 0 8000000 1000000 4 4\n2 0 start 0 1\n3 0 look 1 0 miss\n\
    4 0 deliver 1 0 stored\n5 0 look 1 1 miss\n6 0 deliver 1 1 stored\n7 0 compose 1\n8 0 finish 1\n";

// The script on the project of three layers.
fn played(alloc: Global, line: &str, script: &str) -> Result<After, AllocError> {
    let pairs = [
        ("two.json", TWO),
        ("top.csv", TOP),
        ("base.csv", BASE),
        ("mask.csv", MASK),
        ("s.txt", script),
    ];
    painted(alloc, line, &pairs)
}

// What is told of a run that ends so, asks so many names, and prints the first job and then this.
fn told(alloc: Global, end: &str, rest: &str) -> Result<String, AllocError> {
    let text = format!(in alloc; "{end} 5 {STARTED}{rest}")?;
    Ok(text)
}

// The reds of a picture that was written.
fn reds_of(alloc: Global, after: &After, name: &str) -> Result<String, AllocError> {
    reds(alloc, after.tray.file(name).unwrap_or(b"-"))
}

#[test]
fn a_canvas_without_layers_is_saved(rt: HostRuntime) -> Result<(), Fail> {
    let alloc = rt.alloc();
    let pairs = [("p", BLANK), ("s", "start 0\nwait 0\nsave 0 z.ppm\n")];
    let found = painted(alloc, "session --workers=0 p s", &pairs)?;
    let want =
        "Done 2 1 0 view 0 0 2000000 1000000 2 1\n2 0 start 0 1\n3 0 compose 1\n4 0 finish 1\n\
        5 0 save 0 1\nend 5 1\n";
    assert_eq!(rt; found.told.as_str(), want);
    let picture = found.tray.file("z.ppm").unwrap_or(b"-");
    assert_eq!(rt;
        picture,
        b"P6\n2 1\n255\n\x10\x20\x30\x10\x20\x30".as_slice()
    );
    Ok(())
}

#[test]
fn a_second_job_is_served_by_the_cache(rt: HostRuntime) -> Result<(), Fail> {
    let alloc = rt.alloc();
    let script = "start 0\nwait 0\nsave 0 a.ppm\nstart 0\nwait 0\nsave 0 b.ppm\n";
    let found = played(alloc, ALONE, script)?;
    let rest =
        "9 0 save 0 1\n10 0 start 0 2\n11 0 look 2 0 hit\n12 0 look 2 1 hit\n13 0 compose 2\n\
        14 0 finish 2\n15 0 save 0 2\nend 15 2\n";
    assert_eq!(rt; found.told.as_str(), told(alloc, "Done", rest)?.as_str());
    let want = "255 255 255 255 255 100 100 255 200 78 78 200 200 200 200 200 ";
    assert_eq!(rt; reds_of(alloc, &found, "a.ppm")?.as_str(), want);
    assert_eq!(rt; reds_of(alloc, &found, "b.ppm")?.as_str(), want);
    Ok(())
}

#[test]
fn a_mask_is_edited_while_a_job_runs(rt: HostRuntime) -> Result<(), Fail> {
    let alloc = rt.alloc();
    let script = "start 0\nremove-feature 3 1\nwait 0\nstart 0\nwait 0\nsave 0 c.ppm\n";
    let found = played(alloc, "session two.json --workers 0 s.txt", script)?;
    let want =
        "Done 5 1 0 view 0 0 8000000 1000000 4 4\n2 0 start 0 1\n3 0 edit 1 ok\n4 0 look 1 0 miss\n\
        5 0 deliver 1 0 kept\n6 0 look 1 1 miss\n7 0 deliver 1 1 stored\n8 0 compose 1\n9 0 finish 1\n\
        10 0 start 0 2\n11 0 look 2 0 miss\n12 0 deliver 2 0 stored\n13 0 look 2 1 hit\n14 0 compose 2\n\
        15 0 finish 2\n16 0 save 0 2\nend 16 1\n";
    assert_eq!(rt; found.told.as_str(), want);
    let want = "255 255 255 255 255 100 100 255 255 100 100 255 255 255 255 255 ";
    assert_eq!(rt; reds_of(alloc, &found, "c.ppm")?.as_str(), want);
    Ok(())
}

#[test]
fn a_job_is_cancelled_while_its_task_is_held(rt: HostRuntime) -> Result<(), Fail> {
    let alloc = rt.alloc();
    let script = "start 0\ntake\ncancel 0\ngive\nsave 0 d.ppm\ncancel 0\n";
    let found = played(alloc, ALONE, script)?;
    let want =
        "Done 5 1 0 view 0 0 8000000 1000000 4 4\n2 0 start 0 1\n3 0 look 1 0 miss\n4 0 cancel 1\n\
        5 0 deliver 1 0 dropped\nrefused 5 5 nothing\nrefused 6 5 ended-cancelled\nend 5 0\n";
    assert_eq!(rt; found.told.as_str(), want);
    assert!(rt; found.tray.file("d.ppm").is_none());
    Ok(())
}

#[test]
fn what_is_ready_is_previewed(rt: HostRuntime) -> Result<(), Fail> {
    let alloc = rt.alloc();
    let found = played(
        alloc,
        ALONE,
        "start 0\ntake\ngive\npreview 0 p.ppm\nwait 0\n",
    )?;
    let want = "Done 5 1 0 view 0 0 8000000 1000000 4 4\n2 0 start 0 1\n3 0 look 1 0 miss\n\
        4 0 deliver 1 0 stored\n5 0 preview 1 0\n6 0 look 1 1 miss\n7 0 deliver 1 1 stored\n8 0 compose 1\n\
        9 0 finish 1\nend 9 1\n";
    assert_eq!(rt; found.told.as_str(), want);
    let want = "255 255 255 255 255 255 255 255 200 200 200 200 200 200 200 200 ";
    assert_eq!(rt; reds_of(alloc, &found, "p.ppm")?.as_str(), want);
    Ok(())
}

#[test]
fn a_refused_command_doesnt_stop_a_script_and_a_bad_line_does(rt: HostRuntime) -> Result<(), Fail> {
    let alloc = rt.alloc();
    let found = played(
        alloc,
        ALONE,
        "start 0\nwait 0\nopacity 9 10\nsave 0 a.ppm\n",
    )?;
    let rest = "9 0 edit 1 unknown-layer\n10 0 save 0 1\nrefused 3 9 unknown-layer\nend 10 1\n";
    assert_eq!(rt; found.told.as_str(), told(alloc, "Done", rest)?.as_str());
    let found = played(
        alloc,
        ALONE,
        "start 0\nwait 0\nopacity 9 10\nsave 0 a.ppm\nopacity 9\n",
    )?;
    assert_eq!(rt; found.told.as_str(), "BadScript(5) 5 ");
    assert!(rt; found.tray.file("a.ppm").is_none());
    let found = played(alloc, "session two.json t.txt --workers 0", "")?;
    assert_eq!(rt; found.told.as_str(), "Missing(Script) 5 ");
    Ok(())
}

// How a session ends whose second write fails: the end, what was printed, and the reds of the first picture.
fn broken(alloc: Global, script: &str) -> Result<String, AllocError> {
    let pairs = [
        ("two.json", TWO),
        ("top.csv", TOP),
        ("base.csv", BASE),
        ("mask.csv", MASK),
        ("s.txt", script),
    ];
    let mut shelf = MemShelf::new(alloc, files_of(alloc, &pairs)?, Vec::new(alloc));
    let failing = Vec::from_slice(alloc, &[2])?;
    let mut tray = MemTray::new(alloc, BTreeMap::new(alloc), failing);
    let mut out = SureSink::new(Vec::new(alloc));
    let words = words_of(alloc, ALONE)?;
    let end = run_once(alloc, words.as_slice(), &mut shelf, &mut tray, &mut out);
    let first = reds(alloc, tray.file("a.ppm").unwrap_or(b"-"))?;
    let printed = out.bytes().len();
    let text = format!(in alloc; "{end:?} {printed} {first}")?;
    Ok(text)
}

#[test]
fn the_second_picture_fails(rt: HostRuntime) -> Result<(), Fail> {
    let alloc = rt.alloc();
    let script = "start 0\nwait 0\nsave 0 a.ppm\nstart 0\nwait 0\nsave 0 b.ppm\n";
    let found = broken(alloc, script)?;
    let want =
        "WriteFault(Output(2)) 0 255 255 255 255 255 100 100 255 200 78 78 200 200 200 200 200 ";
    assert_eq!(rt; found.as_str(), want);
    Ok(())
}

#[test]
fn other_words_are_no_session(rt: HostRuntime) -> Result<(), Fail> {
    let alloc = rt.alloc();
    let lines = [
        "session two.json s.txt",
        "session two.json s.txt --workers 17",
        "session two.json s.txt --workers 1",
        "session two.json s.txt --workers 0 --workers 0",
        "session two.json s.txt --workers",
        "session two.json --workers=0",
        "session two.json -s --workers=0",
        "session two.json s.txt --workers=00000000000",
        "session two.json s.txt --worker=0",
    ];
    for line in lines {
        let found = played(alloc, line, "start 0\n")?;
        assert_eq!(rt; found.told.as_str(), "Usage 0 ");
    }
    Ok(())
}
