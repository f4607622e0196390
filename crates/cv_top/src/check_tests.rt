//! The command `check` over devices in memory: worked projects, files that are refused or absent, and reads
//! that fail.
use super::*;
use cv_outside::{Files, MemShelf, MemSink, SureSink, SureTray};
use cv_testing::words_of;
use std::alloc::{AllocError, Global};
use std::collections::BTreeMap;
use std::test::Fail;

const EMPTY: &str =
    "{\"version\":1,\"background\":\"102030\",\"canvases\":[{\"width\":2,\"height\":1,\"extent\":[\"0\",\
    \"0\",\"2\",\"1\"]}],\"layers\":[]}";

const EMPTY_WRITTEN: &str =
    "project 0 1\n{\"background\":\"102030\",\"canvases\":[{\"cache\":67108864,\"extent\":[\"0\",\"0\",\
    \"2\",\"1\"],\"height\":1,\"width\":2}],\"layers\":[],\"version\":2}\n";

// A delimited text on top, and the grid `dem.asc` below it.
const PAIR: &str =
    "{\"version\":1,\"background\":\"ffffff\",\"canvases\":[],\"layers\":[{\"id\":7,\"name\":\"land\",\
    \"source\":{\"kind\":\"text\",\"file\":\"land.csv\"},\"style\":{\"kind\":\"single\",\"symbol\":{}}},\
    {\"id\":9,\"name\":\"heights\",\"source\":{\"kind\":\"grid\",\"file\":\"dem.asc\"},\
    \"style\":{\"kind\":\"ramp\",\"ramp\":\"linear\",\"stops\":[{\"value\":\"1\",\"colour\":\"204060\"}]}}]}";

const LAND: &str =
    "wkt,name\n\"POLYGON((0 0,4 0,4 4))\",a\n\"CIRCULARSTRING(0 0,1 1,2 0)\",b\n,c\nPOINT(1,d\n";

const GRID: &str = "ncols 2 nrows 1 xllcorner 0 yllcorner 0 cellsize 1 3 4";

// Files of these names and texts.
pub(super) fn files_of(alloc: Global, pairs: &[(&str, &str)]) -> Result<Files, AllocError> {
    let mut files = BTreeMap::new(alloc);
    for (name, text) in pairs {
        let bytes = Vec::from_slice(alloc, text.as_bytes())?;
        let name = String::from_str(alloc, name)?;
        files.insert(name, bytes)?;
    }
    Ok(files)
}

// How `check p.json` ends over these files, where the read of this number fails, and then what it printed.
fn checked(alloc: Global, pairs: &[(&str, &str)], failing: u64) -> Result<String, AllocError> {
    let failing = Vec::from_slice(alloc, &[failing])?;
    let mut shelf = MemShelf::new(alloc, files_of(alloc, pairs)?, failing);
    let mut tray = SureTray::new(alloc, BTreeMap::new(alloc));
    let mut out = SureSink::new(Vec::new(alloc));
    let words = words_of(alloc, "check p.json")?;
    let end = run_once(alloc, words.as_slice(), &mut shelf, &mut tray, &mut out);
    let asked = shelf.asked().len();
    let printed = String::from_utf8_lossy(alloc, out.bytes())?;
    let text = format!(in alloc; "{end:?} {asked} {printed}")?;
    Ok(text)
}

#[test]
fn a_project_without_layers_is_written(rt: HostRuntime) -> Result<(), Fail> {
    let alloc = rt.alloc();
    let found = checked(alloc, &[("p.json", EMPTY)], 0)?;
    let want = format!(in alloc; "Done 1 {EMPTY_WRITTEN}")?;
    assert_eq!(rt; found.as_str(), want.as_str());
    Ok(())
}

#[test]
fn layers_have_their_counts_and_notes(rt: HostRuntime) -> Result<(), Fail> {
    let alloc = rt.alloc();
    let pairs = [("p.json", PAIR), ("land.csv", LAND), ("dem.asc", GRID)];
    let found = checked(alloc, &pairs, 0)?;
    let want =
        "Done 3 layer 7 text 4 3 2\nnote 2 curve\nnote 4 syntax\nlayer 9 grid 2 1\nproject 2 0\n{";
    assert!(rt; found.as_str().starts_with(want), "{}", found.as_str());
    Ok(())
}

#[test]
fn a_failed_read_ends_the_reading(rt: HostRuntime) -> Result<(), Fail> {
    let alloc = rt.alloc();
    let pairs = [("p.json", PAIR), ("land.csv", LAND), ("dem.asc", GRID)];
    for (failing, want) in [
        (1, "ReadFault(Project) 1 "),
        (2, "ReadFault(Layer(0)) 2 "),
        (3, "ReadFault(Layer(1)) 3 "),
    ] {
        let found = checked(alloc, &pairs, failing)?;
        assert_eq!(rt; found.as_str(), want);
    }
    Ok(())
}

#[test]
fn an_absent_file_ends_the_reading(rt: HostRuntime) -> Result<(), Fail> {
    let alloc = rt.alloc();
    let found = checked(alloc, &[("dem.asc", GRID)], 0)?;
    assert_eq!(rt; found.as_str(), "Missing(Project) 1 ");
    let found = checked(alloc, &[("p.json", PAIR), ("dem.asc", GRID)], 0)?;
    assert_eq!(rt; found.as_str(), "Missing(Layer(0)) 2 ");
    let found = checked(alloc, &[("p.json", PAIR), ("land.csv", "id\n")], 0)?;
    assert_eq!(rt; found.as_str(), "BadData(0, Text(NoGeometryColumn)) 2 ");
    Ok(())
}

#[test]
fn bytes_that_say_nothing_are_refused(rt: HostRuntime) -> Result<(), Fail> {
    let alloc = rt.alloc();
    let found = checked(alloc, &[("p.json", "{\"version\":1,\"backgr")], 0)?;
    assert_eq!(rt; found.as_str(), "BadProject(NotJson) 1 ");
    let few = "ncols 2 nrows 2 xllcorner 0 yllcorner 0 cellsize 1 1 2 3";
    let found = checked(
        alloc,
        &[("p.json", PAIR), ("land.csv", LAND), ("dem.asc", few)],
        0,
    )?;
    assert_eq!(rt; found.as_str(), "BadData(1, Grid(TooFew(3))) 3 ");
    Ok(())
}
