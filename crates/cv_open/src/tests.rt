//! A project whose layer has a refused geometry, opened and reported on.
use super::*;
use cv_outside::{Files, SureShelf, one_file};
use std::alloc::{AllocError, Global};
use std::test::Fail;

const PROJECT: &str =
    "{\"version\":1,\"background\":\"ffffff\",\"canvases\":[],\"layers\":[{\"id\":7,\"name\":\"land\",\
    \"source\":{\"kind\":\"text\",\"file\":\"land.csv\"},\"style\":{\"kind\":\"single\",\"symbol\":{}}}]}";

const LAND: &str = "wkt,name\n\"POLYGON((0 0,4 0,4 4))\",a\n\"CIRCULARSTRING(0 0,1 1,2 0)\",b\n";

// The project's file, and that of its layer.
fn files(alloc: Global) -> Result<Files, AllocError> {
    let mut files = one_file(alloc, "p.json", PROJECT.as_bytes())?;
    let bytes = Vec::from_slice(alloc, LAND.as_bytes())?;
    let name = String::from_str(alloc, "land.csv")?;
    files.insert(name, bytes)?;
    Ok(files)
}

// What is told of the project: its report, or how it ended.
fn told(alloc: Global, shelf: &mut SureShelf) -> Result<Vec<u8>, AllocError> {
    match open(alloc, shelf, "p.json") {
        Ok(opened) => report(alloc, &opened),
        Err(end) => {
            let text = format!(in alloc; "{end:?}")?;
            Ok(text.into_bytes())
        }
    }
}

#[test]
fn a_layer_has_its_counts_and_notes(rt: HostRuntime) -> Result<(), Fail> {
    let alloc = rt.alloc();
    let mut shelf = SureShelf::new(alloc, files(alloc)?);
    let found = told(alloc, &mut shelf)?;
    let want = b"layer 7 text 2 3 1\nnote 2 curve\nproject 1 0\n{\"background\"";
    assert!(rt; found.as_slice().starts_with(want));
    assert_eq!(rt; shelf.asked().len(), 2);
    Ok(())
}
