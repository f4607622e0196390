//! Edits that are refused, each for each of its causes.
use crate::worked::{mixed, refused, told};
use cv_model::{EditError, NoMemory};
use std::alloc::Global;
use std::test::Fail;

#[test]
fn a_layer_is_not_there(rt: HostRuntime) -> Result<(), Fail> {
    let mut store = mixed(rt.alloc())?;
    let script = concat!(
        "add-feature 9 1 \"POINT(1 1)\" a\ninsert-feature 9 0 1 \"POINT(1 1)\" a\nremove-feature 9 1\n",
        "set-geometry 9 1 none\nset-attribute 9 1 name a\nset-cell 9 0 0 1\nset-style 9\n",
        "set-ramp 9 exact 1 000000\nset-mask 9 1\nset-join 9 none\nremove-layer 9\nopacity 9 1\n",
        "blend 9 screen\nhide 9\nset-scales 9 1 2\nmove 9 0\n",
    );
    let count = refused(rt.alloc(), &mut store, script, EditError::UnknownLayer)?;
    assert_eq!(rt; count, 16);
    Ok(())
}

#[test]
fn a_feature_is_not_there(rt: HostRuntime) -> Result<(), Fail> {
    let mut store = mixed(rt.alloc())?;
    let script = "remove-feature 1 9\nset-geometry 1 9 none\nset-attribute 1 9 size a\n";
    let count = refused(rt.alloc(), &mut store, script, EditError::UnknownFeature)?;
    assert_eq!(rt; count, 3);
    Ok(())
}

#[test]
fn an_edit_is_of_another_kind(rt: HostRuntime) -> Result<(), Fail> {
    let mut store = mixed(rt.alloc())?;
    let script = concat!(
        "add-feature 2 1 \"POINT(1 1)\" a\ninsert-feature 2 9 1 \"POINT(1 1)\" a\nremove-feature 2 1\n",
        "set-geometry 2 1 none\nset-attribute 2 1 name a\nset-cell 1 9 9 1\nset-style 2\n",
        "set-ramp 1 exact 1 000000\n",
    );
    let count = refused(rt.alloc(), &mut store, script, EditError::WrongKind)?;
    assert_eq!(rt; count, 8);
    Ok(())
}

#[test]
fn an_id_is_taken(rt: HostRuntime) -> Result<(), Fail> {
    let mut store = mixed(rt.alloc())?;
    let script = concat!(
        "add-feature 1 2 \"POINT(1 1)\" a\ninsert-feature 1 9 2 \"POINT(1 1)\" a\n",
        "add-layer 9 2 new\n",
    );
    let count = refused(rt.alloc(), &mut store, script, EditError::DuplicateId)?;
    assert_eq!(rt; count, 3);
    Ok(())
}

#[test]
fn a_place_is_not_there(rt: HostRuntime) -> Result<(), Fail> {
    let mut store = mixed(rt.alloc())?;
    let script = concat!(
        "add-feature 1 5 \"POINT(1 1)\"\nadd-feature 1 5 \"POINT(1 1)\" a b\n",
        "insert-feature 1 3 5 \"POINT(1 1)\" a\ninsert-feature 1 2 5 \"POINT(1 1)\" a b\n",
        "set-attribute 1 1 size a\nset-cell 2 2 0 1\nset-cell 2 0 2 1\nadd-layer 3 5 new\nmove 1 2\n",
    );
    let count = refused(rt.alloc(), &mut store, script, EditError::BadPlace)?;
    assert_eq!(rt; count, 9);
    assert_eq!(rt; store.version(), 1);
    Ok(())
}

/// The additions of empty layers of the ids from 3 to this one, at the top.
fn additions(alloc: Global, last: u32) -> Result<String, NoMemory> {
    let mut text = String::new(alloc);
    for id in 3..last {
        write!(text, "add-layer 0 {id} new\n")?;
    }
    write!(text, "add-layer 0 {last} new\n")?;
    Ok(text)
}

#[test]
fn there_are_at_most_32_layers(rt: HostRuntime) -> Result<(), Fail> {
    let mut store = mixed(rt.alloc())?;
    let script = additions(rt.alloc(), 33)?;
    let count = refused(rt.alloc(), &mut store, script.as_str(), EditError::Limit)?;
    assert_eq!(rt; count, 1);
    assert_eq!(rt; store.len(), 32);
    Ok(())
}

/// The addition of an empty layer of so many columns.
fn wide(alloc: Global, columns: u32) -> Result<String, NoMemory> {
    let mut text = String::from_str(alloc, "add-layer 0 5 new")?;
    for _ in 0..columns {
        text.push_str(" c")?;
    }
    Ok(text)
}

#[test]
fn there_are_at_most_256_columns(rt: HostRuntime) -> Result<(), Fail> {
    let mut store = mixed(rt.alloc())?;
    let first = told(rt.alloc(), &mut store, wide(rt.alloc(), 257)?.as_str())?;
    assert_eq!(rt; first.as_str(), "Limit ");
    let second = told(rt.alloc(), &mut store, wide(rt.alloc(), 256)?.as_str())?;
    assert_eq!(rt; second.as_str(), "2 ");
    Ok(())
}
