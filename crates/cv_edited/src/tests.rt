//! Edits that are accepted, and what they make.
use crate::worked::{held, mixed, seen, store, told};
use cv_layer::{Stamp, Stamps};
use cv_model::{Cell, Edit};
use std::alloc::AllocError;
use std::test::Fail;

/// A square multiplied onto another one, which is painted within a third.
const TWO: &str = concat!(
    r#"{"version":1,"background":"ffffff","#,
    r#""canvases":[{"width":4,"height":4,"cache":1024,"extent":["0","0","4","4"]}],"layers":["#,
    r#"{"id":2,"name":"top","source":{"kind":"text","file":"a"},"blend":"multiply","#,
    r#""style":{"kind":"single","symbol":{"fill":"646464"}}},"#,
    r#"{"id":1,"name":"base","source":{"kind":"text","file":"b"},"mask":3,"#,
    r#""style":{"kind":"single","symbol":{"fill":"c8c8c8"}}},"#,
    r#"{"id":3,"name":"mask","source":{"kind":"text","file":"c"},"visible":false,"#,
    r#""style":{"kind":"single","symbol":{}}}]}"#
);

const SQUARES: [&str; 3] = [
    "wkt\n\"POLYGON((1 1,3 1,3 3,1 3,1 1))\"\n",
    "wkt\n\"POLYGON((0 0,4 0,4 4,0 4,0 0))\"\n",
    "wkt\n\"POLYGON((0 0,4 0,4 2,0 2,0 0))\"\n",
];

/// The stamps of layer 1 and of its mask layer 3, of these revisions.
fn stamps(own: u64, mask: u64) -> Option<Stamps> {
    let own = Stamp {
        id: 1,
        revision: own,
    };
    let mask = Stamp {
        id: 3,
        revision: mask,
    };
    Some(Stamps::Two(own, mask))
}

#[test]
fn a_refused_edit_counts_for_nothing(rt: HostRuntime) -> Result<(), Fail> {
    let mut store = store(rt.alloc(), TWO, SQUARES)?;
    let script = "add-feature 2 1 \"POINT(1 1)\"\nset-cell 2 0 0 5\nremove-feature 2 1\n";
    let told = told(rt.alloc(), &mut store, script)?;
    assert_eq!(rt; told.as_str(), "DuplicateId WrongKind 2 ");
    Ok(())
}

#[test]
fn a_feature_stands_at_its_place(rt: HostRuntime) -> Result<(), Fail> {
    let mut store = store(rt.alloc(), TWO, SQUARES)?;
    let script = "insert-feature 3 2 5 \"POINT(1 1)\"\ninsert-feature 3 1 5 \"POINT(1 1)\"\n";
    let told = told(rt.alloc(), &mut store, script)?;
    assert_eq!(rt; told.as_str(), "BadPlace 2 ");
    Ok(())
}

#[test]
fn stamps_follow_the_mask_layer(rt: HostRuntime) -> Result<(), Fail> {
    let mut store = store(rt.alloc(), TWO, SQUARES)?;
    assert_eq!(rt; store.stamps(1), stamps(1, 1));
    drop(told(rt.alloc(), &mut store, "remove-layer 3")?);
    assert_eq!(rt; store.stamps(1), stamps(1, 0));
    drop(told(rt.alloc(), &mut store, "add-layer 2 3 mask")?);
    assert_eq!(rt; store.stamps(1), stamps(1, 3));
    Ok(())
}

/// Each edit once, of the store of a text layer 1 over a grid 2.
const EACH: &str = concat!(
    "add-feature 1 7 \"POINT(3 3)\" z\ninsert-feature 1 1 8 \"POINT(4 4)\" w\nremove-feature 1 1\n",
    "set-geometry 1 2 none\nset-attribute 1 2 name v\nset-cell 2 1 0 nan\nset-style 1 fill 000000\n",
    "set-mask 1 2\nset-join 1 2 name name\nadd-layer 0 3 new name\nopacity 1 9\nblend 1 screen\n",
    "hide 1\nset-scales 1 1 none\nmove 1 2\nbackground 000000\nremove-layer 3\n"
);

#[test]
fn each_edit_is_accepted(rt: HostRuntime) -> Result<(), Fail> {
    let mut store = mixed(rt.alloc())?;
    let told = told(rt.alloc(), &mut store, EACH)?;
    assert_eq!(rt;
        told.as_str(),
        "2 3 4 5 6 7 8 9 10 11 12 13 14 15 16 17 18 "
    );
    assert_eq!(rt; seen(rt.alloc(), &store, 1)?.as_str(), "8 1 w 2 0 v 7 1 z ");
    assert_eq!(rt;
        seen(rt.alloc(), &store, 2)?.as_str(),
        "1000000 2000000 - 4000000 "
    );
    Ok(())
}

#[test]
fn a_cell_may_be_the_least_number(rt: HostRuntime) -> Result<(), Fail> {
    let mut store = mixed(rt.alloc())?;
    let least = Cell::Value(i64::MIN);
    for (row, cell) in [
        (0, least),
        (1, least),
        (0, Cell::Void),
        (0, least),
        (1, Cell::Void),
    ] {
        let edit = Edit::SetCell {
            layer: 2,
            row,
            col: 0,
            cell,
        };
        assert!(rt; store.apply(&edit).is_ok());
    }
    assert_eq!(rt;
        seen(rt.alloc(), &store, 2)?.as_str(),
        "-9223372036854775808 2000000 - 4000000 "
    );
    Ok(())
}

#[test]
fn an_input_stays_as_it_was_taken(rt: HostRuntime) -> Result<(), Fail> {
    let mut store = mixed(rt.alloc())?;
    let (Some(rows), Some(grid)) = (store.input(1)?, store.input(2)?) else {
        return Err(Fail::from(AllocError));
    };
    drop(told(rt.alloc(), &mut store, EACH)?);
    assert_eq!(rt; held(rt.alloc(), rows.value())?.as_str(), "1 1 x 2 1 y ");
    assert_eq!(rt;
        held(rt.alloc(), grid.value())?.as_str(),
        "1000000 2000000 3000000 4000000 "
    );
    Ok(())
}

// A mask that goes and comes again, with what is in it: its revision went from 1 by none to that of the edit.
#[test]
fn a_mask_comes_again(rt: HostRuntime) -> Result<(), Fail> {
    let mut store = store(rt.alloc(), TWO, SQUARES)?;
    let script = concat!(
        "remove-layer 3\nadd-layer 2 3 mask\n",
        "add-feature 3 1 \"POLYGON((0 2,4 2,4 4,0 4,0 2))\"\nhide 3\nopacity 2 128\nopacity 9 10\n"
    );
    let told = told(rt.alloc(), &mut store, script)?;
    assert_eq!(rt; told.as_str(), "2 3 4 5 6 UnknownLayer ");
    assert_eq!(rt; store.stamps(1), stamps(1, 4));
    Ok(())
}
