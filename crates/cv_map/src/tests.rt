//! Worked maps, from outside: the files of a project, and the bytes of what its first canvas shows.
use crate::paint_bytes;
use cv_geom::view_of;
use cv_model::{NoMemory, ProjectFile, View};
use cv_open::{Opened, open};
use cv_outside::{Files, SureShelf};
use cv_store::Store;
use std::alloc::{AllocError, Global};
use std::test::Fail;

/// A shelf with the text of a project under `map`, and with that of a layer under `a`, `b` and `c`.
fn shelf(alloc: Global, map: &str, layers: [&str; 3]) -> Result<SureShelf, NoMemory> {
    let mut files = Files::new(alloc);
    let names = ["a", "b", "c"];
    for k in 0..3 {
        let bytes = Vec::from_slice(alloc, layers[k].as_bytes())?;
        files.insert(String::from_str(alloc, names[k])?, bytes)?;
    }
    let bytes = Vec::from_slice(alloc, map.as_bytes())?;
    files.insert(String::from_str(alloc, "map")?, bytes)?;
    Ok(SureShelf::new(alloc, files))
}

/// What the first canvas of a project shows at first.
fn first_view(file: &ProjectFile) -> Option<View> {
    let canvas = file.canvases().first()?;
    let extent = canvas.extent?;
    view_of(extent, canvas.width, canvas.height).ok()
}

/// The bytes of the picture that the first canvas of a project shows at first.
fn shown(alloc: Global, map: &str, layers: [&str; 3]) -> Result<Vec<u8>, Fail> {
    let mut shelf = shelf(alloc, map, layers)?;
    let Ok(opened) = open(alloc, &mut shelf, "map") else {
        return Err(Fail::from(AllocError));
    };
    let Some(view) = first_view(&opened.file) else {
        return Err(Fail::from(AllocError));
    };
    let Opened { file, contents } = opened;
    let store = Store::open(alloc, file, contents.into_vec())?;
    Ok(paint_bytes(alloc, &store, &view)?)
}

/// A pixmap of greys, of this size: each letter is a pixel of that grey, and all else is passed over.
fn greys(alloc: Global, size: &str, rows: &str) -> Result<Vec<u8>, NoMemory> {
    let mut bytes = Vec::from_slice(alloc, size.as_bytes())?;
    for letter in rows.as_bytes() {
        let grey = match letter {
            b'w' => 0xff,
            b'c' => 0xc8,
            b'd' => 0x64,
            b'm' => 0x4e,
            b'h' => 0xb1,
            b'n' => 0x8b,
            _ => continue,
        };
        bytes.extend_from_slice(&[grey, grey, grey])?;
    }
    Ok(bytes)
}

const BESIDE: &str = concat!(
    r#"{"version":1,"background":"ffffff","#,
    r#""canvases":[{"width":3,"height":1,"extent":["0","0","3","1"]}],"#,
    r#""layers":[{"id":1,"name":"a","source":{"kind":"text","file":"a"},"#,
    r#""style":{"kind":"single","symbol":{"fill":"ff000080"}}}]}"#
);

#[test]
fn a_common_edge_is_painted_once(rt: HostRuntime) -> Result<(), Fail> {
    let squares = concat!(
        "wkt\n\"POLYGON((0 0,1.5 0,1.5 1,0 1,0 0))\"\n",
        "\"POLYGON((1.5 0,3 0,3 1,1.5 1,1.5 0))\"\n"
    );
    let bytes = shown(rt.alloc(), BESIDE, [squares, "", ""])?;
    let want = b"P6\n3 1\n255\n\xff\x7f\x7f\xff\x7f\x7f\xff\x7f\x7f".as_slice();
    assert_eq!(rt; bytes.as_slice(), want);
    Ok(())
}

const TWO: [&str; 3] = [
    "wkt\n\"POLYGON((1 1,3 1,3 3,1 3,1 1))\"\n",
    "wkt\n\"POLYGON((0 0,4 0,4 4,0 4,0 0))\"\n",
    "wkt\n\"POLYGON((0 0,4 0,4 2,0 2,0 0))\"\n",
];

const TWO_FRONT: &str = concat!(
    r#"{"version":2,"background":"ffffff","#,
    r#""canvases":[{"width":4,"height":4,"extent":["0","0","4","4"]}],"layers":["#,
    r#"{"id":2,"name":"top","source":{"kind":"text","file":"a"},"blend":"multiply","#
);

const TWO_BACK: &str = concat!(
    r#""style":{"kind":"single","symbol":{"fill":"646464"}}},"#,
    r#"{"id":1,"name":"base","source":{"kind":"text","file":"b"},"mask":3,"#,
    r#""style":{"kind":"single","symbol":{"fill":"c8c8c8"}}},"#,
    r#"{"id":3,"name":"mask","source":{"kind":"text","file":"c"},"visible":false,"#,
    r#""style":{"kind":"single","symbol":{}}}]}"#
);

// A square multiplied onto a masked one: whole, at half its opacity, hidden, and at scales that hold one unit
// per pixel or don't.
#[test]
fn a_map_has_its_slots(rt: HostRuntime) -> Result<(), Fail> {
    let cases = [
        ("", "wwww wddw cmmc cccc"),
        (r#""opacity":128,"#, "wwww whhw cnnc cccc"),
        (r#""visible":false,"#, "wwww wwww cccc cccc"),
        (
            r#""scales":{"least":"1","greatest":"1"},"#,
            "wwww wddw cmmc cccc",
        ),
        (r#""scales":{"least":"1.000001"},"#, "wwww wwww cccc cccc"),
    ];
    for (part, rows) in cases {
        let mut map = String::from_str(rt.alloc(), TWO_FRONT)?;
        map.push_str(part)?;
        map.push_str(TWO_BACK)?;
        let bytes = shown(rt.alloc(), map.as_str(), TWO)?;
        let want = greys(rt.alloc(), "P6\n4 4\n255\n", rows)?;
        assert_eq!(rt; bytes.as_slice(), want.as_slice(), "{part}");
    }
    Ok(())
}

const PAIR_FRONT: &str = concat!(
    r#"{"version":2,"background":"ffffff","#,
    r#""canvases":[{"width":1,"height":1,"extent":["0","0","1","1"]}],"layers":["#,
    r#"{"id":1,"name":"","source":{"kind":"text","file":"b"},"blend":""#
);

const PAIR_BACK: &str = concat!(
    r#"","style":{"kind":"single","symbol":{"fill":"646464"}}},"#,
    r#"{"id":2,"name":"","source":{"kind":"text","file":"b"},"#,
    r#""style":{"kind":"single","symbol":{"fill":"c8c8c8"}}}]}"#
);

// The grey 100 onto the grey 200 in each mode, both layers of one file.
#[test]
fn each_mode_merges_two_layers(rt: HostRuntime) -> Result<(), Fail> {
    let cases = [
        ("normal", 100),
        ("multiply", 78),
        ("screen", 222),
        ("overlay", 188),
        ("darken", 100),
        ("lighten", 200),
        ("color-dodge", 255),
        ("color-burn", 115),
        ("hard-light", 157),
        ("difference", 100),
        ("exclusion", 143),
        ("addition", 255),
    ];
    for (mode, grey) in cases {
        let mut map = String::from_str(rt.alloc(), PAIR_FRONT)?;
        map.push_str(mode)?;
        map.push_str(PAIR_BACK)?;
        let bytes = shown(rt.alloc(), map.as_str(), TWO)?;
        let mut want = Vec::from_slice(rt.alloc(), b"P6\n1 1\n255\n")?;
        want.extend_from_slice(&[grey, grey, grey])?;
        assert_eq!(rt; bytes.as_slice(), want.as_slice(), "{mode}");
    }
    Ok(())
}
