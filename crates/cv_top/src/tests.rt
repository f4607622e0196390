//! The command over devices in memory: worked maps, each device failing in turn, words that are no form, and
//! a large map.
use super::*;
use cv_dtext::TextError;
use cv_outside::{
    MemShelf, MemSink, MemTray, Open, ReadEnd, Shelf, Sink, SureShelf, SureSink, SureTray, Tray,
    one_file,
};
use cv_testing::{pixmap, words_of};
use std::alloc::{AllocError, Global};
use std::sync::Wait;
use std::test::Fail;
use std::thread::Threads;

const SQUARE: &str = "wkt\n\"POLYGON((1 1,3 1,3 3,1 3,1 1))\"\n";

const FOUR: &str = "quick sq.csv sq.ppm 4 4 0 0 4 4 ff0000";

const ALL: u64 = u64::MAX;

const RED: [u8; 3] = [255, 0, 0];

// The command at these types, through its bounds.
fn play<F: Shelf, T: Tray, O: Sink>(
    alloc: Global,
    line: &str,
    shelf: &mut F,
    tray: &mut T,
    out: &mut O,
) -> End {
    match words_of(alloc, line) {
        Ok(words) => run_once(alloc, words.as_slice(), shelf, tray, out),
        Err(_) => End::NoMemory,
    }
}

// The same call with a handle and a gate, at these types.
fn play_with<R: Threads + Wait + Sync, F: Shelf, T: Tray + Send, O: Sink>(
    rt: &R,
    alloc: Global,
    line: &str,
    shelf: &mut F,
    tray: &mut T,
    out: &mut O,
) -> End {
    match words_of(alloc, line) {
        Ok(words) => run(rt, alloc, words.as_slice(), shelf, tray, out, &Open),
        Err(_) => End::NoMemory,
    }
}

// What stands after a run over devices that never fail.
#[derive(Drop)]
struct Ran {
    end: End,
    shelf: SureShelf,
    tray: SureTray,
    out: SureSink,
}

impl Ran {
    fn picture(&self) -> &[u8] {
        self.tray.file("sq.ppm").unwrap_or(b"-")
    }
}

// A run with a layer under this name, and `old` under that of the picture.
fn run_of(alloc: Global, line: &str, name: &str, layer: &[u8]) -> Result<Ran, AllocError> {
    let mut shelf = SureShelf::new(alloc, one_file(alloc, name, layer)?);
    let mut tray = SureTray::new(alloc, one_file(alloc, "sq.ppm", b"old")?);
    let mut out = SureSink::new(Vec::new(alloc));
    let end = match words_of(alloc, line) {
        Ok(words) => run_surely(alloc, words.as_slice(), &mut shelf, &mut tray, &mut out),
        Err(_) => End::NoMemory,
    };
    Ok(Ran {
        end,
        shelf,
        tray,
        out,
    })
}

// An end as it is shown, since an end with a text in it isn't compared.
fn shown(alloc: Global, end: &End) -> Result<String, AllocError> {
    let text = format!(in alloc; "{end:?}")?;
    Ok(text)
}

#[test]
fn polygons_are_painted_at_their_centres(rt: HostRuntime) -> Result<(), Fail> {
    let alloc = rt.alloc();
    let square = "..../.##./.##./....";
    let holed = "####/####/..##/####";
    let white = "..../..../..../....";
    let all = "####/####/####/####";
    let rows = [
        (SQUARE, square),
        (
            "wkt\n\"POLYGON((0 0,4 0,4 4,0 4,0 0),(1.5 0.5,2.5 1.5,1.5 2.5,0.5 1.5,1.5 0.5))\"\n",
            holed,
        ),
        (
            "wkt\n\"POLYGON((0 3,4 3,0 4))\"\n\"POLYGON((-0.5 -1,2 -1,2 1,-0.5 1))\"\n",
            "##../..../..../##..",
        ),
        ("wkt\n\"POLYGON((-9 -9,9 -9,9 9,-9 9,-9 -9))\"\n", all),
        (
            "wkt\n\"POLYGON((2 -9,999999999.999999 2,2 9,-999999999 2))\"\n",
            all,
        ),
        ("wkt\n", white),
        // points and lines have no fill, nor has a record without a geometry
        ("wkt\n\"POINT(1 2)\"\n", white),
        ("wkt\n\"LINESTRING(0 0,4 0,4 4,0 4,0 0)\"\n", white),
        (
            "wkt,name\n,nowhere\n  ,nowhere\nPOLYGON((1 1,refused\n",
            white,
        ),
        // the column stands among others
        (
            "id,wkt,name\n7,\"POLYGON((1 1,3 1,3 3,1 3,1 1))\",here\n",
            square,
        ),
        (
            "wkt,wkt\n\"POLYGON((1 1,3 1,3 3,1 3))\",POINT(1 2)\n",
            square,
        ),
        // lines end in other ways
        ("wkt\r\n\"POLYGON((1 1,3 1,3 3,1 3,1 1))\"\r\n", square),
        ("\n\nwkt\n\n\"POLYGON((1 1,3 1,3 3,1 3,1 1))\"", square),
        (
            "\u{feff}wkt\n\"POLYGON((1 1,3 1,\n3 3,1 3,1 1))\"\n",
            square,
        ),
    ];
    for (text, picture) in rows {
        let found = run_of(alloc, FOUR, "sq.csv", text.as_bytes())?;
        assert_eq!(rt; shown(alloc, &found.end)?.as_str(), "Done", "{text}");
        assert_eq!(rt; found.out.bytes(), b"image 4 4\n".as_slice(), "{text}");
        let want = pixmap(alloc, "4 4", picture, RED)?;
        assert_eq!(rt; found.picture(), want.as_slice(), "{text}");
    }
    Ok(())
}

#[test]
fn bytes_that_spell_no_features_are_refused(rt: HostRuntime) -> Result<(), Fail> {
    let alloc = rt.alloc();
    let rows: [(&[u8], TextError); 11] = [
        (b"", TextError::NoHeader),
        (b"\n\r\n", TextError::NoHeader),
        (b"id", TextError::NoGeometryColumn),
        (b"WKT\n\"POINT(1 2)\"\n", TextError::NoGeometryColumn),
        (b"wkt;a\nPOINT(1 2);3\n", TextError::NoGeometryColumn),
        (b"wkt,a\nPOINT(1 2)\n", TextError::Uneven(1)),
        (b"wkt\nPOLYGON((1 1,3 1,3 3))\n", TextError::Uneven(1)),
        (b"wkt,a\nPOINT(1 2),3\n,\n,,\n,\xff\n", TextError::Uneven(3)),
        (b"wkt,\xff\n", TextError::NotUtf8(0)),
        (b"wkt,a\n\n,\n,\xff\n,,\n", TextError::NotUtf8(2)),
        (b"id,\xff\n", TextError::NotUtf8(0)),
    ];
    for (bytes, error) in rows {
        let found = run_of(alloc, FOUR, "sq.csv", bytes)?;
        let want = End::BadData(0, DataError::Text(error));
        assert_eq!(rt;
            shown(alloc, &found.end)?.as_str(),
            shown(alloc, &want)?.as_str()
        );
        assert_eq!(rt; found.picture(), b"old".as_slice(), "{}", found.end);
        assert_eq!(rt; found.out.bytes(), b"".as_slice(), "{}", found.end);
    }
    Ok(())
}

#[test]
fn a_file_is_missing_only_where_it_is_absent(rt: HostRuntime) -> Result<(), Fail> {
    let alloc = rt.alloc();
    let missing = "Missing(Layer(0))";
    let rows = [
        ("", missing),
        ("sq.ppm", missing),
        ("Sq.csv", missing),
        ("sq.csv", "Done"),
    ];
    for (name, want) in rows {
        let found = run_of(alloc, FOUR, name, SQUARE.as_bytes())?;
        assert_eq!(rt; shown(alloc, &found.end)?.as_str(), want, "{name}");
    }
    Ok(())
}

// What stands under the picture's name.
fn kept(tray: &MemTray, whole: &[u8]) -> &'static str {
    match tray.file("sq.ppm") {
        Some(bytes) => {
            if bytes == whole {
                "whole"
            } else if bytes == b"old".as_slice() {
                "old"
            } else {
                "other"
            }
        }
        None => "none",
    }
}

// How a run ends whose layer has this name, where the reads, writes and pieces of text of these numbers fail,
// and the sink takes so many bytes at a time and so many in all: the end, how many names were asked, what
// stands under the picture's name, and the text.
fn failed<R: Threads + Wait + Sync>(
    rt: &R,
    alloc: Global,
    name: &str,
    fails: [u64; 3],
    limits: [u64; 2],
) -> Result<String, AllocError> {
    let [read, write, print] = fails;
    let [piece, room] = limits;
    let files = one_file(alloc, name, SQUARE.as_bytes())?;
    let mut shelf = MemShelf::new(alloc, files, Vec::from_slice(alloc, &[read])?);
    let old = one_file(alloc, "sq.ppm", b"old")?;
    let mut tray = MemTray::new(alloc, old, Vec::from_slice(alloc, &[write])?);
    let sink = MemSink::new(Vec::new(alloc), Vec::from_slice(alloc, &[print])?);
    let mut out = sink.with_limits(piece, room);
    let end = play_with(rt, alloc, FOUR, &mut shelf, &mut tray, &mut out);
    let asked = shelf.asked().len();
    let whole = pixmap(alloc, "4 4", "..../.##./.##./....", RED)?;
    let kept = kept(&tray, whole.as_slice());
    let printed = String::from_utf8_lossy(alloc, out.bytes())?;
    let text = format!(in alloc; "{end:?} {asked} {kept} {printed}")?;
    Ok(text)
}

#[test]
fn no_device_fails(rt: HostRuntime) -> Result<(), Fail> {
    let alloc = rt.alloc();
    let found = failed(&rt, alloc, "sq.csv", [0, 0, 0], [ALL, ALL])?;
    assert_eq!(rt; found.as_str(), "Done 1 whole image 4 4\n");
    let found = failed(&rt, alloc, "sq.csv", [0, 0, 0], [1, ALL])?;
    assert_eq!(rt; found.as_str(), "Done 1 whole image 4 4\n");
    Ok(())
}

#[test]
fn the_shelf_fails(rt: HostRuntime) -> Result<(), Fail> {
    let alloc = rt.alloc();
    let found = failed(&rt, alloc, "sq.csv", [1, 0, 0], [ALL, ALL])?;
    assert_eq!(rt; found.as_str(), "ReadFault(Layer(0)) 1 old ");
    let found = failed(&rt, alloc, "other", [0, 0, 0], [ALL, ALL])?;
    assert_eq!(rt; found.as_str(), "Missing(Layer(0)) 1 old ");
    Ok(())
}

#[test]
fn the_tray_fails(rt: HostRuntime) -> Result<(), Fail> {
    let alloc = rt.alloc();
    let found = failed(&rt, alloc, "sq.csv", [0, 1, 0], [ALL, ALL])?;
    assert_eq!(rt; found.as_str(), "WriteFault(Output(1)) 1 old ");
    Ok(())
}

#[test]
fn the_sink_fails(rt: HostRuntime) -> Result<(), Fail> {
    let alloc = rt.alloc();
    let found = failed(&rt, alloc, "sq.csv", [0, 0, 1], [ALL, ALL])?;
    assert_eq!(rt; found.as_str(), "WriteFault(Text) 1 whole ");
    let found = failed(&rt, alloc, "sq.csv", [0, 0, 3], [2, ALL])?;
    assert_eq!(rt; found.as_str(), "WriteFault(Text) 1 whole imag");
    let found = failed(&rt, alloc, "sq.csv", [0, 0, 0], [ALL, 7])?;
    assert_eq!(rt; found.as_str(), "WriteFault(Text) 1 whole image 4");
    Ok(())
}

#[test]
fn words_that_are_no_form_are_usage(rt: HostRuntime) -> Result<(), Fail> {
    let alloc = rt.alloc();
    let rows = [
        "",
        "quick",
        "paint p.json 0",
        "paint p.json 0 out.ppm extra",
        "paint p.json 4294967296 out.ppm",
        "paint p.json x out.ppm",
        "paint p.json 0 -x",
        "paint|p.json|0|",
        "check",
        "check|",
        "check -x",
        "check p.json more",
        "Check p.json",
        "Quick sq.csv sq.ppm 4 4 0 0 4 4 ff0000",
        "quick sq.csv sq.ppm 4 4 0 0 4 4 ff0000 more",
        "quick sq.csv sq.ppm 0 4 0 0 4 4 ff0000",
        "quick sq.csv sq.ppm 4097 4 0 0 4 4 ff0000",
        "quick sq.csv sq.ppm 4096 4096 0 0 4 4 ff0000",
        "quick sq.csv sq.ppm 04294967300 4 0 0 4 4 ff0000",
        "quick sq.csv sq.ppm 4294967300 4 0 0 4 4 ff0000",
        "quick sq.csv sq.ppm +4 4 0 0 4 4 ff0000",
        "quick sq.csv sq.ppm 4 4 0 0 0 4 ff0000",
        "quick sq.csv sq.ppm 4 4 0 4 4 0 ff0000",
        "quick sq.csv sq.ppm 4 4 0 0 nan 4 ff0000",
        "quick sq.csv sq.ppm 4 4 0 0 1e10 4 ff0000",
        "quick sq.csv sq.ppm 4 4 -1e10 0 4 4 ff0000",
        "quick sq.csv sq.ppm 4 4 0  4 4 ff0000",
        "quick|sq.csv|sq.ppm|4|4|0|0|1 |4|ff0000",
        "quick sq.csv sq.ppm 4 4 0 0 0x1 4 ff0000",
        "quick sq.csv sq.ppm 4 4 0 0 4 4 ff000",
        "quick sq.csv sq.ppm 4 4 0 0 4 4 ff00000",
        "quick sq.csv sq.ppm 4 4 0 0 4 4 gf0000",
        "quick sq.csv sq.ppm 4 4 0 0 4 4 +f0000",
    ];
    for line in rows {
        let found = run_of(alloc, line, "sq.csv", SQUARE.as_bytes())?;
        assert_eq!(rt; shown(alloc, &found.end)?.as_str(), "Usage", "{line}");
        assert_eq!(rt; found.shelf.asked().len(), 0, "{line}");
    }
    Ok(())
}

#[test]
fn forms_of_words_give_their_view_and_fill(rt: HostRuntime) -> Result<(), Fail> {
    let alloc = rt.alloc();
    let rows = [
        ("quick sq.csv sq.ppm 2 1 1 1 3 2 FF0000", "2 1", "##"),
        (
            "quick sq.csv sq.ppm 0000000002 1 -1 1 1 2 ff0000",
            "2 1",
            "..",
        ),
        ("quick sq.csv sq.ppm 3 1 0 1.5 3 2.5 fF0000", "3 1", ".##"),
        (
            "quick sq.csv sq.ppm 2 2 0 0.000001 4 4 ff0000",
            "2 2",
            "../#.",
        ),
        (
            "quick sq.csv sq.ppm 10 1 0 1 1e1 2 ff0000",
            "10 1",
            ".##.......",
        ),
        (
            "quick sq.csv sq.ppm 4 1 +.5 1 2.5 1.5 ff0000",
            "4 1",
            ".###",
        ),
        // the centre lies half a millionth below the square's top edge; for 0 it would lie on it
        (
            "quick sq.csv sq.ppm 1 1 0 -0.0000005 4 6 ff0000",
            "1 1",
            "#",
        ),
        (
            "quick sq.csv sq.ppm 4 4 0 0 4. 4 ff0000",
            "4 4",
            "..../.##./.##./....",
        ),
        (
            "quick sq.csv sq.ppm 2 1 -999999999 -999999999 1e3 4 ff0000",
            "2 1",
            "..",
        ),
    ];
    for (line, size, rows) in rows {
        let found = run_of(alloc, line, "sq.csv", SQUARE.as_bytes())?;
        assert_eq!(rt; shown(alloc, &found.end)?.as_str(), "Done", "{line}");
        let want = pixmap(alloc, size, rows, RED)?;
        assert_eq!(rt; found.picture(), want.as_slice(), "{line}");
    }
    Ok(())
}

// An empty name is asked of the devices as any other.
#[test]
fn an_empty_name_is_a_name(rt: HostRuntime) -> Result<(), Fail> {
    let alloc = rt.alloc();
    let rows = [
        ("quick||sq.ppm|4|4|0|0|4|4|ff0000", "", "Done"),
        (
            "quick||sq.ppm|4|4|0|0|4|4|ff0000",
            "sq.csv",
            "Missing(Layer(0))",
        ),
        ("quick|sq.csv||4|4|0|0|4|4|ff0000", "sq.csv", "Done"),
    ];
    for (line, name, want) in rows {
        let found = run_of(alloc, line, name, SQUARE.as_bytes())?;
        assert_eq!(rt; shown(alloc, &found.end)?.as_str(), want, "{line}");
        assert_eq!(rt; found.shelf.asked().len(), 1, "{line}");
        assert_eq!(rt;
            found.tray.file("").is_some(),
            line.contains("||4|"),
            "{line}"
        );
    }
    Ok(())
}

// A shelf that has one byte more than is asked for under each name.
#[derive(Drop)]
struct Endless;

impl Shelf for Endless {
    ghost use Rattle.std.specs.Prelude.{None, [], false};

    ghost tells = { λ _. false };

    ghost file_at = { λ _ _. None };

    ghost asked = { λ _. [] };

    ghost faults = { λ _. 0 };

    ghost misses = { λ _. 0 };

    fn read(&mut self, _name: &str, max: u64, into: &mut Vec<u8>) -> ReadEnd {
        into.clear();
        match into.resize(max as usize, b' ') {
            Ok(()) if into.push(b' ').is_ok() => ReadEnd::Found,
            _ => {
                into.clear();
                ReadEnd::NoMemory
            }
        }
    }
}

#[test]
fn a_project_past_the_limit_is_refused(rt: HostRuntime) -> Result<(), Fail> {
    let alloc = rt.alloc();
    let mut tray = SureTray::new(alloc, one_file(alloc, "sq.ppm", b"old")?);
    let mut out = SureSink::new(Vec::new(alloc));
    let end = play(alloc, "check p.json", &mut Endless, &mut tray, &mut out);
    assert_eq!(rt;
        shown(alloc, &end)?.as_str(),
        "BadProject(Limit(Text { text: \"file\" }))"
    );
    assert_eq!(rt; tray.file("sq.ppm"), Some(b"old".as_slice()));
    Ok(())
}

// 1,000 records: the first has a polygon over the left half and an attribute of 100,000 bytes, the second
// a geometry of 12,000 bytes without an area, and the others a point.
fn large_layer(alloc: Global) -> Result<Vec<u8>, AllocError> {
    let mut bytes = Vec::from_slice(
        alloc,
        b"wkt,name\n\"POLYGON((0 0,256 0,256 512,0 512,0 0))\",",
    )?;
    for _ in 0..100_000 {
        bytes.push(b'x')?;
    }
    bytes.extend_from_slice(b"\n\"MULTIPOINT(300 0")?;
    for _ in 0..3_000 {
        bytes.extend_from_slice(b",7 7")?;
    }
    bytes.extend_from_slice(b")\",second\n")?;
    for _ in 0..998 {
        bytes.extend_from_slice(b"POINT(300 1),other\n")?;
    }
    Ok(bytes)
}

// A pixmap whose first columns are red, and its others white.
fn left_red(alloc: Global, size: &str, w: u32, h: u32, red: u32) -> Result<Vec<u8>, AllocError> {
    let mut bytes = pixmap(alloc, size, "", RED)?;
    for _ in 0..h {
        for i in 0..w {
            let rest = if i < red { 0 } else { 255 };
            bytes.extend_from_slice(&[255, rest, rest])?;
        }
    }
    Ok(bytes)
}

// A picture of this size and extent, whose first columns are red.
fn is_left_red(
    alloc: Global,
    layer: &[u8],
    size: (&str, u32, u32),
    corner: &str,
    red: u32,
) -> Result<bool, AllocError> {
    let (text, w, h) = size;
    let line = format!(in alloc; "quick sq.csv sq.ppm {text} 0 0 {corner} ff0000")?;
    let found = run_of(alloc, line.as_str(), "sq.csv", layer)?;
    let want = left_red(alloc, text, w, h, red)?;
    Ok(found.picture() == want.as_slice())
}

#[test]
fn a_large_layer_is_painted(rt: HostRuntime) -> Result<(), Fail> {
    let alloc = rt.alloc();
    let layer = large_layer(alloc)?;
    let bytes = layer.as_slice();
    assert!(rt; is_left_red(alloc, bytes, ("4096 1", 4096, 1), "512 0.125", 2048)?);
    assert!(rt; is_left_red(alloc, bytes, ("1 4096", 1, 4096), "0.125 512", 1)?);
    Ok(())
}

#[test]
fn a_large_picture_is_painted(rt: HostRuntime) -> Result<(), Fail> {
    let alloc = rt.alloc();
    let bytes = b"wkt\n\"POLYGON((0 0,256 0,256 512,0 512,0 0))\"\n".as_slice();
    assert!(rt; is_left_red(alloc, bytes, ("512 512", 512, 512), "512 512", 256)?);
    Ok(())
}
