//! The command `paint` over devices in memory: a worked project of three layers, and canvases that can't be
//! painted.
use super::check_tests::files_of;
use super::*;
use cv_outside::{MemShelf, SureSink, SureTray};
use cv_testing::words_of;
use std::alloc::{AllocError, Global};
use std::collections::BTreeMap;
use std::test::Fail;

// A grey square multiplied onto another one, which is painted within a mask.
pub(super) const TWO: &str =
    "{\"version\":1,\"background\":\"ffffff\",\"canvases\":[{\"width\":4,\"height\":4,\"cache\":1024,\
    \"extent\":[\"0\",\"0\",\"4\",\"4\"]}],\"layers\":[{\"id\":2,\"name\":\"top\",\
    \"source\":{\"kind\":\"text\",\"file\":\"top.csv\"},\"blend\":\"multiply\",\
    \"style\":{\"kind\":\"single\",\"symbol\":{\"fill\":\"646464\"}}},{\"id\":1,\"name\":\"base\",\
    \"source\":{\"kind\":\"text\",\"file\":\"base.csv\"},\"mask\":3,\"style\":{\"kind\":\"single\",\
    \"symbol\":{\"fill\":\"c8c8c8\"}}},{\"id\":3,\"name\":\"mask\",\"source\":{\"kind\":\"text\",\
    \"file\":\"mask.csv\"},\"visible\":false,\"style\":{\"kind\":\"single\",\"symbol\":{}}}]}";

// The same without layers, on a canvas without an extent.
const BLIND: &str =
    "{\"version\":1,\"background\":\"ffffff\",\"canvases\":[{\"width\":4,\"height\":4}],\"layers\":[]}";

pub(super) const TOP: &str = "wkt\n\"POLYGON((1 1,3 1,3 3,1 3,1 1))\"\n";

pub(super) const BASE: &str = "wkt\n\"POLYGON((0 0,4 0,4 4,0 4,0 0))\"\n";

pub(super) const MASK: &str = "wkt\n\"POLYGON((0 0,4 0,4 2,0 2,0 0))\"\n";

// What stands after a run over devices that never fail.
#[derive(Drop)]
pub(super) struct After {
    pub(super) told: String,
    pub(super) tray: SureTray,
}

// A run over these files: its end, how many names were asked, and what was printed.
pub(super) fn painted(
    alloc: Global,
    line: &str,
    pairs: &[(&str, &str)],
) -> Result<After, AllocError> {
    let mut shelf = MemShelf::new(alloc, files_of(alloc, pairs)?, Vec::new(alloc));
    let mut tray = SureTray::new(alloc, BTreeMap::new(alloc));
    let mut out = SureSink::new(Vec::new(alloc));
    let words = words_of(alloc, line)?;
    let end = run_once(alloc, words.as_slice(), &mut shelf, &mut tray, &mut out);
    let asked = shelf.asked().len();
    let printed = String::from_utf8_lossy(alloc, out.bytes())?;
    let told = format!(in alloc; "{end:?} {asked} {printed}")?;
    Ok(After { told, tray })
}

// The red of each pixel of a picture of 16, after its head of 11 bytes.
pub(super) fn reds(alloc: Global, bytes: &[u8]) -> Result<String, AllocError> {
    let mut text = String::new(alloc);
    for at in 0..16 {
        let red = bytes.get(11 + 3 * at).copied().unwrap_or(0);
        write!(text, "{red} ")?;
    }
    Ok(text)
}

#[test]
fn a_masked_layer_is_multiplied(rt: HostRuntime) -> Result<(), Fail> {
    let alloc = rt.alloc();
    let pairs = [
        ("two.json", TWO),
        ("top.csv", TOP),
        ("base.csv", BASE),
        ("mask.csv", MASK),
    ];
    let found = painted(alloc, "paint two.json 0 a.ppm", &pairs)?;
    assert_eq!(rt; found.told.as_str(), "Done 4 image 4 4\n");
    let found = reds(alloc, found.tray.file("a.ppm").unwrap_or(b"-"))?;
    let want = "255 255 255 255 255 100 100 255 200 78 78 200 200 200 200 200 ";
    assert_eq!(rt; found.as_str(), want);
    Ok(())
}

#[test]
fn a_canvas_is_refused_before_any_layer_is_read(rt: HostRuntime) -> Result<(), Fail> {
    let alloc = rt.alloc();
    let found = painted(alloc, "paint two.json 1 a.ppm", &[("two.json", TWO)])?;
    assert_eq!(rt;
        found.told.as_str(),
        "BadProject(Missing(Text { text: \"canvases[1]\" })) 1 "
    );
    let found = painted(alloc, "paint p.json 0 a.ppm", &[("p.json", BLIND)])?;
    assert_eq!(rt;
        found.told.as_str(),
        "BadProject(Missing(Text { text: \"canvases[0].extent\" })) 1 "
    );
    let found = painted(alloc, "paint two.json 0 a.ppm", &[("two.json", TWO)])?;
    assert_eq!(rt; found.told.as_str(), "Missing(Layer(0)) 2 ");
    Ok(())
}
