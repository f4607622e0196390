//! Files worked by hand: the refusals at each level, and whole files.

use crate::{ProjectError, read, write};
use std::alloc::Global;
use std::test::Fail;

/// A word and a path.
fn told(alloc: Global, word: &str, path: &str) -> Result<String, Fail> {
    let mut text = String::from_str(alloc, word)?;
    text.push(' ')?;
    text.push_str(path)?;
    Ok(text)
}

/// What an error is called, with its path.
fn named(alloc: Global, error: &ProjectError) -> Result<String, Fail> {
    match error {
        ProjectError::NotJson => told(alloc, "not", "json"),
        ProjectError::Missing(path) => told(alloc, "missing", path.as_str()),
        ProjectError::WrongKind(path) => told(alloc, "kind", path.as_str()),
        ProjectError::Unknown(path) => told(alloc, "unknown", path.as_str()),
        ProjectError::Duplicate(id) => {
            let text = format!(in alloc; "duplicate {id}")?;
            Ok(text)
        }
        ProjectError::Limit(path) => told(alloc, "limit", path.as_str()),
        ProjectError::BadVersion => told(alloc, "bad", "version"),
        ProjectError::NoMemory => told(alloc, "no", "memory"),
    }
}

/// What a text is refused as.
fn refused(alloc: Global, text: &str) -> Result<String, Fail> {
    match read(alloc, text.as_bytes()) {
        Ok(_) => told(alloc, "all", "right"),
        Err(error) => named(alloc, &error),
    }
}

/// A file of version 2 with one canvas, given by its fields, and no layers.
fn with_canvas(alloc: Global, canvas: &str) -> Result<String, Fail> {
    let text = format!(in alloc;
        "{{\"version\":2,\"background\":\"ffffff\",\"canvases\":[{{{canvas}}}],\"layers\":[]}}"
    )?;
    Ok(text)
}

/// A file of version 2 with one layer, given by what stands behind its id and name.
fn with_layer(alloc: Global, layer: &str) -> Result<String, Fail> {
    let text = format!(in alloc;
        "{{\"version\":2,\"background\":\"ffffff\",\"canvases\":[],
\"layers\":[{{\"id\":1,\"name\":\"a\",{layer}}}]}}"
    )?;
    Ok(text)
}

/// A file of version 2 with a text layer of a style, given by its fields.
fn with_style(alloc: Global, style: &str) -> Result<String, Fail> {
    let layer = format!(in alloc;
        "\"source\":{{\"kind\":\"text\",\"file\":\"f\"}},\"style\":{{{style}}}"
    )?;
    with_layer(alloc, layer.as_str())
}

/// A file of version 2 with a grid of a ramp, given by its fields.
fn with_ramp(alloc: Global, ramp: &str) -> Result<String, Fail> {
    let layer = format!(in alloc;
        "\"source\":{{\"kind\":\"grid\",\"file\":\"f\"}},\"style\":{{\"kind\":\"ramp\",{ramp}}}"
    )?;
    with_layer(alloc, layer.as_str())
}

#[test]
fn the_whole_is_judged_field_by_field(rt: HostRuntime) -> Result<(), Fail> {
    let table = [
        ("{\"version\":1,\"background\":\"ff", "not json"),
        ("1 1", "not json"),
        ("[]", "kind "),
        ("{}", "missing version"),
        ("{\"version\":null}", "missing version"),
        ("{\"version\":\"1\"}", "kind version"),
        ("{\"version\":1.0}", "kind version"),
        ("{\"version\":3}", "bad version"),
        ("{\"version\":0,\"zoom\":1}", "bad version"),
        ("{\"version\":1}", "missing background"),
        (
            "{\"version\":1,\"background\":\"fffff\"}",
            "kind background",
        ),
        (
            "{\"version\":1,\"background\":\"ffffff00\"}",
            "kind background",
        ),
        (
            "{\"version\":1,\"background\":\"fffffg\"}",
            "kind background",
        ),
        (
            "{\"version\":1,\"background\":\"FFffFF\"}",
            "missing canvases",
        ),
        (
            "{\"version\":1,\"background\":\"ffffff\",\"canvases\":{}}",
            "kind canvases",
        ),
        (
            "{\"version\":1,\"background\":\"ffffff\",\"canvases\":[1,1,1,1,1]}",
            "limit canvases",
        ),
        (
            "{\"version\":1,\"background\":\"ffffff\",\"canvases\":[null]}",
            "kind canvases[0]",
        ),
        (
            "{\"version\":1,\"background\":\"ffffff\",\"canvases\":[]}",
            "missing layers",
        ),
        (
            "{\"version\":1,\"background\":\"ffffff\",\"canvases\":[],\"layers\":[],\"z\":1,\"a\":null}",
            "unknown a",
        ),
        (
            "{\"version\":1,\"background\":\"ffffff\",\"canvases\":[],\"layers\":[]}",
            "all right",
        ),
    ];
    for (text, told) in table {
        assert_eq!(rt; refused(rt.alloc(), text)?.as_str(), told, "{text}");
    }
    Ok(())
}

#[test]
fn canvases_are_judged_field_by_field(rt: HostRuntime) -> Result<(), Fail> {
    let alloc = rt.alloc();
    let table = [
        ("", "missing canvases[0].width"),
        ("\"width\":4", "missing canvases[0].height"),
        ("\"width\":4,\"height\":-1", "kind canvases[0].height"),
        ("\"width\":0,\"height\":4", "limit canvases[0].height"),
        ("\"width\":4097,\"height\":1", "limit canvases[0].height"),
        ("\"width\":4096,\"height\":513", "limit canvases[0].height"),
        (
            "\"width\":18446744073709551615,\"height\":18446744073709551615",
            "limit canvases[0].height",
        ),
        (
            "\"width\":4,\"height\":4,\"cache\":268435457",
            "limit canvases[0].cache",
        ),
        (
            "\"width\":4,\"height\":4,\"extent\":[\"0\",\"0\",\"4\"]",
            "kind canvases[0].extent",
        ),
        (
            "\"width\":4,\"height\":4,\"extent\":[\"0\",\"0\",\"4\",4]",
            "kind canvases[0].extent[3]",
        ),
        (
            "\"width\":4,\"height\":4,\"extent\":[\"0\",\"1e99\",\"4\",\"4\"]",
            "limit canvases[0].extent[1]",
        ),
        (
            "\"width\":4,\"height\":4,\"extent\":[\"0\",\"0\",\"0\",\"4\"]",
            "limit canvases[0].extent",
        ),
        (
            "\"width\":4,\"height\":4,\"zoom\":1",
            "unknown canvases[0].zoom",
        ),
        (
            "\"width\":4,\"height\":4,\"cache\":null,\"extent\":null",
            "all right",
        ),
        (
            "\"width\":4096,\"height\":512,\"cache\":0,\"extent\":[\"0\",\"0\",\"4\",\"4\"]",
            "all right",
        ),
    ];
    for (canvas, told) in table {
        let text = with_canvas(alloc, canvas)?;
        assert_eq!(rt; refused(alloc, text.as_str())?.as_str(), told, "{canvas}");
    }
    Ok(())
}

#[test]
fn layers_are_judged_field_by_field(rt: HostRuntime) -> Result<(), Fail> {
    let alloc = rt.alloc();
    let table = [
        ("\"z\":1", "missing layers[0].source"),
        ("\"source\":{}", "missing layers[0].source.kind"),
        (
            "\"source\":{\"kind\":\"shape\"}",
            "kind layers[0].source.kind",
        ),
        (
            "\"source\":{\"kind\":\"text\"}",
            "missing layers[0].source.file",
        ),
        (
            "\"source\":{\"kind\":\"text\",\"file\":\"f\",\"delimiter\":\";\"}",
            "kind layers[0].source.delimiter",
        ),
        (
            "\"source\":{\"kind\":\"grid\",\"file\":\"f\",\"geometry\":null}",
            "unknown layers[0].source.geometry",
        ),
        (
            "\"source\":{\"kind\":\"grid\",\"file\":\"f\"},\"visible\":1",
            "kind layers[0].visible",
        ),
        (
            "\"source\":{\"kind\":\"grid\",\"file\":\"f\"},\"opacity\":256",
            "limit layers[0].opacity",
        ),
        (
            "\"source\":{\"kind\":\"grid\",\"file\":\"f\"},\"blend\":\"Normal\"",
            "kind layers[0].blend",
        ),
        (
            "\"source\":{\"kind\":\"grid\",\"file\":\"f\"},\"mask\":0",
            "limit layers[0].mask",
        ),
        (
            "\"source\":{\"kind\":\"grid\",\"file\":\"f\"},\"join\":{\"layer\":4294967296}",
            "limit layers[0].join.layer",
        ),
        (
            "\"source\":{\"kind\":\"grid\",\"file\":\"f\"},\"join\":{\"layer\":1,\"local\":\"a\"}",
            "missing layers[0].join.key",
        ),
        (
            "\"source\":{\"kind\":\"grid\",\"file\":\"f\"}",
            "missing layers[0].style",
        ),
        (
            "\"source\":{\"kind\":\"grid\",\"file\":\"f\"},\"style\":{\"kind\":\"single\"}",
            "kind layers[0].style.kind",
        ),
    ];
    for (layer, told) in table {
        let text = with_layer(alloc, layer)?;
        assert_eq!(rt; refused(alloc, text.as_str())?.as_str(), told, "{layer}");
    }
    Ok(())
}

#[test]
fn styles_are_judged_field_by_field(rt: HostRuntime) -> Result<(), Fail> {
    let alloc = rt.alloc();
    let table = [
        ("\"kind\":\"ramp\"", "kind layers[0].style.kind"),
        ("\"kind\":\"single\"", "missing layers[0].style.symbol"),
        (
            "\"kind\":\"single\",\"symbol\":{\"fill\":\"12345\"}",
            "kind layers[0].style.symbol.fill",
        ),
        (
            "\"kind\":\"single\",\"symbol\":{\"pen\":{\"colour\":\"000000\",\"width\":65}}",
            "limit layers[0].style.symbol.pen.width",
        ),
        (
            "\"kind\":\"single\",\"symbol\":{\"marker\":{\"shape\":\"star\"}}",
            "kind layers[0].style.symbol.marker.shape",
        ),
        (
            "\"kind\":\"single\",\"symbol\":{\"pan\":null}",
            "unknown layers[0].style.symbol.pan",
        ),
        ("\"kind\":\"categorised\"", "missing layers[0].style.field"),
        (
            "\"kind\":\"categorised\",\"field\":null,\"joined\":1",
            "kind layers[0].style.joined",
        ),
        (
            "\"kind\":\"categorised\",\"field\":\"a\"",
            "missing layers[0].style.classes",
        ),
        (
            "\"kind\":\"categorised\",\"field\":\"a\",\"joined\":\"b\",\"classes\":[]",
            "unknown layers[0].style.joined",
        ),
        (
            "\"kind\":\"categorised\",\"field\":\"a\",\"joined\":null,\"classes\":[]",
            "all right",
        ),
        (
            "\"kind\":\"categorised\",\"joined\":\"a\",
\"classes\":[{\"value\":\"b\",\"symbol\":{\"pen\":{\"colour\":\"000000\",\"width\":0}}}]",
            "limit layers[0].style.classes[0].symbol.pen.width",
        ),
        (
            "\"kind\":\"graduated\",\"field\":\"a\",\"classes\":[{\"lower\":\"0\",\"upper\":\"nan\"}]",
            "limit layers[0].style.classes[0].upper",
        ),
        (
            "\"kind\":\"graduated\",\"field\":\"a\",\"classes\":[],\"fallback\":{}",
            "unknown layers[0].style.fallback",
        ),
    ];
    for (style, told) in table {
        let text = with_style(alloc, style)?;
        assert_eq!(rt; refused(alloc, text.as_str())?.as_str(), told, "{style}");
    }
    let ramps = [
        ("\"stops\":[]", "missing layers[0].style.ramp"),
        (
            "\"ramp\":\"exact\",\"stops\":[]",
            "limit layers[0].style.stops",
        ),
        (
            "\"ramp\":\"exact\",
\"stops\":[{\"value\":\"1\",\"colour\":\"000000\"},{\"value\":\"1\",\"colour\":\"000000\"}]",
            "limit layers[0].style.stops",
        ),
        (
            "\"ramp\":\"exact\",\"stops\":[{\"value\":\"1\",\"colour\":\"000000\"},{\"value\":\"2\"}]",
            "missing layers[0].style.stops[1].colour",
        ),
        (
            "\"ramp\":\"exact\",\"stops\":[{\"value\":\"1\",\"colour\":\"00000080\"}]",
            "all right",
        ),
    ];
    for (ramp, told) in ramps {
        let text = with_ramp(alloc, ramp)?;
        assert_eq!(rt; refused(alloc, text.as_str())?.as_str(), told, "{ramp}");
    }
    Ok(())
}

/// Three layers in the version and with the fields given of the first.
fn two(alloc: Global, version: &str, first: &str) -> Result<String, Fail> {
    let text = format!(in alloc;
        "{{\"version\":{version},\"background\":\"ffffff\",
 \"canvases\":[{{\"width\":4,\"height\":4,\"cache\":1024,\"extent\":[\"0\",\"0\",\"4\",\"4\"]}}],
 \"layers\":[
 {{\"id\":2,\"name\":\"top\",\"source\":{{\"kind\":\"text\",\"file\":\"top.csv\"}},
  \"blend\":\"multiply\"{first},
  \"style\":{{\"kind\":\"single\",\"symbol\":{{\"fill\":\"646464\"}}}}}},
 {{\"id\":1,\"name\":\"base\",\"source\":{{\"kind\":\"text\",\"file\":\"base.csv\"}},\"mask\":3,
  \"style\":{{\"kind\":\"single\",\"symbol\":{{\"fill\":\"c8c8c8\"}}}}}},
 {{\"id\":3,\"name\":\"mask\",\"source\":{{\"kind\":\"text\",\"file\":\"mask.csv\"}},\"visible\":false,
  \"style\":{{\"kind\":\"single\",\"symbol\":{{}}}}}}]}}"
    )?;
    Ok(text)
}

#[test]
fn scales_are_a_field_from_version_2_on(rt: HostRuntime) -> Result<(), Fail> {
    let alloc = rt.alloc();
    let scales = ",\"scales\":{\"least\":\"0.5\",\"greatest\":\"0.75\"}";
    let table = [
        ("1", "", "all right"),
        ("1", scales, "unknown layers[0].scales"),
        ("1", ",\"scales\":null", "unknown layers[0].scales"),
        ("2", scales, "all right"),
        (
            "2",
            ",\"scales\":{\"least\":\"0.75\",\"greatest\":\"0.5\"}",
            "limit layers[0].scales.greatest",
        ),
        (
            "2",
            ",\"scales\":{\"least\":\"-1\"}",
            "limit layers[0].scales.least",
        ),
        ("2", ",\"opacity\":256", "limit layers[0].opacity"),
        ("3", "", "bad version"),
    ];
    for (version, first, told) in table {
        let text = two(alloc, version, first)?;
        assert_eq!(rt; refused(alloc, text.as_str())?.as_str(), told, "{first}");
    }
    let twice = "{\"version\":2,\"background\":\"ffffff\",\"canvases\":[],\"layers\":[
 {\"id\":2,\"name\":\"a\",\"source\":{\"kind\":\"text\",\"file\":\"f\"},
  \"style\":{\"kind\":\"single\",\"symbol\":{}}},{\"id\":2,\"opacity\":256}]}";
    assert_eq!(rt; refused(alloc, twice)?.as_str(), "duplicate 2");
    Ok(())
}

#[test]
fn a_file_has_its_parts(rt: HostRuntime) -> Result<(), Fail> {
    let text = two(rt.alloc(), "1", "")?;
    let Ok(file) = read(rt.alloc(), text.as_bytes()) else {
        return Err(Fail::from("refused"));
    };
    assert_eq!(rt; file.canvases().len(), 1);
    assert_eq!(rt; file.canvases()[0].cache, 1024);
    assert_eq!(rt; file.layers().len(), 3);
    assert_eq!(rt; file.layers()[1].mask, Some(3));
    assert_eq!(rt; file.layers()[0].opacity, 255);
    assert_eq!(rt; file.layers()[0].name.as_str(), "top");
    assert!(rt; !file.layers()[2].visible);
    Ok(())
}

/// What is written of the file that a text gives.
fn rewritten(alloc: Global, text: &str) -> Result<String, Fail> {
    let Ok(file) = read(alloc, text.as_bytes()) else {
        return Err(Fail::from("refused"));
    };
    let bytes = write(alloc, &file)?;
    let Ok(text) = std::str::from_utf8(bytes.as_slice()) else {
        return Err(Fail::from("no text"));
    };
    let copy = String::from_str(alloc, text)?;
    Ok(copy)
}

/// Four layers, of each kind of style.
const REAL: &str = "{\"version\":1,\"background\":\"ffffff\",
 \"canvases\":[{\"width\":800,\"height\":600,\"extent\":[\"0\",\"0\",\"800\",\"600\"]}],
 \"layers\":[
 {\"id\":40,\"name\":\"towns\",
  \"source\":{\"kind\":\"text\",\"file\":\"towns.csv\",\"delimiter\":\"semicolon\",\"geometry\":\"geom\"},
  \"style\":{\"kind\":\"graduated\",\"field\":\"pop\",\"classes\":[
   {\"lower\":\"0\",\"upper\":\"1000\",
    \"symbol\":{\"marker\":{\"shape\":\"square\",\"colour\":\"000000\",\"size\":3}}},
   {\"lower\":\"1000\",\"upper\":\"10000\",
    \"symbol\":{\"marker\":{\"shape\":\"circle\",\"colour\":\"ff0000\",\"size\":9}}}]}},
 {\"id\":30,\"name\":\"roads\",\"source\":{\"kind\":\"text\",\"file\":\"roads.csv\"},
  \"style\":{\"kind\":\"single\",\"symbol\":{\"pen\":{\"colour\":\"000000\",\"width\":3}}}},
 {\"id\":20,\"name\":\"lakes\",\"source\":{\"kind\":\"text\",\"file\":\"lakes.csv\"},\"opacity\":128,
  \"style\":{\"kind\":\"categorised\",\"field\":\"kind\",\"classes\":[
   {\"value\":\"deep\",\"symbol\":{\"fill\":\"0000ff\"}},
   {\"value\":\"shallow\",\"symbol\":{\"fill\":\"80c0ff\"}}]}},
 {\"id\":10,\"name\":\"heights\",\"source\":{\"kind\":\"grid\",\"file\":\"dem.asc\"},
  \"style\":{\"kind\":\"ramp\",\"ramp\":\"linear\",\"stops\":[
   {\"value\":\"100\",\"colour\":\"204060\"},{\"value\":\"300\",\"colour\":\"60a0e0\"}]}}]}";

/// The same as it is written.
const REAL_WRITTEN: &str = "{\"background\":\"ffffff\",\
\"canvases\":[{\"cache\":67108864,\"extent\":[\"0\",\"0\",\"800\",\"600\"],\"height\":600,\"width\":800}],\
\"layers\":[\
{\"blend\":\"normal\",\"id\":40,\"name\":\"towns\",\"opacity\":255,\
\"source\":{\"delimiter\":\"semicolon\",\"file\":\"towns.csv\",\"geometry\":\"geom\",\"kind\":\"text\"},\
\"style\":{\"classes\":[\
{\"lower\":\"0\",\"symbol\":{\"marker\":{\"colour\":\"000000ff\",\"shape\":\"square\",\"size\":3}},\
\"upper\":\"1000\"},\
{\"lower\":\"1000\",\"symbol\":{\"marker\":{\"colour\":\"ff0000ff\",\"shape\":\"circle\",\"size\":9}},\
\"upper\":\"10000\"}],\"field\":\"pop\",\"kind\":\"graduated\"},\"visible\":true},\
{\"blend\":\"normal\",\"id\":30,\"name\":\"roads\",\"opacity\":255,\
\"source\":{\"delimiter\":\"comma\",\"file\":\"roads.csv\",\"geometry\":\"wkt\",\"kind\":\"text\"},\
\"style\":{\"kind\":\"single\",\"symbol\":{\"pen\":{\"colour\":\"000000ff\",\"width\":3}}},\"visible\":true},\
{\"blend\":\"normal\",\"id\":20,\"name\":\"lakes\",\"opacity\":128,\
\"source\":{\"delimiter\":\"comma\",\"file\":\"lakes.csv\",\"geometry\":\"wkt\",\"kind\":\"text\"},\
\"style\":{\"classes\":[{\"symbol\":{\"fill\":\"0000ffff\"},\"value\":\"deep\"},\
{\"symbol\":{\"fill\":\"80c0ffff\"},\"value\":\"shallow\"}],\"field\":\"kind\",\"kind\":\"categorised\"},\
\"visible\":true},\
{\"blend\":\"normal\",\"id\":10,\"name\":\"heights\",\"opacity\":255,\
\"source\":{\"file\":\"dem.asc\",\"kind\":\"grid\"},\
\"style\":{\"kind\":\"ramp\",\"ramp\":\"linear\",\
\"stops\":[{\"colour\":\"204060ff\",\"value\":\"100\"},{\"colour\":\"60a0e0ff\",\"value\":\"300\"}]},\
\"visible\":true}],\"version\":2}";

/// Three layers as they are written, of which the first has these scales.
fn two_written(alloc: Global, scales: &str) -> Result<String, Fail> {
    let text = format!(in alloc;
        "{{\"background\":\"ffffff\",\
\"canvases\":[{{\"cache\":1024,\"extent\":[\"0\",\"0\",\"4\",\"4\"],\"height\":4,\"width\":4}}],\
\"layers\":[\
{{\"blend\":\"multiply\",\"id\":2,\"name\":\"top\",\"opacity\":255,{scales}\
\"source\":{{\"delimiter\":\"comma\",\"file\":\"top.csv\",\"geometry\":\"wkt\",\"kind\":\"text\"}},\
\"style\":{{\"kind\":\"single\",\"symbol\":{{\"fill\":\"646464ff\"}}}},\"visible\":true}},\
{{\"blend\":\"normal\",\"id\":1,\"mask\":3,\"name\":\"base\",\"opacity\":255,\
\"source\":{{\"delimiter\":\"comma\",\"file\":\"base.csv\",\"geometry\":\"wkt\",\"kind\":\"text\"}},\
\"style\":{{\"kind\":\"single\",\"symbol\":{{\"fill\":\"c8c8c8ff\"}}}},\"visible\":true}},\
{{\"blend\":\"normal\",\"id\":3,\"name\":\"mask\",\"opacity\":255,\
\"source\":{{\"delimiter\":\"comma\",\"file\":\"mask.csv\",\"geometry\":\"wkt\",\"kind\":\"text\"}},\
\"style\":{{\"kind\":\"single\",\"symbol\":{{}}}},\"visible\":false}}],\"version\":2}}"
    )?;
    Ok(text)
}

#[test]
fn what_is_written_is_read_and_written_again(rt: HostRuntime) -> Result<(), Fail> {
    let alloc = rt.alloc();
    let plain = two(alloc, "1", "")?;
    let plain_written = two_written(alloc, "")?;
    let scaled = two(
        alloc,
        "2",
        ",\"join\":null,\"scales\":{\"greatest\":\"0.750\",\"least\":null}",
    )?;
    let scaled_written = two_written(alloc, "\"scales\":{\"greatest\":\"0.75\"},")?;
    let table = [
        (
            "{\"version\":1,\"background\":\"102030\",\"layers\":[],
 \"canvases\":[{\"width\":2,\"height\":1,\"extent\":[\"0\",\"0\",\"2\",\"1\"]}]}",
            "{\"background\":\"102030\",\
\"canvases\":[{\"cache\":67108864,\"extent\":[\"0\",\"0\",\"2\",\"1\"],\"height\":1,\"width\":2}],\
\"layers\":[],\"version\":2}",
        ),
        (plain.as_str(), plain_written.as_str()),
        (scaled.as_str(), scaled_written.as_str()),
        (REAL, REAL_WRITTEN),
    ];
    for (text, written) in table {
        assert_eq!(rt; rewritten(alloc, text)?.as_str(), written);
        assert_eq!(rt; rewritten(alloc, written)?.as_str(), written);
    }
    Ok(())
}
