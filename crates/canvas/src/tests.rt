//! The command over real files, a writer that fails, and the lines on standard error.
use crate::end_of_words;
use crate::expected::expected_at;
use crate::files::{FileShelf, FileTray};
use crate::layers::layer_name;
use crate::lines::{Names, conclude};
use crate::output::Output;
use cv_dtext::TextError;
use cv_grid::GridError;
use cv_model::Text;
use cv_open::{DataError, End, Which};
use cv_outside::{Unwritten, write_all};
use cv_project::ProjectError;
use cv_testing::{pixmap, words_of};
use cv_top::run_once;
use std::alloc::{AllocError, Global};
use std::io::Write;
use std::process::ExitCode;
use std::rt::Files;
use std::test::Fail;
use std::{fs, io};

const TEXT: &str =
    "wkt\n\"POLYGON((0 1,4 1,4 4,0 4),(1 2,2 2,2 3,1 3))\"\n\"POLYGON((0 0,2 0,2 1,0 1))\"\n";

const INK: [u8; 3] = [1, 2, 3];

// The command over the real files.
fn play<R: Files + Print + AllocGlobal>(rt: &R, line: &str) -> End {
    match words_of(rt.alloc(), line) {
        Ok(words) => run_once(
            rt.alloc(),
            words.as_slice(),
            &mut FileShelf::new(rt, rt.alloc(), None::<Vec<u8>>),
            &mut FileTray::new(rt, rt.alloc()),
            &mut Output::new(io::writer(rt)),
        ),
        Err(_) => End::NoMemory,
    }
}

#[test]
fn real_files_are_read_and_written(rt: HostRuntime) -> Result<(), Fail> {
    fs::write(&rt, "map.csv", TEXT)?;
    for (line, want) in [
        ("quick map.csv map.ppm 4 4 0 0 4 4 010203", 0),
        ("quick none.csv map.ppm 4 4 0 0 4 4 010203", 8),
        ("quick . map.ppm 4 4 0 0 4 4 010203", 6),
        ("quick map.csv/x map.ppm 4 4 0 0 4 4 010203", 6),
        ("quick map.csv . 4 4 0 0 4 4 010203", 7),
    ] {
        assert_eq!(rt; play(&rt, line).status(), want, "{line}");
    }
    let picture = fs::read(&rt, "map.ppm")?;
    let want = pixmap(rt.alloc(), "4 4", "####/#.##/####/##..", INK)?;
    assert_eq!(rt; picture.as_slice(), want.as_slice());
    Ok(())
}

// The last row is inked up to its middle.
#[test]
fn a_large_picture_is_written_whole(rt: HostRuntime) -> Result<(), Fail> {
    fs::write(&rt, "map.csv", TEXT)?;
    let end = play(&rt, "quick map.csv wide.ppm 512 512 0 0 4 4 010203");
    assert_eq!(rt; end.status(), 0);
    let picture = fs::read(&rt, "wide.ppm")?;
    assert_eq!(rt; picture.len(), 786_447);
    for (at, want) in [(784_911, 1), (785_678, 3), (785_679, 255), (786_446, 255)] {
        assert_eq!(rt; picture.get(at), Some(&want), "{at}");
    }
    Ok(())
}

// 20,000 points, and last a polygon over the upper half.
fn long_text(alloc: Global) -> Result<Vec<u8>, AllocError> {
    let mut text = Vec::from_slice(alloc, b"wkt\n")?;
    for _ in 0..20_000 {
        text.extend_from_slice(b"POINT(1 1)\n")?;
    }
    text.extend_from_slice(b"\"POLYGON((0 2,4 2,4 4,0 4))\"\n")?;
    Ok(text)
}

#[test]
fn the_last_record_of_a_long_file_is_painted(rt: HostRuntime) -> Result<(), Fail> {
    let text = long_text(rt.alloc())?;
    assert!(rt; text.len() > 200_000);
    fs::write(&rt, "long.csv", text.as_slice())?;
    let end = play(&rt, "quick long.csv long.ppm 4 4 0 0 4 4 010203");
    assert_eq!(rt; end.status(), 0);
    let picture = fs::read(&rt, "long.ppm")?;
    let want = pixmap(rt.alloc(), "4 4", "####/####/..../....", INK)?;
    assert_eq!(rt; picture.as_slice(), want.as_slice());
    Ok(())
}

// A writer that takes two bytes at a time, and fails in this way once it has taken four.
#[derive(Drop)]
struct Narrow {
    taken: Vec<u8>,
    kind: io::ErrorKind,
}

impl Write for Narrow {
    fn write(&mut self, piece: &[u8]) -> io::Result<usize> {
        if self.taken.len() >= 4 {
            return Err(io::Error::from(self.kind));
        }
        let n = piece.len().min(2);
        self.taken.extend_from_slice(&piece[..n])?;
        Ok(n)
    }

    fn flush(&mut self) -> io::Result<()> {
        Ok(())
    }
}

#[test]
fn a_writer_that_fails_is_a_fault(rt: HostRuntime) -> Result<(), Fail> {
    for kind in [
        io::ErrorKind::BrokenPipe,
        io::ErrorKind::Interrupted,
        io::ErrorKind::Other,
    ] {
        let taken = Vec::new(rt.alloc());
        let mut out = Output::new(Narrow { taken, kind });
        assert_eq!(rt; write_all(&mut out, b"hello"), Err(Unwritten::Failed));
        assert_eq!(rt; out.writer().taken.as_slice(), b"hell".as_slice());
    }
    let mut out = Output::telling(Vec::new(rt.alloc()));
    assert_eq!(rt; write_all(&mut out, b"hello"), Ok(()));
    assert_eq!(rt; out.writer().as_slice(), b"hello".as_slice());
    Ok(())
}

// What standard error gets at an end, behind a last file to read and one to write.
fn told(alloc: Global, end: &End) -> Vec<u8> {
    let names = Names {
        layer: "",
        read: "sq.csv",
        written: "sq.ppm",
    };
    let mut told = Vec::new(alloc);
    let _ = conclude(end, &names, &mut told);
    told
}

#[test]
fn words_that_are_no_form_have_the_forms(rt: HostRuntime) -> Result<(), Fail> {
    let end = end_of_words(io::ErrorKind::InvalidData);
    let want = "usage\nquick <csv> <out> <w> <h> <xmin> <ymin> <xmax> <ymax> <rrggbb>\n\
        check <project>\npaint <project> <canvas> <out>\nsession <project> <script> --workers 0\n";
    assert_eq!(rt; told(rt.alloc(), &end).as_slice(), want.as_bytes());
    let end = end_of_words(io::ErrorKind::OutOfMemory);
    assert_eq!(rt;
        told(rt.alloc(), &end).as_slice(),
        b"out of memory\n".as_slice()
    );
    Ok(())
}

#[test]
fn refused_data_has_its_file_and_its_place(rt: HostRuntime) -> Result<(), Fail> {
    let end = End::BadData(0, DataError::Text(TextError::Uneven(3)));
    let want = "bad data in layer 0\nsq.csv: another number of fields in record 3\n";
    assert_eq!(rt; told(rt.alloc(), &end).as_slice(), want.as_bytes());
    let end = End::BadData(1, DataError::Grid(GridError::TooFew(3)));
    let want = "bad data in layer 1\nsq.csv: only 3 values\n";
    assert_eq!(rt; told(rt.alloc(), &end).as_slice(), want.as_bytes());
    Ok(())
}

#[test]
fn a_refused_script_has_its_line_and_its_file(rt: HostRuntime) -> Result<(), Fail> {
    let want = b"bad script in line 3\nsq.csv\n".as_slice();
    assert_eq!(rt; told(rt.alloc(), &End::BadScript(3)).as_slice(), want);
    Ok(())
}

#[test]
fn refused_data_has_its_layer(rt: HostRuntime) -> Result<(), Fail> {
    let names = Names {
        layer: "roads",
        read: "roads.csv",
        written: "",
    };
    let mut told = Vec::new(rt.alloc());
    let end = End::BadData(0, DataError::Text(TextError::Uneven(17)));
    let _ = conclude(&end, &names, &mut told);
    let want = "bad data in layer 0\nroads, roads.csv: another number of fields in record 17\n";
    assert_eq!(rt; told.as_slice(), want.as_bytes());
    Ok(())
}

#[test]
fn a_failed_file_has_its_name(rt: HostRuntime) -> Result<(), Fail> {
    let end = End::Missing(Which::Project);
    assert_eq!(rt;
        told(rt.alloc(), &end).as_slice(),
        b"file missing\nsq.csv\n".as_slice()
    );
    let end = End::WriteFault(Which::Output(1));
    assert_eq!(rt;
        told(rt.alloc(), &end).as_slice(),
        b"write fault\nsq.ppm\n".as_slice()
    );
    let end = End::WriteFault(Which::Text);
    assert_eq!(rt;
        told(rt.alloc(), &end).as_slice(),
        b"write fault\n".as_slice()
    );
    Ok(())
}

#[test]
fn a_refused_project_has_its_place(rt: HostRuntime) -> Result<(), Fail> {
    let path = Text::of(rt.alloc(), "layers[0].opacity")?;
    let end = End::BadProject(ProjectError::Limit(path));
    let want = "bad project\nlayers[0].opacity: a whole number from 0 to 255\n";
    assert_eq!(rt; told(rt.alloc(), &end).as_slice(), want.as_bytes());
    let end = End::BadProject(ProjectError::NotJson);
    assert_eq!(rt;
        told(rt.alloc(), &end).as_slice(),
        b"bad project\nsq.csv: no JSON\n".as_slice()
    );
    Ok(())
}

#[test]
fn each_place_has_its_own_expectation(rt: HostRuntime) -> Result<(), Fail> {
    let style = "single, categorised or graduated, or for a grid ramp";
    let rows = [
        ("", "an object"),
        ("file", "at most 16777216 bytes"),
        ("layers[2].source.file", "a string of at most 256 bytes"),
        ("layers[2].source.kind", "text or grid"),
        ("layers[2].style.kind", style),
    ];
    for (path, want) in rows {
        let found = format!(in rt.alloc(); "{}", expected_at(path))?;
        assert_eq!(rt; found.as_str(), want);
    }
    Ok(())
}

#[test]
fn each_number_has_its_range(rt: HostRuntime) -> Result<(), Fail> {
    let rows = [
        (
            "layers[0].mask",
            "a layer's id, a whole number from 1 to 4294967295",
        ),
        (
            "canvases[0].extent[1]",
            "a decimal from -1000000000 to 1000000000",
        ),
        (
            "layers[0].scales.least",
            "a decimal from 0 to 1000000000, the least not above the greatest",
        ),
        (
            "layers[0].style.stops",
            "a list of 1 to 256 stops whose values ascend",
        ),
        (
            "canvases[3].height",
            "a whole number from 1 to 4096, and at most 2097152 pixels in all",
        ),
    ];
    for (path, want) in rows {
        let found = format!(in rt.alloc(); "{}", expected_at(path))?;
        assert_eq!(rt; found.as_str(), want);
    }
    Ok(())
}

// A shelf says which file it reads, where it has a writer.
#[test]
fn a_shelf_says_what_it_reads(rt: HostRuntime) -> Result<(), Fail> {
    let mut told = Vec::new(rt.alloc());
    let mut shelf = FileShelf::new(&rt, rt.alloc(), Some(&mut told));
    assert_eq!(rt;
        layer_name(rt.alloc(), &mut shelf, "none.json", 0).is_none(),
        true
    );
    drop(shelf);
    assert_eq!(rt; told.as_slice(), b"reading none.json\n".as_slice());
    Ok(())
}

const PROJECT: &str =
    "{\"version\":1,\"background\":\"ffffff\",\"canvases\":[],\"layers\":[{\"id\":7,\
    \"name\":\"roads\",\"source\":{\"kind\":\"text\",\"file\":\"roads.csv\"},\"style\":{\"kind\":\"single\",\
    \"symbol\":{}}}]}";

#[test]
fn a_layer_has_the_name_that_its_project_says(rt: HostRuntime) -> Result<(), Fail> {
    fs::write(&rt, "p.json", PROJECT)?;
    let mut shelf = FileShelf::new(&rt, rt.alloc(), None::<Vec<u8>>);
    let name = layer_name(rt.alloc(), &mut shelf, "p.json", 0);
    assert_eq!(rt; name.as_ref().map(Text::as_str), Some("roads"));
    let name = layer_name(rt.alloc(), &mut shelf, "p.json", 1);
    assert!(rt; name.is_none());
    Ok(())
}

#[test]
fn an_end_has_its_status(rt: HostRuntime) -> Result<(), Fail> {
    let mut told = Vec::new(rt.alloc());
    let code = conclude(&End::Usage, &Names::none(), &mut told);
    assert_eq!(rt; code, ExitCode::from(2));
    Ok(())
}
