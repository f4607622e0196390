//! What no clause says: worked texts over each rule, and that memory suffices.
use crate::read;
use cv_model::{Cell, Grid};
use std::alloc::Global;
use std::test::Fail;

/// The numbers of a grid: its size, its west and south edge, the sides of a cell, and its cells.
fn summary(alloc: Global, grid: &Grid) -> Result<String, Fail> {
    let (cols, rows) = (grid.cols(), grid.rows());
    let (left2, bottom2) = (grid.left2(), grid.bottom2());
    let (dx, dy) = (grid.dx(), grid.dy());
    let mut text = format!(in alloc; "{cols}x{rows} {left2} {bottom2} {dx} {dy}:")?;
    for at in 0..grid.cells().len() {
        match grid.cells().get(at) {
            Some(Cell::Value(number)) => write!(text, " {number}")?,
            Some(Cell::Void) => text.push_str(" -")?,
            None => {}
        }
    }
    Ok(text)
}

/// What a text is read as, or why it is refused, with room for 1,000 cells.
fn found(alloc: Global, bytes: &[u8]) -> Result<String, Fail> {
    if bytes.len() > 1000 {
        return Ok(String::new(alloc));
    }
    let text = match read(alloc, bytes, 1000) {
        Ok(grid) => summary(alloc, &grid)?,
        Err(error) => format!(in alloc; "{error:?}")?,
    };
    Ok(text)
}

#[test]
fn headers_lay_out_the_cells(rt: HostRuntime) -> Result<(), Fail> {
    let rows: [(&[u8], &str); 8] = [
        (
            b"ncols 2 nrows 2 xllcorner 0 yllcorner 0 cellsize 1 1 2 3 4",
            "2x2 0 0 1000000 1000000: 1000000 2000000 3000000 4000000",
        ),
        (
            b"ncols 2\nnrows 2\nxllcorner 0\nyllcorner 0\ncellsize 4\nNODATA_value -9999\n100 200\n-9999 300",
            "2x2 0 0 4000000 4000000: 100000000 200000000 - 300000000",
        ),
        (
            b"\tNROWS 1\r\nCellSize\n2 YLLCENTER 1\r\nncols 1\nXllCorner 3\n\n 7 ",
            "1x1 6000000 0 2000000 2000000: 7000000",
        ),
        (
            b"ncols 1 nrows 1 xllcenter 10 yllcenter 20 dx 4 dy 6 5",
            "1x1 16000000 34000000 4000000 6000000: 5000000",
        ),
        (
            b"dy 6 dx 4 ncols 1 nrows 1 xllcorner -1.5 yllcorner -2e-1 5",
            "1x1 -3000000 -400000 4000000 6000000: 5000000",
        ),
        (
            b"\xEF\xBB\xBFncols 1 nrows 1 xllcorner 0 yllcorner 0 cellsize 1 1",
            "1x1 0 0 1000000 1000000: 1000000",
        ),
        (
            b"ncols 0000000002 nrows 1 xllcorner 0 yllcorner 0 cellsize 0.0000005 1 2",
            "2x1 0 0 1 1: 1000000 2000000",
        ),
        (
            b"ncols 1 nrows 1 xllcorner 999999999 yllcorner -1000000000 cellsize 1 1",
            "1x1 1999999998000000 -2000000000000000 1000000 1000000: 1000000",
        ),
    ];
    for (bytes, want) in rows {
        assert_eq!(rt; found(rt.alloc(), bytes)?.as_str(), want);
    }
    Ok(())
}

#[test]
fn too_many_cells_and_edges_out_of_range_are_refused(rt: HostRuntime) -> Result<(), Fail> {
    let rows: [(&[u8], &str); 5] = [
        (
            b"ncols 1 nrows 1 xllcorner 1000000000 yllcorner 0 cellsize 1 1",
            "TooLarge",
        ),
        (
            b"ncols 1 nrows 1 xllcorner 0 yllcenter -1000000000 cellsize 1 1",
            "TooLarge",
        ),
        (
            b"ncols 1001 nrows 1 xllcorner 0 yllcorner 0 cellsize 1 ;",
            "TooLarge",
        ),
        (
            b"ncols 4294967295 nrows 4294967295 xllcorner 0 yllcorner 0 cellsize 1",
            "TooLarge",
        ),
        (
            b"ncols 100 nrows 10 xllcorner 0 yllcorner 0 cellsize 1",
            "TooFew(0)",
        ),
    ];
    for (bytes, want) in rows {
        assert_eq!(rt; found(rt.alloc(), bytes)?.as_str(), want);
    }
    Ok(())
}

#[test]
fn values_are_the_cells_from_the_north_west(rt: HostRuntime) -> Result<(), Fail> {
    let rows: [(&[u8], &str); 7] = [
        (
            b"ncols 3 nrows 2 xllcorner 0 yllcorner 0 cellsize 1 -9999 -9999.0 nan 1e1 .5 +2",
            "3x2 0 0 1000000 1000000: - - - 10000000 500000 2000000",
        ),
        (
            b"nodata_value 5 ncols 2 nrows 1 xllcorner 0 yllcorner 0 cellsize 1 5.0 -9999",
            "2x1 0 0 1000000 1000000: - -9999000000",
        ),
        (
            b"ncols 2 nrows 1 xllcorner 0 yllcorner 0 cellsize 1 nodata_value NaN -nan -9999",
            "2x1 0 0 1000000 1000000: - -9999000000",
        ),
        (
            b"ncols 1 nrows 1 xllcorner 0 yllcorner 0 cellsize 1 \
              nodata_value -3.40282346638529e+38 -3.40282346638529e+38",
            "1x1 0 0 1000000 1000000: -",
        ),
        (
            b"ncols 2 nrows 1 xllcorner 0 yllcorner 0 cellsize 1 1e30 -1e30",
            "2x1 0 0 1000000 1000000: 1000000000000000 -1000000000000000",
        ),
        (
            b"ncols 1 nrows 1 xllcorner 0 yllcorner 0 cellsize 1 nodata_value 1000000000 1e30",
            "1x1 0 0 1000000 1000000: -",
        ),
        (
            b"ncols 3 nrows 1 xllcorner 0 yllcorner 0 cellsize 1 999999999 0000000001 1234567890",
            "3x1 0 0 1000000 1000000: 999999999000000 1000000 1000000000000000",
        ),
    ];
    for (bytes, want) in rows {
        assert_eq!(rt; found(rt.alloc(), bytes)?.as_str(), want);
    }
    Ok(())
}

#[test]
fn cells_that_are_none_too_few_or_too_many_are_refused(rt: HostRuntime) -> Result<(), Fail> {
    let rows: [(&[u8], &str); 5] = [
        (
            b"ncols 2 nrows 2 xllcorner 0 yllcorner 0 cellsize 1 1 2 3",
            "TooFew(3)",
        ),
        (
            b"ncols 2 nrows 2 xllcorner 0 yllcorner 0 cellsize 1 1 2 x 4",
            "BadNumber(55)",
        ),
        (
            b"ncols 2 nrows 2 xllcorner 0 yllcorner 0 cellsize 1 1 2 3;4 4",
            "BadNumber(55)",
        ),
        (
            b"ncols 2 nrows 2 xllcorner 0 yllcorner 0 cellsize 1 1 2 3 4 5",
            "TooMany",
        ),
        (
            b"ncols 2 nrows 2 xllcorner 0 yllcorner 0 cellsize 1 1 2 3 4 x",
            "TooMany",
        ),
    ];
    for (bytes, want) in rows {
        assert_eq!(rt; found(rt.alloc(), bytes)?.as_str(), want);
    }
    Ok(())
}

#[test]
fn the_first_missing_word_of_a_header_decides(rt: HostRuntime) -> Result<(), Fail> {
    let rows: [(&[u8], &str); 12] = [
        (b"", "MissingWord(Ncols)"),
        (b" \n\t", "MissingWord(Ncols)"),
        (b"1 2", "MissingWord(Ncols)"),
        (b"nan", "MissingWord(Ncols)"),
        (b"\xEF\xBB\xBF\xEF\xBB\xBFncols 1", "MissingWord(Ncols)"),
        (
            b"ncols 2 xllcorner 0 yllcorner 0 cellsize 1 1 2 3",
            "MissingWord(Nrows)",
        ),
        (
            b"ncols 2 nrows 2 yllcorner 0 cellsize 1 1",
            "MissingWord(Xll)",
        ),
        (b"ncols 2 nrows 2 xllcorner 0", "MissingWord(Yll)"),
        (
            b"ncols 2 nrows 2 xllcorner 0 yllcorner 0 1",
            "MissingWord(Cellsize)",
        ),
        (
            b"ncols 2 nrows 2 xllcorner 0 yllcorner 0 dx 1 1 2 3 4",
            "MissingWord(Dy)",
        ),
        (
            b"ncols 2 nrows 2 xllcorner 0 yllcorner 0 dy 1 1 2 3 4",
            "MissingWord(Dx)",
        ),
        (
            b"ncols 2 nrows 2 yllcorner 0 dy 1 1 2 3 4",
            "MissingWord(Xll)",
        ),
    ];
    for (bytes, want) in rows {
        assert_eq!(rt; found(rt.alloc(), bytes)?.as_str(), want);
    }
    Ok(())
}

#[test]
fn the_first_wrong_token_of_a_header_decides(rt: HostRuntime) -> Result<(), Fail> {
    let rows: [(&[u8], &str); 29] = [
        (b"foo 1", "BadWord(1)"),
        (b"foo 1 ncols 0", "BadWord(1)"),
        (b"ncols 0 foo 1", "BadNumber(6)"),
        (b"ncols 2\nnrows 2\nfoo 1", "BadWord(3)"),
        (b"ncols 2\n\n\nncols 3", "BadWord(4)"),
        (b"ncols 2\rnrows 2\r\nNCOLS 3", "BadWord(2)"),
        (b"ncols\x0B2", "BadWord(1)"),
        (b"xllcorner 0\n\nxllcenter 0", "BadWord(3)"),
        (b"yllcenter 0\nyllcorner 0", "BadWord(2)"),
        (b"cellsize 1\ndx 1", "BadWord(2)"),
        (b"dx 1\ndy 1\ncellsize 1", "BadWord(3)"),
        (b"dy 1\ncellsize 1", "BadWord(2)"),
        (b"nodata_value 1\nNODATA_value 1", "BadWord(2)"),
        (b"ncols 0", "BadNumber(6)"),
        (b"\xEF\xBB\xBFncols 0", "BadNumber(6)"),
        (b"ncols 4294967296", "BadNumber(6)"),
        (b"ncols 00000000001", "BadNumber(6)"),
        (b"ncols +2", "BadNumber(6)"),
        (b"nrows 2.0", "BadNumber(6)"),
        (b"ncols nrows 2", "BadNumber(6)"),
        (b"ncols", "BadNumber(5)"),
        (b"\xEF\xBB\xBFncols", "BadNumber(5)"),
        (b"ncols  \n", "BadNumber(8)"),
        (b"cellsize 0", "BadNumber(9)"),
        (b"cellsize 0.0000004", "BadNumber(9)"),
        (b"dx 1 dy -1", "BadNumber(8)"),
        (b"xllcorner nan", "BadNumber(10)"),
        (b"yllcenter 1e10", "BadNumber(10)"),
        (b"nodata_value x", "BadNumber(13)"),
    ];
    for (bytes, want) in rows {
        assert_eq!(rt; found(rt.alloc(), bytes)?.as_str(), want);
    }
    Ok(())
}

#[test]
fn short_cells_are_read_four_at_a_time(rt: HostRuntime) -> Result<(), Fail> {
    let text = b"ncols 4 nrows 3 xllcorner 0 yllcorner 0 cellsize 1 nodata_value 22 \
                 1 22 333 4\n55 666 7 88\n999 0 -10 012 \n";
    let want = "4x3 0 0 1000000 1000000: 1000000 - 333000000 4000000 55000000 666000000 \
                7000000 88000000 999000000 0 -10000000 12000000";
    assert_eq!(rt; found(rt.alloc(), text)?.as_str(), want);
    Ok(())
}
