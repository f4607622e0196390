//! Grids: the cells at the centres of pixels, as wide as a pixel, wider and narrower.

ghost use Rattle.std.specs.Prelude.{◌≡◌, None, IfOk};

use crate::layers::{fill, grid, piece, single};
use crate::random::{agreed, agreement, mask, next};
use cv_layer::{LayerInput, Piece, SharedLayer};
use cv_model::{NoMemory, Ramp, RampKind, Rgba, Stop, StopList};
use std::alloc::Global;
use std::test::Fail;

/// An opaque colour.
fn opaque(r: u8, g: u8, b: u8) -> Rgba {
    Rgba { r, g, b, a: 255 }
}

/// Red for 1, green for 2, blue for 3 and grey for 4.
pub fn letters(alloc: Global) -> Result<Ramp, NoMemory> {
    letters_by(alloc, RampKind::Exact)
}

/// The same, and for the numbers between them what a kind of ramp has there.
fn letters_by(alloc: Global, kind: RampKind) -> Result<Ramp, NoMemory> {
    let mut stops = StopList::new(alloc);
    stops.put(Stop {
        value: 1_000_000,
        colour: opaque(255, 0, 0),
    })?;
    stops.put(Stop {
        value: 2_000_000,
        colour: opaque(0, 255, 0),
    })?;
    stops.put(Stop {
        value: 3_000_000,
        colour: opaque(0, 0, 255),
    })?;
    stops.put(Stop {
        value: 4_000_000,
        colour: opaque(200, 200, 200),
    })?;
    Ok(Ramp::of(kind, stops))
}

/// The marks of the grid in a text, and whether both painters agree.
fn drawn(alloc: Global, text: &str, across: u16, upwards: u16) -> Result<(String, bool), Fail> {
    let own = grid(alloc, 1, text, letters(alloc)?, None)?;
    agreed(alloc, LayerInput::of(own, None, None), across, upwards)
}

#[test]
fn a_cell_of_several_pixels_colours_them_all(rt: HostRuntime) -> Result<(), Fail> {
    let text = "ncols 2 nrows 2 xllcorner 0 yllcorner 0 cellsize 2 1 2 3 4";
    let (marks, same) = drawn(rt.alloc(), text, 4, 4)?;
    assert_eq!(rt; (marks.as_str(), same), ("rrggrrggbbccbbcc", true));
    Ok(())
}

#[test]
fn around_a_grid_all_is_clear(rt: HostRuntime) -> Result<(), Fail> {
    let alloc = rt.alloc();
    let within = "ncols 2 nrows 2 xllcorner 1 yllcorner 1 cellsize 1 1 2 3 4";
    let (marks, same) = drawn(alloc, within, 4, 4)?;
    assert_eq!(rt; (marks.as_str(), same), (".....rg..bc.....", true));
    let beyond = "ncols 1 nrows 1 xllcorner 4 yllcorner 0 cellsize 4 1";
    let (marks, same) = drawn(alloc, beyond, 4, 1)?;
    assert_eq!(rt; (marks.as_str(), same), ("....", true));
    Ok(())
}

#[test]
fn a_centre_on_a_border_lies_in_the_cell_east_and_north(rt: HostRuntime) -> Result<(), Fail> {
    let text = "ncols 2 nrows 2 xllcorner 0.5 yllcorner 0.5 cellsize 1 1 2 3 4";
    let (marks, same) = drawn(rt.alloc(), text, 3, 3)?;
    assert_eq!(rt; (marks.as_str(), same), ("...rg.bc.", true));
    Ok(())
}

#[test]
fn of_narrow_cells_those_at_the_centres_count(rt: HostRuntime) -> Result<(), Fail> {
    let text =
        "ncols 4 nrows 4 xllcorner 0 yllcorner 0 cellsize 0.5 1 1 1 1 1 1 1 1 1 2 1 3 1 1 1 1";
    let (marks, same) = drawn(rt.alloc(), text, 2, 2)?;
    assert_eq!(rt; (marks.as_str(), same), ("rrgb", true));
    Ok(())
}

#[test]
fn a_cell_without_data_is_clear(rt: HostRuntime) -> Result<(), Fail> {
    let text = "ncols 3 nrows 1 xllcorner -2 yllcorner -1 cellsize 2 1 -9999 4";
    let (marks, same) = drawn(rt.alloc(), text, 4, 1)?;
    assert_eq!(rt; (marks.as_str(), same), ("..cc", true));
    Ok(())
}

/// Puts a header with a random corner and a random size of cells behind a text.
fn push_header(text: &mut String, seed: &mut u32) -> Result<(), NoMemory> {
    text.push_str("ncols 5 nrows 4 xllcorner ")?;
    text.push_str(if next(seed) < 128 { "-" } else { "" })?;
    text.push(char::from(b'0' + next(seed) % 4))?;
    text.push_str(if next(seed) < 128 { ".5" } else { ".3" })?;
    text.push_str(" yllcorner ")?;
    text.push_str(if next(seed) < 128 { "-" } else { "" })?;
    text.push(char::from(b'0' + next(seed) % 4))?;
    text.push_str(" cellsize ")?;
    text.push_str(match next(seed) % 4 {
        0 => "0.3",
        1 => "0.75",
        2 => "1",
        _ => "2.6",
    })
}

/// The text of a random grid.
fn random_text(alloc: Global, seed: &mut u32) -> Result<String, NoMemory> {
    let mut text = String::new(alloc);
    push_header(&mut text, seed)?;
    for _ in 0..20 {
        text.push(' ')?;
        text.push(char::from(b'0' + next(seed) % 5))?;
        text.push_str(if next(seed) < 128 { ".3" } else { "" })?;
    }
    Ok(text)
}

/// A random grid, coloured by a ramp of a random kind.
fn random(alloc: Global, seed: &mut u32, mask: Option<u32>) -> Result<SharedLayer, Fail>
    ensures id { IfOk result (λ made. made.core.id ≡ 1) }
    ensures mask { IfOk result (λ made. made.core.mask ≡ mask) }
    ensures join { IfOk result (λ made. made.core.join ≡ None) }
{
    let text = random_text(alloc, seed)?;
    let kind = match next(seed) % 3 {
        0 => RampKind::Exact,
        1 => RampKind::Discrete,
        _ => RampKind::Linear,
    };
    grid(alloc, 1, text.as_str(), letters_by(alloc, kind)?, mask)
}

#[test]
fn random_grids_are_painted_as_by_centres(rt: HostRuntime) -> Result<(), Fail> {
    let alloc = rt.alloc();
    let mut seed = 24;
    for _ in 0..40 {
        let own = random(alloc, &mut seed, None)?;
        let (_, same) = agreed(alloc, LayerInput::of(own, None, None), 9, 7)?;
        assert!(rt; same);
    }
    Ok(())
}

/// What is to be painted of a random grid, through a random mask layer.
fn masked(alloc: Global, seed: &mut u32) -> Result<Piece, Fail> {
    let own = random(alloc, seed, Some(3))?;
    let mask = mask(alloc, seed)?;
    piece(alloc, LayerInput::of(own, Some(mask), None), 9, 7)
}

#[test]
fn random_grids_through_masks_are_painted_as_by_centres(rt: HostRuntime) -> Result<(), Fail> {
    let alloc = rt.alloc();
    let mut seed = 26;
    for _ in 0..20 {
        let piece = masked(alloc, &mut seed)?;
        let (same, _) = agreement(alloc, &piece)?;
        assert_eq!(rt; same, 63);
    }
    Ok(())
}

const CELLS: &str = "ncols 2 nrows 2 xllcorner 0 yllcorner 0 cellsize 2 1 2 3 4";

#[test]
fn a_mask_shows_a_grid_in_its_polygons(rt: HostRuntime) -> Result<(), Fail> {
    let alloc = rt.alloc();
    let own = grid(alloc, 1, CELLS, letters(alloc)?, Some(3))?;
    let lower = "wkt\nPOLYGON((0 0,4 0,4 3,0 3))\n";
    let mask = single(alloc, 3, lower, fill(opaque(9, 9, 9)), None)?;
    let (marks, same) = agreed(alloc, LayerInput::of(own, Some(mask), None), 4, 4)?;
    assert_eq!(rt; (marks.as_str(), same), ("....rrggbbccbbcc", true));
    Ok(())
}

#[test]
fn a_grid_as_mask_shows_nothing(rt: HostRuntime) -> Result<(), Fail> {
    let alloc = rt.alloc();
    let own = grid(alloc, 1, CELLS, letters(alloc)?, Some(3))?;
    let mask = grid(alloc, 3, CELLS, letters(alloc)?, None)?;
    let (marks, same) = agreed(alloc, LayerInput::of(own, Some(mask), None), 4, 4)?;
    assert_eq!(rt; (marks.as_str(), same), ("................", true));
    Ok(())
}
