//! The four layers of a worked project at 800 by 600 pixels, each by itself: worked pixels, and that both
//! painters agree.

ghost use Rattle.std.specs.Prelude.{◌≡◌, ◌≤◌, false, IfOk};
ghost use Rattle.cv_model.specs.ProjectFiles.{is_ramp};

use crate::layers::{fill, grid, layer, piece, single};
use crate::random::agreement;
use cv_layer::LayerInput;
use cv_model::{
    Class, ClassList, Field, Marker, NoMemory, Pen, Ramp, RampKind, Range, RangeList, Rgba,
    Sequence, Shape, Stop, StopList, Style, Symbol, Text,
};
use cv_outside::Never;
use cv_paint::paint;
use std::alloc::Global;
use std::test::Fail;

/// An opaque colour.
fn opaque(r: u8, g: u8, b: u8) -> Rgba {
    Rgba { r, g, b, a: 255 }
}

/// A pixel that nothing colours.
const CLEAR: Rgba = Rgba {
    r: 0,
    g: 0,
    b: 0,
    a: 0,
};

/// The heights: two by two cells of 400 map units, one of them without data.
const HEIGHTS: &str =
    "ncols 2\nnrows 2\nxllcorner 0\nyllcorner 0\ncellsize 400\nNODATA_value -9999\n100 200\n-9999 300\n";

const LAKES: &str = "wkt;kind\n\
    POLYGON ((100 100,300 100,300 300,100 300,100 100),\
    (150 150,250 150,250 250,150 250,150 150));deep\n\
    POLYGON ((400 100,500 100,500 200,400 100));dry\n";

const ROADS: &str = "wkt\nLINESTRING (0 450, 800 450)\n";

const TOWNS: &str = "wkt;pop\nPOINT (600 200);5000\nPoint Z (100 500 12);20000\n";

/// From 204060 at 100 to 60a0e0 at 300.
fn by_height(alloc: Global) -> Result<Ramp, NoMemory> {
    let mut stops = StopList::new(alloc);
    stops.put(Stop {
        value: 100_000_000,
        colour: opaque(0x20, 0x40, 0x60),
    })?;
    stops.put(Stop {
        value: 300_000_000,
        colour: opaque(0x60, 0xa0, 0xe0),
    })?;
    Ok(Ramp::of(RampKind::Linear, stops))
}

/// Blue for `deep`, light blue for `shallow`.
fn by_kind(alloc: Global) -> Result<Style, NoMemory>
    ensures { IfOk result (λ made. is_ramp made ≡ false) }
{
    let mut classes = Sequence::new(alloc);
    classes.put(Class {
        value: Text::of(alloc, "deep")?,
        symbol: fill(opaque(0, 0, 255)),
    })?;
    classes.put(Class {
        value: Text::of(alloc, "shallow")?,
        symbol: fill(opaque(0x80, 0xc0, 0xff)),
    })?;
    let field = Field {
        joined: false,
        name: Text::of(alloc, "kind")?,
    };
    Ok(Style::Categorised(field, ClassList::of(classes), None))
}

/// A symbol of a marker alone.
fn marker(shape: Shape, colour: Rgba, size: u8) -> Symbol
    requires { 1 ≤ size }
{
    let size = u32::from(size);
    Symbol {
        fill: None,
        pen: None,
        marker: Some(Marker {
            shape,
            colour,
            size,
        }),
    }
}

/// A small square to 1,000, a red circle to 10,000.
fn by_people(alloc: Global) -> Result<Style, NoMemory>
    ensures { IfOk result (λ made. is_ramp made ≡ false) }
{
    let mut ranges = Sequence::new(alloc);
    ranges.put(Range {
        lower: 0,
        upper: 1_000_000_000,
        symbol: marker(Shape::Square, opaque(0, 0, 0), 3),
    })?;
    ranges.put(Range {
        lower: 1_000_000_000,
        upper: 10_000_000_000,
        symbol: marker(Shape::Circle, opaque(255, 0, 0), 9),
    })?;
    let field = Field {
        joined: false,
        name: Text::of(alloc, "pop")?,
    };
    Ok(Style::Graduated(field, RangeList::of(ranges)))
}

/// A layer's pixels at four places, each by its column and its row, and how many pixels both painters give
/// alike.
fn seen(
    alloc: Global,
    input: LayerInput,
    places: [(u16, u16); 4],
) -> Result<([Option<Rgba>; 4], usize), Fail> {
    let piece = piece(alloc, input, 800, 600)?;
    let (same, _) = agreement(alloc, &piece)?;
    let painted = paint(alloc, &piece, &mut Never)?;
    let pixels = painted.image().pixels().as_slice();
    let colours = places.map(|place| {
        let (column, row) = (usize::from(place.0), usize::from(place.1));
        pixels.get(row * 800 + column).copied()
    });
    Ok((colours, same))
}

#[test]
fn heights_are_those_of_the_cells(rt: HostRuntime) -> Result<(), Fail> {
    let alloc = rt.alloc();
    let own = grid(alloc, 10, HEIGHTS, by_height(alloc)?, None)?;
    let places = [(10, 10), (500, 10), (500, 500), (200, 399)];
    let (colours, same) = seen(alloc, LayerInput::of(own, None, None), places)?;
    assert_eq!(rt; colours[0], Some(opaque(32, 64, 96)));
    assert_eq!(rt; colours[1], Some(opaque(64, 112, 160)));
    assert_eq!(rt; colours[2], Some(opaque(96, 160, 224)));
    assert_eq!(rt; (colours[3], same), (Some(CLEAR), 480_000));
    Ok(())
}

#[test]
fn a_deep_lake_has_a_hole(rt: HostRuntime) -> Result<(), Fail> {
    let alloc = rt.alloc();
    let own = layer(alloc, 20, LAKES, by_kind(alloc)?, None, None)?;
    let places = [(120, 479), (200, 399), (480, 490), (299, 300)];
    let (colours, same) = seen(alloc, LayerInput::of(own, None, None), places)?;
    assert_eq!(rt; colours[0], Some(opaque(0, 0, 255)));
    assert_eq!(rt; colours[1], Some(CLEAR));
    assert_eq!(rt; colours[2], Some(CLEAR));
    assert_eq!(rt; (colours[3], same), (Some(opaque(0, 0, 255)), 480_000));
    Ok(())
}

/// A black pen of three pixels.
fn road() -> Symbol {
    Symbol {
        fill: None,
        pen: Some(Pen {
            colour: opaque(0, 0, 0),
            width: 3,
        }),
        marker: None,
    }
}

#[test]
fn a_road_is_four_rows_wide(rt: HostRuntime) -> Result<(), Fail> {
    let alloc = rt.alloc();
    let own = single(alloc, 30, ROADS, road(), None)?;
    let places = [(10, 147), (10, 148), (10, 151), (10, 152)];
    let (colours, same) = seen(alloc, LayerInput::of(own, None, None), places)?;
    assert_eq!(rt; (colours[0], colours[3]), (Some(CLEAR), Some(CLEAR)));
    let black = Some(opaque(0, 0, 0));
    assert_eq!(rt; (colours[1], colours[2], same), (black, black, 480_000));
    Ok(())
}

#[test]
fn a_town_is_drawn_by_its_people(rt: HostRuntime) -> Result<(), Fail> {
    let alloc = rt.alloc();
    let own = layer(alloc, 40, TOWNS, by_people(alloc)?, None, None)?;
    let places = [(600, 399), (100, 99), (596, 399), (595, 399)];
    let (colours, same) = seen(alloc, LayerInput::of(own, None, None), places)?;
    let red = Some(opaque(255, 0, 0));
    assert_eq!(rt; (colours[0], colours[1]), (red, Some(CLEAR)));
    assert_eq!(rt; (colours[2], colours[3], same), (red, Some(CLEAR), 480_000));
    Ok(())
}
