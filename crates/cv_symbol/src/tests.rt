//! Worked texts and cells.
use crate::{ramp, symbol};
use cv_model::{
    Cell, Class, ClassList, Field, Ramp, RampKind, Range, RangeList, Rgba, Stop, StopList, Style,
    Symbol, Text,
};
use std::alloc::{AllocError, Global};
use std::test::Fail;

/// A symbol told by the red of its fill.
fn filled(red: u8) -> Symbol {
    Symbol {
        fill: Some(Rgba {
            r: red,
            g: 0,
            b: 0,
            a: 255,
        }),
        pen: None,
        marker: None,
    }
}

fn red_of(symbol: Option<&Symbol>) -> Option<u8> {
    Some(symbol?.fill?.r)
}

fn field(alloc: Global) -> Result<Field, Fail> {
    Ok(Field {
        joined: false,
        name: Text::of(alloc, "pop")?,
    })
}

/// A class from `lower` to `upper` whole units.
fn range(lower: i32, upper: i32, red: u8) -> Range {
    Range {
        lower: i64::from(lower) * 1_000_000,
        upper: i64::from(upper) * 1_000_000,
        symbol: filled(red),
    }
}

/// Classes 0 to 1000 and 1000 to 10000.
fn graduated(alloc: Global) -> Result<Style, Fail> {
    let mut classes = RangeList::new(alloc);
    for (lower, upper, red) in [(0, 1000, 1), (1000, 10_000, 2)] {
        if classes.len() < 1024 && classes.push(range(lower, upper, red)).is_err() {
            return Err(Fail::from(AllocError));
        }
    }
    Ok(Style::Graduated(field(alloc)?, classes))
}

// A bound that two classes share is the first's.
#[test]
fn a_number_takes_the_first_class_that_holds_it(rt: HostRuntime) -> Result<(), Fail> {
    let alloc = rt.alloc();
    let style = graduated(alloc)?;
    let cases = [
        ("1000", Some(1)),
        ("10000", Some(2)),
        ("0", Some(1)),
        ("10000.5", None),
        ("abc", None),
        ("1e10", None),
        ("nan", None),
        ("", None),
    ];
    for (text, want) in cases {
        let value = Text::of(alloc, text)?;
        assert_eq!(rt; red_of(symbol(&style, Some(&value))), want, "{text}");
    }
    assert_eq!(rt; red_of(symbol(&style, None)), None);
    Ok(())
}

#[test]
fn a_text_takes_the_first_equal_class_or_the_fallback(rt: HostRuntime) -> Result<(), Fail> {
    let alloc = rt.alloc();
    let mut classes = ClassList::new(alloc);
    for (value, red) in [("deep", 1), ("shallow", 2), ("deep", 3)] {
        let class = Class {
            value: Text::of(alloc, value)?,
            symbol: filled(red),
        };
        if classes.len() < 1024 {
            classes.push(class).map_err(|refused| refused.1)?;
        }
    }
    let style = Style::Categorised(field(alloc)?, classes, Some(filled(9)));
    let cases = [("deep", 1), ("shallow", 2), ("dry", 9), ("Deep", 9)];
    for (text, want) in cases {
        let value = Text::of(alloc, text)?;
        assert_eq!(rt; red_of(symbol(&style, Some(&value))), Some(want), "{text}");
    }
    assert_eq!(rt; red_of(symbol(&style, None)), Some(9));
    let single = Style::Single(filled(7));
    assert_eq!(rt; red_of(symbol(&single, None)), Some(7));
    Ok(())
}

fn opaque(r: u8, g: u8, b: u8) -> Rgba {
    Rgba { r, g, b, a: 255 }
}

const CLEAR: Rgba = Rgba {
    r: 0,
    g: 0,
    b: 0,
    a: 0,
};

// Stops 100 and 300; 200 lies half way.
#[test]
fn a_ramp_gives_worked_colours(rt: HostRuntime) -> Result<(), Fail> {
    let alloc = rt.alloc();
    let low = opaque(0x20, 0x40, 0x60);
    let high = opaque(0x60, 0xa0, 0xe0);
    let cases = [
        (
            RampKind::Linear,
            Cell::Value(200_000_000),
            opaque(64, 112, 160),
        ),
        (RampKind::Linear, Cell::Value(0), low),
        (RampKind::Linear, Cell::Value(999_000_000), high),
        (RampKind::Linear, Cell::Void, CLEAR),
        (RampKind::Exact, Cell::Value(200_000_000), CLEAR),
        (RampKind::Exact, Cell::Value(300_000_000), high),
        (RampKind::Discrete, Cell::Value(200_000_000), high),
        (RampKind::Discrete, Cell::Value(100_000_000), low),
        (RampKind::Discrete, Cell::Value(300_000_001), CLEAR),
    ];
    for (kind, cell, want) in cases {
        let mut stops = StopList::new(alloc);
        stops.put(Stop {
            value: 100_000_000,
            colour: low,
        })?;
        stops.put(Stop {
            value: 300_000_000,
            colour: high,
        })?;
        let colours = Ramp::of(kind, stops);
        assert_eq!(rt; ramp(&colours, cell), want, "{kind:?} {cell:?}");
    }
    Ok(())
}
