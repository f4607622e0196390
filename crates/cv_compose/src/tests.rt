//! Worked colours and pictures, from outside.
use crate::runs::merge_run;
use crate::tables::Table;
use crate::{ComposeInput, Frame, Slot, SlotImages, SlotList, compose};
use cv_model::{Blend, NoMemory, Rgb, Rgba};
use std::alloc::Global;
use std::test::Fail;

fn grey(channel: u8, alpha: u8) -> Rgba {
    Rgba {
        r: channel,
        g: channel,
        b: channel,
        a: alpha,
    }
}

/// A pixel merged onto a colour.
fn merged(below: Rgb, pixel: Rgba, opacity: u8, mode: Blend, tables: &[Table]) -> Rgb {
    let (mut r, mut g, mut b) = ([below.r], [below.g], [below.b]);
    merge_run(&mut r, &mut g, &mut b, &[pixel], opacity, mode, tables);
    Rgb {
        r: r[0],
        g: g[0],
        b: b[0],
    }
}

fn flat(channel: u8) -> Rgb {
    Rgb {
        r: channel,
        g: channel,
        b: channel,
    }
}

fn tables(alloc: Global) -> Result<Vec<Table>, NoMemory> {
    let mut tables = Vec::new(alloc);
    tables.push(Table::of(alloc, Blend::ColorDodge)?)?;
    tables.push(Table::of(alloc, Blend::ColorBurn)?)?;
    Ok(tables)
}

// Each mode on both sides of each of its branches, by its formula and by its table: mode, backdrop, source,
// alpha, opacity, and the channel that comes out.
#[test]
fn merges_by_each_mode(rt: HostRuntime) -> Result<(), Fail> {
    let tables = tables(rt.alloc())?;
    let cases = [
        (Blend::Normal, 200, 100, 255, 255, 100),
        (Blend::Normal, 255, 0, 255, 128, 127),
        (Blend::Normal, 255, 0, 128, 255, 127),
        (Blend::Normal, 255, 0, 128, 0, 255),
        (Blend::Multiply, 200, 100, 255, 255, 78),
        (Blend::Multiply, 200, 100, 255, 128, 139),
        (Blend::Screen, 200, 100, 255, 255, 222),
        (Blend::Screen, 200, 100, 100, 100, 203),
        (Blend::Overlay, 200, 100, 255, 255, 188),
        (Blend::Overlay, 127, 100, 255, 255, 100),
        (Blend::Overlay, 128, 100, 255, 255, 101),
        (Blend::Overlay, 100, 200, 255, 255, 157),
        (Blend::Darken, 200, 100, 255, 255, 100),
        (Blend::Darken, 100, 200, 255, 255, 100),
        (Blend::Lighten, 200, 100, 255, 255, 200),
        (Blend::Lighten, 100, 200, 255, 255, 200),
        (Blend::ColorDodge, 200, 100, 255, 255, 255),
        (Blend::ColorDodge, 100, 100, 255, 255, 165),
        (Blend::ColorDodge, 0, 255, 255, 255, 0),
        (Blend::ColorDodge, 0, 100, 255, 255, 0),
        (Blend::ColorDodge, 1, 255, 255, 255, 255),
        (Blend::ColorDodge, 1, 254, 255, 255, 255),
        (Blend::ColorBurn, 200, 100, 255, 255, 115),
        (Blend::ColorBurn, 255, 0, 255, 255, 255),
        (Blend::ColorBurn, 255, 100, 255, 255, 255),
        (Blend::ColorBurn, 254, 0, 255, 255, 0),
        (Blend::ColorBurn, 254, 1, 255, 255, 0),
        (Blend::ColorBurn, 100, 200, 255, 255, 57),
        (Blend::HardLight, 200, 100, 255, 255, 157),
        (Blend::HardLight, 100, 127, 255, 255, 100),
        (Blend::HardLight, 100, 128, 255, 255, 101),
        (Blend::Difference, 200, 100, 255, 255, 100),
        (Blend::Difference, 100, 200, 255, 255, 100),
        (Blend::Exclusion, 200, 100, 255, 255, 143),
        (Blend::Addition, 200, 100, 255, 255, 255),
        (Blend::Addition, 100, 100, 255, 255, 200),
        (Blend::Addition, 200, 100, 128, 255, 250),
        (Blend::Addition, 250, 100, 255, 10, 254),
    ];
    for (mode, below, source, alpha, opacity, want) in cases {
        let pixel = grey(source, alpha);
        let plain = merged(flat(below), pixel, opacity, mode, &[]);
        let quick = merged(flat(below), pixel, opacity, mode, tables.as_slice());
        assert_eq!(rt;
            (plain, quick),
            (flat(want), flat(want)),
            "{mode:?} {below} {source}"
        );
    }
    Ok(())
}

// The source 100 over the source 200 over white.
#[test]
fn merges_two_layers(rt: HostRuntime) {
    let cases = [
        (Blend::Normal, 100),
        (Blend::Multiply, 78),
        (Blend::Screen, 222),
        (Blend::Overlay, 188),
        (Blend::Darken, 100),
        (Blend::Lighten, 200),
        (Blend::ColorDodge, 255),
        (Blend::ColorBurn, 115),
        (Blend::HardLight, 157),
        (Blend::Difference, 100),
        (Blend::Exclusion, 143),
        (Blend::Addition, 255),
    ];
    for (mode, want) in cases {
        let first = merged(flat(255), grey(200, 255), 255, Blend::Normal, &[]);
        let second = merged(first, grey(100, 255), 255, mode, &[]);
        assert_eq!(rt; second, flat(want), "{mode:?}");
    }
}

// Row by row: a colour of three channels.
#[test]
fn merges_each_channel(rt: HostRuntime) {
    let pixel = Rgba {
        r: 85,
        g: 0,
        b: 170,
        a: 192,
    };
    let want = Rgb {
        r: 127,
        g: 63,
        b: 191,
    };
    assert_eq!(rt; merged(flat(255), pixel, 255, Blend::Normal, &[]), want);
}

/// A picture of so many pixels with one slot, of this mode, that isn't there.
fn without_layer(alloc: Global, width: u32, blend: Blend) -> Result<Vec<Rgb>, NoMemory> {
    let (mut slots, mut layers) = (SlotList::new(alloc), SlotImages::new(alloc));
    slots.put(Slot {
        id: 1,
        opacity: 255,
        blend,
    })?;
    layers.put(None)?;
    let input = ComposeInput::of(Frame::of(width, 1, flat(16), slots), layers);
    let composed = compose(alloc, input)?;
    Vec::from_slice(alloc, composed.picture().pixels().as_slice())
}

#[test]
fn what_is_not_there_shows_the_background(rt: HostRuntime) -> Result<(), Fail> {
    for (width, mode) in [(2, Blend::Normal), (1025, Blend::ColorDodge)] {
        let pixels = without_layer(rt.alloc(), width, mode)?;
        assert_eq!(rt; pixels.len(), width as usize);
        for pixel in pixels.as_slice() {
            assert_eq!(rt; *pixel, flat(16));
        }
    }
    Ok(())
}
