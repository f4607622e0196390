//! Worked colours, from outside.
use crate::{merge, over};
use cv_model::{Blend, Rgb, Rgba};

const WHITE: (u8, u8, u8) = (255, 255, 255);

fn rgb(colour: (u8, u8, u8)) -> Rgb {
    Rgb {
        r: colour.0,
        g: colour.1,
        b: colour.2,
    }
}

fn rgba(colour: (u8, u8, u8, u8)) -> Rgba {
    Rgba {
        r: colour.0,
        g: colour.1,
        b: colour.2,
        a: colour.3,
    }
}

#[test]
fn merges_worked_colours(rt: HostRuntime) {
    let cases = [
        (WHITE, (255, 0, 0, 255), 128, (255, 127, 127)),
        (WHITE, (255, 0, 0, 128), 255, (255, 127, 127)),
        ((200, 200, 200), (100, 100, 100, 255), 255, (100, 100, 100)),
        (WHITE, (85, 0, 170, 192), 255, (127, 63, 191)),
    ];
    for (backdrop, source, opacity, want) in cases {
        let colour = merge(rgb(backdrop), rgba(source), opacity, Blend::Normal);
        assert_eq!(rt; colour, rgb(want));
    }
}

// Each mode once at a backdrop of 200 and a source of 100, and on both sides of each of its branches.
#[test]
fn merges_by_each_mode(rt: HostRuntime) {
    let cases = [
        (Blend::Normal, 200, 100, 255, 255, 100),
        (Blend::Multiply, 200, 100, 255, 255, 78),
        (Blend::Screen, 200, 100, 255, 255, 222),
        (Blend::Overlay, 200, 100, 255, 255, 188),
        (Blend::Darken, 200, 100, 255, 255, 100),
        (Blend::Lighten, 200, 100, 255, 255, 200),
        (Blend::ColorDodge, 200, 100, 255, 255, 255),
        (Blend::ColorBurn, 200, 100, 255, 255, 115),
        (Blend::HardLight, 200, 100, 255, 255, 157),
        (Blend::Difference, 200, 100, 255, 255, 100),
        (Blend::Exclusion, 200, 100, 255, 255, 143),
        (Blend::Addition, 200, 100, 255, 255, 255),
        (Blend::Overlay, 127, 100, 255, 255, 100),
        (Blend::Overlay, 128, 100, 255, 255, 101),
        (Blend::Overlay, 100, 200, 255, 255, 157),
        (Blend::Darken, 100, 200, 255, 255, 100),
        (Blend::Lighten, 100, 200, 255, 255, 200),
        (Blend::ColorDodge, 100, 100, 255, 255, 165),
        (Blend::ColorDodge, 0, 255, 255, 255, 0),
        (Blend::ColorDodge, 0, 100, 255, 255, 0),
        (Blend::ColorDodge, 1, 255, 255, 255, 255),
        (Blend::ColorDodge, 1, 254, 255, 255, 255),
        (Blend::ColorBurn, 255, 0, 255, 255, 255),
        (Blend::ColorBurn, 255, 100, 255, 255, 255),
        (Blend::ColorBurn, 254, 0, 255, 255, 0),
        (Blend::ColorBurn, 254, 1, 255, 255, 0),
        (Blend::ColorBurn, 100, 200, 255, 255, 57),
        (Blend::HardLight, 100, 127, 255, 255, 100),
        (Blend::HardLight, 100, 128, 255, 255, 101),
        (Blend::Difference, 100, 200, 255, 255, 100),
        (Blend::Addition, 100, 100, 255, 255, 200),
        (Blend::Addition, 200, 100, 128, 255, 250),
        (Blend::Addition, 250, 100, 255, 10, 254),
        (Blend::Multiply, 200, 100, 255, 128, 139),
        (Blend::Screen, 200, 100, 100, 100, 203),
        (Blend::Normal, 255, 0, 128, 255, 127),
    ];
    for (mode, backdrop, source, alpha, opacity, want) in cases {
        let colour = merge(
            rgb((backdrop, 0, backdrop)),
            rgba((source, 0, source, alpha)),
            opacity,
            mode,
        );
        assert_eq!(rt;
            (colour.r, colour.b),
            (want, want),
            "{mode:?} {backdrop} {source}"
        );
    }
}

#[test]
fn lays_worked_colours(rt: HostRuntime) {
    let cases = [
        ((0, 0, 255, 128), (255, 0, 0, 128), (85, 0, 170, 192)),
        ((1, 2, 3, 0), (4, 5, 6, 0), (0, 0, 0, 0)),
    ];
    for (source, backdrop, want) in cases {
        assert_eq!(rt; over(rgba(source), rgba(backdrop)), rgba(want));
    }
}
