//! Worked layers: fills, pens, masks, joins and the stop.

ghost use Rattle.std.specs.Prelude.{◌≡◌, false, IfOk};
ghost use Rattle.cv_model.specs.ProjectFiles.{is_ramp};

use crate::layers::{fill, layer, pen, piece, single};
use crate::marks;
use cv_layer::LayerInput;
use cv_model::{Class, ClassList, Field, Join, NoMemory, Rgba, Sequence, Style, Symbol, Text};
use cv_outside::{Never, Stop};
use cv_paint::{PaintError, paint, plain};
use std::alloc::Global;
use std::test::Fail;

const RED: Rgba = Rgba {
    r: 255,
    g: 0,
    b: 0,
    a: 255,
};

const HALF_RED: Rgba = Rgba {
    r: 255,
    g: 0,
    b: 0,
    a: 128,
};

const GREEN: Rgba = Rgba {
    r: 0,
    g: 255,
    b: 0,
    a: 255,
};

const GREY: Rgba = Rgba {
    r: 200,
    g: 200,
    b: 200,
    a: 255,
};

/// All of a view of four by four.
const ALL: &str = "wkt;key\nPOLYGON((0 0,4 0,4 4,0 4,0 0));k\n";

/// The marks of an input's pixels, row by row from the top.
fn painted(alloc: Global, input: LayerInput, across: u16, upwards: u16) -> Result<String, Fail> {
    let piece = piece(alloc, input, across, upwards)?;
    let painted = paint(alloc, &piece, &mut Never)?;
    Ok(marks(alloc, painted.image())?)
}

/// The marks of a layer of the features in a text, drawn alike.
fn drawn(
    alloc: Global,
    text: &str,
    symbol: Symbol,
    across: u16,
    upwards: u16,
) -> Result<String, Fail> {
    let own = single(alloc, 1, text, symbol, None)?;
    painted(alloc, LayerInput::of(own, None, None), across, upwards)
}

#[test]
fn a_common_edge_is_painted_once(rt: HostRuntime) -> Result<(), Fail> {
    let text = "wkt\nPOLYGON((0 0,1.5 0,1.5 1,0 1,0 0))\nPOLYGON((1.5 0,3 0,3 1,1.5 1,1.5 0))\n";
    let marks = drawn(rt.alloc(), text, fill(HALF_RED), 3, 1)?;
    assert_eq!(rt; marks.as_str(), "hhh");
    Ok(())
}

#[test]
fn a_hole_is_left_out(rt: HostRuntime) -> Result<(), Fail> {
    let text = "wkt\nPOLYGON((0 0,4 0,4 4,0 4,0 0),(1.5 0.5,2.5 1.5,1.5 2.5,0.5 1.5,1.5 0.5))\n";
    let marks = drawn(rt.alloc(), text, fill(RED), 4, 4)?;
    assert_eq!(rt; marks.as_str(), "rrrrrrrr..rrrrrr");
    Ok(())
}

#[test]
fn overlaps_of_a_feature_are_painted_once(rt: HostRuntime) -> Result<(), Fail> {
    let text = "wkt\nMULTIPOLYGON(((0 0,2 0,2 1,0 1)),((1 0,3 0,3 1,1 1)))\n";
    let marks = drawn(rt.alloc(), text, fill(HALF_RED), 3, 1)?;
    assert_eq!(rt; marks.as_str(), "hhh");
    Ok(())
}

#[test]
fn overlaps_of_features_are_painted_twice(rt: HostRuntime) -> Result<(), Fail> {
    let text = "wkt\nPOLYGON((0 0,2 0,2 1,0 1))\nPOLYGON((1 0,3 0,3 1,1 1))\n";
    let marks = drawn(rt.alloc(), text, fill(HALF_RED), 3, 1)?;
    assert_eq!(rt; marks.as_str(), "hth");
    Ok(())
}

#[test]
fn a_pen_follows_lines(rt: HostRuntime) -> Result<(), Fail> {
    let alloc = rt.alloc();
    let through = drawn(alloc, "wkt\nLINESTRING(0.5 2,2.5 2)\n", pen(RED), 4, 4)?;
    assert_eq!(rt; through.as_str(), "....rrr.rrr.....");
    let dot = drawn(alloc, "wkt\nLINESTRING(1.5 1.5,1.5 1.5)\n", pen(RED), 4, 4)?;
    assert_eq!(rt; dot.as_str(), ".........r......");
    let corner = drawn(alloc, "wkt\nLINESTRING(1 1,1 1)\n", pen(RED), 4, 4)?;
    assert_eq!(rt; corner.as_str(), "........rr..rr..");
    Ok(())
}

/// The marks of a grey layer through a mask layer of these features.
fn masked(alloc: Global, mask: &str) -> Result<String, Fail> {
    let own = single(alloc, 1, ALL, fill(GREY), Some(3))?;
    let mask = single(alloc, 3, mask, pen(RED), None)?;
    painted(alloc, LayerInput::of(own, Some(mask), None), 4, 4)
}

#[test]
fn a_mask_shows_what_lies_in_its_polygons(rt: HostRuntime) -> Result<(), Fail> {
    let alloc = rt.alloc();
    let lower = masked(alloc, "wkt\nPOLYGON((0 0,4 0,4 2,0 2))\n")?;
    assert_eq!(rt; lower.as_str(), "........cccccccc");
    let nothing = masked(alloc, "wkt\nLINESTRING(0 0,4 4)\n")?;
    assert_eq!(rt; nothing.as_str(), "................");
    Ok(())
}

#[test]
fn a_mask_that_is_absent_shows_all(rt: HostRuntime) -> Result<(), Fail> {
    let alloc = rt.alloc();
    let own = single(alloc, 1, ALL, fill(GREY), Some(3))?;
    let marks = painted(alloc, LayerInput::of(own, None, None), 4, 4)?;
    assert_eq!(rt; marks.as_str(), "cccccccccccccccc");
    Ok(())
}

/// Red for the joined kind `red`, green for any other.
fn by_kind(alloc: Global) -> Result<Style, NoMemory>
    ensures { IfOk result (λ made. is_ramp made ≡ false) }
{
    let mut classes = Sequence::new(alloc);
    classes.put(Class {
        value: Text::of(alloc, "red")?,
        symbol: fill(RED),
    })?;
    let field = Field {
        joined: true,
        name: Text::of(alloc, "kind")?,
    };
    Ok(Style::Categorised(field, ClassList::of(classes), Some(fill(GREEN))))
}

/// A join by the key.
fn by_key(alloc: Global) -> Result<Join, NoMemory>
    ensures { IfOk result (λ made. made.layer ≡ 2) }
{
    Ok(Join {
        layer: 2,
        local: Text::of(alloc, "key")?,
        key: Text::of(alloc, "key")?,
    })
}

/// The marks of a whole feature of the key `k`, joined with these features.
fn joined(alloc: Global, there: &str) -> Result<String, Fail> {
    let own = layer(alloc, 1, ALL, by_kind(alloc)?, None, Some(by_key(alloc)?))?;
    let there = single(alloc, 2, there, fill(GREY), None)?;
    painted(alloc, LayerInput::of(own, None, Some(there)), 2, 1)
}

#[test]
fn a_joined_text_is_that_of_the_first_with_the_key(rt: HostRuntime) -> Result<(), Fail> {
    let alloc = rt.alloc();
    let first = joined(alloc, "wkt;key;kind\n;k;red\n;k;dry\n")?;
    assert_eq!(rt; first.as_str(), "rr");
    let second = joined(alloc, "wkt;key;kind\n;x;red\n;k;dry\n")?;
    assert_eq!(rt; second.as_str(), "gg");
    let absent = joined(alloc, "wkt;key;kind\n;x;red\n;y;red\n")?;
    assert_eq!(rt; absent.as_str(), "gg");
    Ok(())
}

/// A stop that says yes at its third poll, and counts its polls.
#[derive(Drop)]
struct Third {
    polls: u64,
    yeses: u64,
}

impl Stop for Third {
    ghost yeses = { λ s. s.yeses };

    fn poll(&mut self) -> bool {
        self.polls = self.polls.saturating_add(1);
        if self.polls != 3 {
            return false;
        }
        self.yeses = self.yeses.saturating_add(1);
        true
    }
}

#[test]
fn a_stop_at_the_third_poll_is_the_last_poll(rt: HostRuntime) -> Result<(), Fail> {
    let alloc = rt.alloc();
    let own = single(alloc, 1, ALL, fill(GREY), None)?;
    let piece = piece(alloc, LayerInput::of(own, None, None), 4, 4)?;
    let mut third = Third { polls: 0, yeses: 0 };
    let answer = paint(alloc, &piece, &mut third);
    let is_stopped = matches!(answer, Err(PaintError::Stopped));
    assert_eq!(rt; (is_stopped, third.polls), (true, 3));
    Ok(())
}

#[test]
fn by_centres_too_the_yes_is_the_last_poll(rt: HostRuntime) -> Result<(), Fail> {
    let alloc = rt.alloc();
    let own = single(alloc, 1, ALL, fill(GREY), None)?;
    let piece = piece(alloc, LayerInput::of(own, None, None), 4, 4)?;
    let mut third = Third { polls: 0, yeses: 0 };
    let answer = plain(alloc, &piece, &mut third);
    let is_stopped = matches!(answer, Err(PaintError::Stopped));
    assert_eq!(rt; (is_stopped, third.polls), (true, 3));
    Ok(())
}

#[test]
fn of_a_masked_layer_too_the_yes_is_the_last_poll(rt: HostRuntime) -> Result<(), Fail> {
    let alloc = rt.alloc();
    let own = single(alloc, 1, ALL, fill(GREY), Some(3))?;
    let mask = single(alloc, 3, ALL, fill(GREY), None)?;
    let piece = piece(alloc, LayerInput::of(own, Some(mask), None), 4, 4)?;
    let mut third = Third { polls: 0, yeses: 0 };
    let answer = paint(alloc, &piece, &mut third);
    let is_stopped = matches!(answer, Err(PaintError::Stopped));
    assert_eq!(rt; (is_stopped, third.polls), (true, 3));
    Ok(())
}
