//! A colour laid on a row.

ghost use Rattle.std.specs.Prelude.{◌≡◌, ◌+◌, ◌-◌, ◌<◌, ◌≤◌, length};

use crate::marks_of;
use cv_geom::Steps;
use cv_model::{Rgba, Span};
use cv_paint::lay;
use std::alloc::{AllocError, Global};
use std::marker::Brand;
use std::sync::ledger::{Blank, Ledger};
use std::test::Fail;

const CLEAR: Rgba = Rgba {
    r: 0,
    g: 0,
    b: 0,
    a: 0,
};

const RED: Rgba = Rgba {
    r: 255,
    g: 0,
    b: 0,
    a: 255,
};

const HALF_RED: Rgba = Rgba {
    r: 255,
    g: 0,
    b: 0,
    a: 128,
};

/// Lays a colour on a span of a row: a step for each pixel of the span.
fn lay_in<L: Ledger>(row: &mut [Rgba], span: Span, colour: Rgba, steps: &mut Steps<L>)
    requires order { span.from ≤ span.end }
    requires within { span.end ≤ length row.old }
    ensures length { length row.new ≡ length row.old }
    ensures cost { steps.new ≡ steps.old + (span.end - span.from) }
{
    lay(row, span, colour, steps);
}

/// The same, with a count that nobody reads.
fn lay_counted<L: Ledger>(row: &mut [Rgba], span: Span, colour: Rgba, blank: Blank)
    requires order { span.from ≤ span.end }
    requires within { span.end ≤ length row.old }
    requires name { blank.name ≡ L.name }
    requires parts { blank.parts ≡ L.parts }
    requires some { 0 < L.parts }
    ensures { length row.new ≡ length row.old }
{
    let mut steps = Steps::<L>::of(blank);
    lay_in(row, span, colour, &mut steps);
}

/// Lays a colour on the pixels of a row from one up to another.
fn lay_from(row: &mut [Rgba], from: u32, end: u32, colour: Rgba) -> Result<(), Fail>
    ensures { length row.new ≡ length row.old }
{
    if from > end || end as usize > row.len() {
        return Err(Fail::from(AllocError));
    }
    lay_counted::<Brand>(row, Span { from, end }, colour, Blank::new(1));
    Ok(())
}

#[test]
fn a_colour_is_laid_on_the_pixels_of_its_span(rt: HostRuntime) -> Result<(), Fail> {
    let mut row = [CLEAR; 5];
    lay_from(&mut row, 1, 3, RED)?;
    let red = marks_of(rt.alloc(), &row)?;
    assert_eq!(rt; red.as_str(), ".rr..");
    lay_from(&mut row, 2, 5, HALF_RED)?;
    lay_from(&mut row, 0, 0, RED)?;
    let both = marks_of(rt.alloc(), &row)?;
    assert_eq!(rt; both.as_str(), ".rrhh");
    Ok(())
}
