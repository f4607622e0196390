//! What a project's file must have in a place. Numbers are those of the table by which a file is refused.

use cv_project::{
    CACHE, COORDINATE, Decimal, ID, MARKER_SIZE, MOST_CANVASES, MOST_CLASSES, MOST_LAYERS,
    MOST_NAME, MOST_PIXELS, OPACITY, PEN_WIDTH, SCALE, SIDE, STOPS, Whole,
};
use std::fmt;

/// What a place must have. Its text says so in words.
#[derive(Drop)]
pub enum Expected {
    /// What these words say.
    Words(&'static str),
    /// Such a number in a range.
    Whole(&'static str, Whole),
    /// A decimal in a range of millionths, whose bounds are whole, and what else is asked of it.
    Decimal(Decimal, &'static str),
    /// Such a thing, of so many of these at most.
    Most(&'static str, u64, &'static str),
    /// A list of so many stops.
    Stops(Whole),
    /// A side in a range, of a canvas of so many pixels at most.
    Side(Whole, u64),
}

impl fmt::Display for Expected {
    fn fmt<W: fmt::Write>(&self, f: &mut fmt::Formatter<W>) -> fmt::Result {
        match self {
            Expected::Words(words) => write!(f, "{words}"),
            Expected::Whole(what, range) => write!(
                f,
                "{what} from {} to {}",
                range.least, range.most
            ),
            Expected::Decimal(range, more) => {
                let (least, most) = (units(range.least), units(range.most));
                write!(f, "a decimal from {least} to {most}{more}")
            }
            Expected::Most(what, most, these) => write!(f, "{what} of at most {most} {these}"),
            Expected::Stops(range) => {
                let (least, most) = (range.least, range.most);
                write!(f, "a list of {least} to {most} stops whose values ascend")
            }
            Expected::Side(range, pixels) => {
                let (least, most) = (range.least, range.most);
                write!(
                    f,
                    "a whole number from {least} to {most}, and at most {pixels} pixels in all"
                )
            }
        }
    }
}

/// The whole units in a number of millionths.
fn units(millionths: i64) -> i64 {
    millionths / 1_000_000
}

/// A whole number in a range.
fn whole(range: Whole) -> Expected {
    Expected::Whole("a whole number", range)
}

/// A coordinate, a bound of a class or a value of a stop.
fn coordinate() -> Expected {
    Expected::Decimal(COORDINATE, "")
}

/// The name of the field at the end of a path; of a member of a list, with its brackets.
fn field_in(path: &str) -> &str {
    path.split('.').last().unwrap_or("")
}

/// What is expected at a path of a project's file: the table of docs/FORMATS.md in words.
pub fn expected_at(path: &str) -> Expected {
    let field = field_in(path);
    if path == "file" {
        return Expected::Words("at most 16777216 bytes");
    }
    if path.ends_with("source.kind") {
        return Expected::Words("text or grid");
    }
    if field.starts_with("extent[") {
        return coordinate();
    }
    if field.contains('[') {
        return Expected::Words("an object");
    }
    if path.contains(".pen.") && field == "width" {
        return whole(PEN_WIDTH);
    }
    if path.contains("].stops[") && field == "value"
        || path.contains("style.stops[") && field == "value"
    {
        return coordinate();
    }
    of_layers(field)
}

/// What is expected in a field of a layer, or else of the project and its canvases.
fn of_layers(field: &str) -> Expected {
    match field {
        "id" | "mask" | "layer" => Expected::Whole("a layer's id, a whole number", ID),
        "name" | "file" | "geometry" | "field" | "joined" | "local" | "key" => {
            Expected::Most("a string", MOST_NAME as u64, "bytes")
        }
        "source" => Expected::Words("a source of the kind text or grid"),
        "visible" => Expected::Words("true or false"),
        "opacity" => whole(OPACITY),
        "blend" => Expected::Words("the word of a blend mode"),
        "join" => Expected::Words("an object with layer, local and key"),
        "scales" => Expected::Words("an object with least, greatest or both"),
        "least" | "greatest" => Expected::Decimal(SCALE, ", the least not above the greatest"),
        "delimiter" => Expected::Words("comma, semicolon or tab"),
        _ => of_styles(field),
    }
}

/// What is expected in a field of a style.
fn of_styles(field: &str) -> Expected {
    match field {
        "style" => Expected::Words("a style: single, categorised, graduated or, for a grid, ramp"),
        "kind" => Expected::Words("single, categorised or graduated, or for a grid ramp"),
        "classes" => Expected::Most("a list", MOST_CLASSES, "classes"),
        "symbol" | "fallback" => Expected::Words("a symbol with fill, pen, marker or none"),
        "lower" | "upper" => coordinate(),
        "ramp" => Expected::Words("exact, discrete or linear"),
        "stops" => Expected::Stops(STOPS),
        "value" => Expected::Words("a string"),
        "fill" | "colour" => Expected::Words("a colour of six or eight hexadecimal digits"),
        "pen" => Expected::Words("an object with colour and width"),
        "marker" => Expected::Words("an object with shape, colour and size"),
        "shape" => Expected::Words("square, diamond or circle"),
        "size" => whole(MARKER_SIZE),
        _ => of_project(field),
    }
}

/// What is expected in a field of the project or a canvas.
fn of_project(field: &str) -> Expected {
    match field {
        "version" => Expected::Words("1 or 2"),
        "background" => Expected::Words("a colour of six hexadecimal digits"),
        "canvases" => Expected::Most("a list", MOST_CANVASES, "canvases"),
        "layers" => Expected::Most("a list", MOST_LAYERS, "layers"),
        "width" => whole(SIDE),
        "height" => Expected::Side(SIDE, MOST_PIXELS),
        "cache" => whole(CACHE),
        "extent" => Expected::Words(
            "four decimals xmin, ymin, xmax and ymax, of an area whose view is in range",
        ),
        _ => Expected::Words("an object"),
    }
}
