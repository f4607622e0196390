//! The ranges of a project file's numbers, and the most that its strings and lists hold: one table, by which
//! a file is refused, and by which a program says what it expected.

use crate::kind::{Decimal, Whole};

/// The ids of layers.
pub const ID: Whole = Whole {
    least: 1,
    most: 4_294_967_295,
};

/// The opacity of a layer.
pub const OPACITY: Whole = Whole {
    least: 0,
    most: 255,
};

/// The width of a pen, in pixels.
pub const PEN_WIDTH: Whole = Whole { least: 1, most: 64 };

/// The size of a marker, in pixels.
pub const MARKER_SIZE: Whole = Whole {
    least: 1,
    most: 256,
};

/// A side of a canvas, in pixels.
pub const SIDE: Whole = Whole {
    least: 1,
    most: 4096,
};

/// The most pixels of a canvas.
pub const MOST_PIXELS: u64 = 2_097_152;

/// The bytes of a canvas' cache.
pub const CACHE: Whole = Whole {
    least: 0,
    most: 268_435_456,
};

/// A coordinate, the value of a cell, or a number of a text, in millionths.
pub const COORDINATE: Decimal = Decimal {
    least: -1_000_000_000_000_000,
    most: 1_000_000_000_000_000,
};

/// A bound of scales, in millionths of a map unit to a pixel.
pub const SCALE: Decimal = Decimal {
    least: 0,
    most: 1_000_000_000_000_000,
};

/// The most bytes of a name.
pub const MOST_NAME: usize = 256;

/// The most canvases of a project.
pub const MOST_CANVASES: u64 = 4;

/// The most layers of a project.
pub const MOST_LAYERS: u64 = 32;

/// The most classes of a style.
pub const MOST_CLASSES: u64 = 1024;

/// The stops of a ramp.
pub const STOPS: Whole = Whole {
    least: 1,
    most: 256,
};
