//! Worked layers, painted: what the tests of layers share, and these tests.
//!
//! Contract: none; what it makes is looked at in tests alone, and no other code stands on it. Definitions:
//! none. Takes memory for what it makes. No handles.
#![tactic(auto)]

use cv_model::{Image, NoMemory, Rgba};
use std::alloc::Global;

#[cfg(test)]
mod graduated;
#[cfg(test)]
mod grids;
#[cfg(test)]
mod joins;
#[cfg(test)]
mod laid;
#[cfg(test)]
mod layers;
#[cfg(test)]
mod random;
#[cfg(test)]
mod real;
#[cfg(test)]
mod sides;
#[cfg(test)]
mod stops;
#[cfg(test)]
mod strips;
#[cfg(test)]
mod tests;

/// What stands for a pixel: `.` for a clear one, a letter for an opaque one of red, green, blue or grey, `h`
/// for one of half the alpha, `t` for three quarters.
pub fn mark(pixel: Rgba) -> char {
    match (pixel.r, pixel.g, pixel.b, pixel.a) {
        (_, _, _, 0) => '.',
        (_, _, _, 128) => 'h',
        (_, _, _, 192) => 't',
        (255, 0, 0, 255) => 'r',
        (0, 255, 0, 255) => 'g',
        (0, 0, 255, 255) => 'b',
        (200, 200, 200, 255) => 'c',
        _ => '?',
    }
}

/// The marks of an image's pixels, row by row from the top.
pub fn marks(alloc: Global, image: &Image) -> Result<String, NoMemory> {
    marks_of(alloc, image.pixels().as_slice())
}

/// The marks of these pixels.
pub fn marks_of(alloc: Global, pixels: &[Rgba]) -> Result<String, NoMemory> {
    let mut marks = String::new(alloc);
    for pixel in pixels {
        marks.push(mark(*pixel))?;
    }
    Ok(marks)
}
