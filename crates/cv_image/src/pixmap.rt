//! The portable pixmap format.

ghost use Rattle.std.specs.Prelude.{◌≡◌, ◌++◌, ◌∷◌, [], ℕ, List, IfOk, OnOk, string_bytes};
ghost use Rattle.std.specs.List.{flat_map};
ghost use Rattle.std.specs.Fmt.{decimal};
ghost use Rattle.cv_model.specs.Rasters.{ppm_of, ppm_header, pixel_bytes};

use cv_model::{NoMemory, Picture, Rgb};
use std::alloc::Global;

/// The lines in front of the pixels.
fn header(alloc: Global, width: u32, height: u32) -> Result<String, NoMemory>
    ensures { IfOk result (λ text. string_bytes text ≡ ppm_header width height) }
{
    let text = format!(in alloc; "P6\n{width} {height}\n255\n")?;
    Ok(text)
}

/// Puts the three bytes of each pixel behind the bytes.
fn push_pixels(bytes: &mut Vec<u8>, pixels: &[Rgb]) -> Result<(), NoMemory>
    ensures { OnOk result (bytes.new.items ≡ bytes.old.items ++ flat_map pixel_bytes pixels.now) }
{
    for pixel in pixels {
        bytes.extend_from_slice(&[pixel.r, pixel.g, pixel.b])?;
    }
    Ok(())
}

/// The bytes of a picture in the portable pixmap format: `P6`, the width and the height in pixels, the
/// greatest value 255, and three bytes a pixel, row by row from the top.
///
/// Source: the PPM format of the Netpbm project, its form P6.
#[tactic(auto, unfolding(cv_model::specs::Rasters::ppm_of))]
pub fn ppm(alloc: Global, picture: &Picture) -> Result<Vec<u8>, NoMemory>
    ensures { IfOk result (λ bytes. bytes.items ≡ ppm_of picture.now) }
{
    let pixels = picture.pixels().as_slice();
    let header = header(alloc, picture.width(), picture.height())?;
    let mut bytes = Vec::with_capacity(alloc, room(header.len(), pixels.len()))?;
    bytes.extend_from_slice(header.as_bytes())?;
    push_pixels(&mut bytes, pixels)?;
    Ok(bytes)
}

/// The bytes to set aside for a header and three bytes a pixel.
fn room(header: usize, pixels: usize) -> usize {
    pixels.saturating_mul(3).saturating_add(header)
}
