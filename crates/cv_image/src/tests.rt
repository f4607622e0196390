//! Worked files, each byte by hand from the format.
use crate::ppm;
use cv_model::{Picture, Rgb, RgbList};
use std::test::Fail;

const PINK: Rgb = Rgb {
    r: 255,
    g: 127,
    b: 127,
};

const DIM: Rgb = Rgb { r: 1, g: 10, b: 0 };

#[test]
fn one_pixel(rt: HostRuntime) -> Result<(), Fail> {
    let alloc = rt.alloc();
    let mut pixels = RgbList::new(alloc);
    pixels.put(DIM)?;
    let bytes = ppm(alloc, &Picture::of(1, 1, pixels))?;
    assert_eq!(rt; bytes.as_slice(), b"P6\n1 1\n255\n\x01\x0a\x00".as_slice());
    Ok(())
}

#[test]
fn two_pixels_beside_each_other(rt: HostRuntime) -> Result<(), Fail> {
    let alloc = rt.alloc();
    let mut pixels = RgbList::new(alloc);
    pixels.put(PINK)?;
    pixels.put(DIM)?;
    let bytes = ppm(alloc, &Picture::of(2, 1, pixels))?;
    assert_eq!(rt;
        bytes.as_slice(),
        b"P6\n2 1\n255\n\xff\x7f\x7f\x01\x0a\x00".as_slice()
    );
    Ok(())
}
