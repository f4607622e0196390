//! The pieces of a decimal's written form.
ghost use Rattle.std.specs.Prelude.{◌≡◌, ◌++◌, ◌<◌, OnOk, string_bytes};
ghost use Rattle.cv_decimal.specs.Written.{places_of, written_size};

use std::alloc::AllocError;

/// Appends the digits of `rest` millionths behind the point, without trailing zeros.
fn push_places(text: &mut String, mut rest: u64) -> Result<(), AllocError>
    requires { rest < 1000000 }
    ensures { OnOk result (string_bytes text.new ≡ string_bytes text.old ++ places_of 6 rest) }
{
    let mut places = 6u32;
    while rest > 0 {
        places -= 1;
        let unit = 10u64.pow(places);
        text.push(char::from(b'0' + (rest / unit) as u8))?;
        rest %= unit;
    }
    Ok(())
}

/// The written form without a sign.
pub fn push_size(text: &mut String, millionths: u64) -> Result<(), AllocError>
    ensures { OnOk result (string_bytes text.new ≡ string_bytes text.old ++ written_size millionths) }
{
    let (whole, rest) = (millionths / 1_000_000, millionths % 1_000_000);
    write!(text, "{whole}")?;
    if rest > 0 {
        text.push('.')?;
        push_places(text, rest)?;
    }
    Ok(())
}
