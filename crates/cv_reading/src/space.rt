//! White space, the same in every format of text.

ghost use Rattle.std.specs.Prelude.{◌≡◌};
ghost use Rattle.cv_reading.specs.Space.{is_space};

/// Whether a byte is a space, a tab, a carriage return or a line feed.
///
/// Source: the white space of RFC 8259, section 2.
#[inline]
pub fn is_space(byte: u8) -> bool
    ensures { result ≡ is_space byte }
{
    byte == b' ' || byte == b'\t' || byte == b'\r' || byte == b'\n'
}
