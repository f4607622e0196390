//! What no clause says: worked decimals, and that a call takes no more than its text's length.
use crate::{DecimalError, Fixed, read, write};
use std::alloc::{AllocError, Global};
use std::test::Fail;

#[test]
fn reads_worked_decimals(rt: HostRuntime) {
    let cases: [(&str, Result<Fixed, DecimalError>); 18] = [
        ("1e-7", Ok(Fixed::Value(0))),
        ("-0.0000005", Ok(Fixed::Value(-1))),
        ("0.0000004999999999999999999999", Ok(Fixed::Value(0))),
        ("+1.5E2", Ok(Fixed::Value(150_000_000))),
        (".5", Ok(Fixed::Value(500_000))),
        ("5.", Ok(Fixed::Value(5_000_000))),
        ("1000000000", Ok(Fixed::Value(1_000_000_000_000_000))),
        (
            "1000000000.0000004",
            Ok(Fixed::Value(1_000_000_000_000_000)),
        ),
        ("-1000000000.0000005", Ok(Fixed::Low)),
        ("1e10", Ok(Fixed::High)),
        ("-NaN", Ok(Fixed::NotNumber)),
        ("0e999999999", Ok(Fixed::Value(0))),
        ("1e-99999999999999999999", Ok(Fixed::Value(0))),
        ("", Err(DecimalError::Empty)),
        (".", Err(DecimalError::BadByte(1))),
        ("1e", Err(DecimalError::BadByte(2))),
        ("1.2.3", Err(DecimalError::BadByte(3))),
        ("nano", Err(DecimalError::BadByte(3))),
    ];
    for (text, want) in cases {
        assert_eq!(rt; read(text.as_bytes()), want, "at {text}");
    }
}

/// `before`, a million zeros, and `behind`.
fn with_a_million_zeros(alloc: Global, before: &str, behind: &str) -> Result<Vec<u8>, AllocError> {
    let mut text = Vec::new(alloc);
    text.extend_from_slice(before.as_bytes())?;
    for _ in 0..1_000_000 {
        text.push(b'0')?;
    }
    text.extend_from_slice(behind.as_bytes())?;
    Ok(text)
}

#[test]
fn reads_long_decimals(rt: HostRuntime) -> Result<(), Fail> {
    let cases = [
        ("1", "", Fixed::High),
        ("-1", "e-1000000", Fixed::Value(-1_000_000)),
        ("0.", "1", Fixed::Value(0)),
        ("0.", "1e1000001", Fixed::Value(1_000_000)),
        ("1e", "1", Fixed::Value(10_000_000)),
    ];
    for (before, behind, want) in cases {
        let text = with_a_million_zeros(rt.alloc(), before, behind)?;
        assert_eq!(rt; read(&text), Ok(want), "at {before}..{behind}");
    }
    Ok(())
}

#[test]
fn writes_worked_decimals(rt: HostRuntime) -> Result<(), Fail> {
    let cases = [
        (0, "0"),
        (-1, "-0.000001"),
        (1_500_000, "1.5"),
        (-12_000_340, "-12.00034"),
        (1_000_000_000_000_000, "1000000000"),
        (i64::MIN, "-9223372036854.775808"),
    ];
    for (millionths, want) in cases {
        assert_eq!(rt; write(rt.alloc(), millionths)?.as_str(), want);
    }
    Ok(())
}
