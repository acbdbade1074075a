//! Times and values as the OpenMetrics specification (1.0.0) writes them in its examples, and
//! numbers at the ends of what is read.

use decimal_text::{DecimalError, Nearest, decimal, rounded};

#[test]
fn values_are_read_in_parts(rt: HostRuntime) {
    assert_eq!(rt; decimal(b"0.67", 2), Ok(67));
    assert_eq!(rt; decimal(b"324789.3", 1), Ok(3_247_893));
    assert_eq!(rt; decimal(b"324789.300", 1), Ok(3_247_893));
    assert_eq!(rt; decimal(b"324789.3", 0), Err(DecimalError::Finer));
    assert_eq!(rt; decimal(b"1.", 1), Ok(10));
    assert_eq!(rt; decimal(b".5", 1), Ok(5));
    assert_eq!(rt; decimal(b".", 1), Err(DecimalError::Form));
    assert_eq!(rt;
        decimal(b"9223372036854775807", 0),
        Ok(9_223_372_036_854_775_807)
    );
    assert_eq!(rt;
        decimal(b"9223372036854775808", 0),
        Err(DecimalError::Large)
    );
}

// The sizes are those of Python's `round(Fraction(text) * 10**places / 10**shift)`.
fn near(size: u64) -> Result<Nearest, DecimalError> {
    Ok(Nearest { size, exact: false })
}

fn exactly(size: u64) -> Result<Nearest, DecimalError> {
    Ok(Nearest { size, exact: true })
}

#[test]
fn halves_go_to_the_even_number(rt: HostRuntime) {
    assert_eq!(rt; rounded(b"0.15", 1, 0), near(2));
    assert_eq!(rt; rounded(b"0.25", 1, 0), near(2));
    assert_eq!(rt; rounded(b"0.25000000000000000000000001", 1, 0), near(3));
    assert_eq!(rt; rounded(b"2.50", 1, 0), exactly(25));
    assert_eq!(rt; rounded(b"5", 0, 1), near(0));
    assert_eq!(rt; rounded(b"15", 0, 1), near(2));
}

#[test]
fn large_numbers_are_rounded_below_the_limit(rt: HostRuntime) {
    assert_eq!(rt;
        rounded(b"9223372036854775807.4999", 0, 0),
        near(9_223_372_036_854_775_807)
    );
    assert_eq!(rt;
        rounded(b"9223372036854775807.5", 0, 0),
        Err(DecimalError::Large)
    );
}
