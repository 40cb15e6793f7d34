ghost use Rattle.std.specs.Prelude.{◌≡◌, ◌↔◌, ◌≤◌, ◌+◌, ℤ, length, IsSome, IfSome};
ghost use Rattle.exact_ops.specs.declared.TheConstants.{MAX_COORDINATE as NUMERATORS};
ghost use Rattle.triplet_text.specs.Components.{Within};
ghost use Rattle.triplet_text.specs.Coordinates.{number_of, ratio_of, decimal_size_of, size_of, signed_of, IsCoordinate};

use crate::number::digits_behind;
use crate::pieces::cut_at;
use exact_ops::{MAX_COORDINATE, MAX_DENOMINATOR};

/// A coordinate has at most so many bytes.
pub const COORDINATE_LENGTH: usize = 32;

/// A coordinate has at most so many digits after its point.
pub const DECIMALS_LIMIT: usize = 6;

/// The numerator and the denominator that a coordinate is written with, such as `-7/2` or `0.25`, which is 25 over 100:
/// None exactly where the text is no coordinate. A coordinate has a sign or none before a whole number, two whole
/// numbers with a slash between them, or a decimal. It has no blanks. Its numerator is at most `MAX_COORDINATE` in
/// size, and its denominator is from 1 to `MAX_DENOMINATOR`. Both are as written, and not in lowest terms.
pub fn read_coord(text: &[u8]) -> Option<(i64, i64)>
    ensures some { IsSome result ↔ ((n : ℤ) × (d : ℤ) × IsCoordinate text.now n d) }
    ensures value { IfSome result (λ c. IsCoordinate text.now c.0 c.1) }
{
    if text.len() > COORDINATE_LENGTH {
        return None;
    }
    signed(text)
}

fn signed(text: &[u8]) -> Option<(i64, i64)>
    requires { length text.now ≤ COORDINATE_LENGTH }
    ensures { result ≡ signed_of text.now }
{
    match text {
        [sign, digits @ ..] if *sign == b'-' => {
            let (n, d) = size(digits)?;
            Some((-n, d))
        }
        [sign, digits @ ..] if *sign == b'+' => size(digits),
        _ => size(text),
    }
}

/// What stands behind the sign.
fn size(text: &[u8]) -> Option<(i64, i64)>
    requires { length text.now ≤ COORDINATE_LENGTH }
    ensures value { result ≡ size_of text.now }
    ensures small { IfSome result (λ c. Within NUMERATORS c.0) }
{
    if let Some((over, under)) = cut_at(text, b'/') {
        return ratio(number(over)?, number(under)?);
    }
    if let Some((front, back)) = cut_at(text, b'.') {
        return decimal_size(front, back);
    }
    ratio(number(text)?, 1)
}

/// One or more digits.
fn number(text: &[u8]) -> Option<u128>
    requires { length text.now ≤ COORDINATE_LENGTH }
    ensures { result ≡ number_of text.now }
{
    if text.is_empty() {
        return None;
    }
    digits_behind(0, text)
}

/// A decimal, by what stands before and after its point.
fn decimal_size(front: &[u8], back: &[u8]) -> Option<(i64, i64)>
    requires { length front.now + length back.now ≤ COORDINATE_LENGTH }
    ensures value { result ≡ decimal_size_of front.now back.now }
    ensures small { IfSome result (λ c. Within NUMERATORS c.0) }
{
    if back.len() > DECIMALS_LIMIT || front.is_empty() && back.is_empty() {
        return None;
    }
    let n = digits_behind(0, front)?;
    let n = digits_behind(n, back)?;
    ratio(n, 10u128.pow(back.len() as u32))
}

/// Two numbers that are in range.
fn ratio(n: u128, d: u128) -> Option<(i64, i64)>
    ensures value { result ≡ ratio_of n d }
    ensures small { IfSome result (λ c. Within NUMERATORS c.0) }
{
    if n > u128::from(MAX_COORDINATE) || d == 0 || d > u128::from(MAX_DENOMINATOR) {
        return None;
    }
    Some((n as i64, d as i64))
}
