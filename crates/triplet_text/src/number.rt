ghost use Rattle.std.specs.Prelude.{◌≡◌, ◌+◌, ◌*◌, ◌^◌, ◌<◌, ◌≤◌, length, IfSome};
ghost use Rattle.triplet_text.specs.Bytes.{is_digit};
ghost use Rattle.triplet_text.specs.Digits.{with_digits, whole_of, has_leading_zero, denominator_of, decimal_of};

use exact_ops::UNIT;

pub fn is_digit_byte(byte: u8) -> bool
    ensures { result ≡ is_digit byte }
{
    b'0' <= byte && byte <= b'9'
}

/// The number with these digits written behind it.
pub fn digits_behind(start: u128, text: &[u8]) -> Option<u128>
    requires { (start + 1) * 10 ^ length text.now ≤ 10 ^ 38 }
    ensures value { result ≡ with_digits start text.now }
    ensures bound { IfSome result (λ n. n < (start + 1) * 10 ^ length text.now) }
{
    let mut n = start;
    for byte in text {
        if !is_digit_byte(*byte) {
            return None;
        }
        n = 10 * n + u128::from(*byte - b'0');
    }
    Some(n)
}

/// One to six digits.
pub fn whole(text: &[u8]) -> Option<u64>
    ensures value { result ≡ whole_of text.now }
    ensures bound { IfSome result (λ n. n < 10 ^ 6) }
{
    if text.is_empty() || text.len() > 6 {
        return None;
    }
    Some(digits_behind(0, text)? as u64)
}

fn starts_with_zero(text: &[u8]) -> bool
    ensures { result ≡ has_leading_zero text.now }
{
    match text {
        [first, ..] => *first == b'0',
        [] => false,
    }
}

/// A divisor of `UNIT`, written without a zero before it.
pub fn denominator(text: &[u8]) -> Option<u64>
    ensures value { result ≡ denominator_of text.now }
    ensures positive { IfSome result (λ d. 0 < d) }
{
    if starts_with_zero(text) {
        return None;
    }
    let d = whole(text)?;
    if d == 0 || u64::from(UNIT) % d != 0 {
        return None;
    }
    Some(d)
}

/// The parts of a decimal, by what stands before and after its point.
pub fn decimal(front: &[u8], back: &[u8]) -> Option<u64>
    ensures value { result ≡ decimal_of front.now back.now }
    ensures bound { IfSome result (λ n. n < 10 ^ 14) }
{
    if front.len() > 6 || back.len() > 3 || front.is_empty() && back.is_empty() {
        return None;
    }
    let n = digits_behind(0, front)?;
    let n = digits_behind(n, back)? as u64;
    let thousandths = match back.len() {
        0 => n * 1000,
        1 => n * 100,
        2 => n * 10,
        _ => n,
    };
    let parts = thousandths * u64::from(UNIT);
    if parts % 1000 != 0 {
        return None;
    }
    Some(parts / 1000)
}
