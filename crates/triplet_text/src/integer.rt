ghost use Rattle.std.specs.Prelude.{◌≤◌, ◌<◌, ◌^◌, ℕ, ℤ, IfSome, IfNone};
ghost use Rattle.triplet_text.specs.Integers.{IsNatural, IsInteger};

use crate::number::digits_behind;

/// The number that is written with one to so many digits, such as `042`. None exactly where the text is no such number.
pub fn read_natural(text: &[u8], most: usize) -> Option<u64>
    requires { most ≤ 18 }
    ensures some { IfSome result (IsNatural most text.now) }
    ensures none { IfNone result ((n : ℕ) → IsNatural most text.now n → ⊥) }
    ensures small { IfSome result (λ n. n < 10 ^ 18) }
{
    if text.is_empty() || text.len() > most {
        return None;
    }
    Some(digits_behind(0, text)? as u64)
}

/// The number that is written so with a sign before it or none. None exactly where the text is no such number.
pub fn read_integer(text: &[u8], most: usize) -> Option<i64>
    requires { most ≤ 18 }
    ensures some { IfSome result (IsInteger most text.now) }
    ensures none { IfNone result ((n : ℤ) → IsInteger most text.now n → ⊥) }
{
    match text {
        [sign, digits @ ..] if *sign == b'-' => {
            let n = read_natural(digits, most)? as i64;
            Some(-n)
        }
        [sign, digits @ ..] if *sign == b'+' => Some(read_natural(digits, most)? as i64),
        _ => Some(read_natural(text, most)? as i64),
    }
}
