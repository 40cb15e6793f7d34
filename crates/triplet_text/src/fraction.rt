ghost use Rattle.std.specs.Prelude.{◌≡◌, ℕ, ◌+◌, pos, ◌<ℤ◌, ◌<◌, ◌≤◌, ◌^◌, length};
ghost use Rattle.triplet_text.specs.Fractions.{quotient_text, fraction_text, frac_text};

use crate::text::Text;
use exact_ops::greatest_common_divisor;
use itoa::Buffer;

/// The fraction n/d in lowest terms: `-` before a negative one, and a whole number where the denominator becomes 1.
pub fn print_frac(n: i128, d: i128) -> Text
    requires { pos 0 <ℤ d }
    ensures { result ≡ frac_text n d }
{
    let size = lowest_terms(n.unsigned_abs(), d.unsigned_abs());
    if n >= 0 {
        return size;
    }
    let mut text = Text::new();
    text.push(b"-");
    text.push(size.bytes());
    text
}

/// n over d in lowest terms.
pub fn lowest_terms(n: u128, d: u128) -> Text
    requires { 0 < d }
    ensures text { result ≡ fraction_text n d }
    ensures short { length result ≤ 81 }
    ensures small { (k l : ℕ) → 0 < k → 0 < l
        → n < 10 ^ k → d < 10 ^ l → length result ≤ k + 1 + l }
{
    let g = greatest_common_divisor(n, d);
    quotient(n / g, d / g)
}

fn quotient(p: u128, q: u128) -> Text
    ensures text { result ≡ quotient_text p q }
    ensures short { length result ≤ 81 }
{
    let mut buffer = Buffer::new();
    let mut text = Text::new();
    text.push(buffer.format(p).as_bytes());
    if q != 1 {
        text.push(b"/");
        text.push(buffer.format(q).as_bytes());
    }
    text
}
