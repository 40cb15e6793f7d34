//! Lines of a number alone, with no blank, which is how values are mostly written: read as they are found.
ghost use Rattle.std.specs.Prelude.{IfSome};
ghost use Rattle.map_sym.specs.PlainLines.{IsDigitsLine, IsPlainLine};

use data_lines::NUMBER_DIGITS;

/// The value that the first line writes and what follows its line feed, where the line has nothing but a minus or none and at
/// most `NUMBER_DIGITS` digits. Some lines that write a value are not so.
#[inline(always)]
pub fn plain_line(text: &[u8]) -> Option<(i32, &[u8])>
    ensures { IfSome result (λ plain. IsPlainLine text.now plain.0 plain.1.now) }
{
    match text {
        [sign, digits @ ..] if *sign == b'-' => {
            let (n, rest) = digits_line(digits)?;
            Some((-(n as i32), rest))
        }
        _ => {
            let (n, rest) = digits_line(text)?;
            Some((n as i32, rest))
        }
    }
}

/// The number that the first line writes with at most `NUMBER_DIGITS` digits and nothing else, and what follows its line feed.
#[inline(always)]
fn digits_line(text: &[u8]) -> Option<(u32, &[u8])>
    ensures { IfSome result (λ cut. IsDigitsLine text.now cut.0 cut.1.now) }
{
    let mut n = 0u32;
    let mut rest = text;
    while let [byte, more @ ..] = rest {
        let taken = text.len() - rest.len();
        if *byte < b'0' || b'9' < *byte {
            if *byte != b'\n' || taken == 0 {
                return None;
            }
            return Some((n, more));
        }
        if taken == NUMBER_DIGITS {
            return None;
        }
        n = 10 * n + u32::from(*byte - b'0');
        rest = more;
    }
    None
}
