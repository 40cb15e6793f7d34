ghost use Rattle.std.specs.Prelude.{◌≡◌, ◌==◌, ◌≤◌, ◌<◌, length, position, IfSome, ◌+◌};
ghost use Rattle.std.specs.Option.{option_map};
ghost use Rattle.triplet_text.specs.Bytes.{is_blank};
ghost use Rattle.triplet_text.specs.Pieces.{trim_start, trim_end, trim, cut, unquoted};

pub fn is_blank_byte(byte: u8) -> bool
    ensures { result ≡ is_blank byte }
{
    byte == b' ' || byte == b'\t' || byte == b'\r'
}

pub fn without_blanks_before(text: &[u8]) -> &[u8]
    ensures text { result.now ≡ trim_start text.now }
    ensures short { length result.now ≤ length text.now }
{
    let mut rest = text;
    while let [first, more @ ..] = rest {
        if !is_blank_byte(*first) {
            break;
        }
        rest = more;
    }
    rest
}

pub fn without_blanks_after(text: &[u8]) -> &[u8]
    ensures text { result.now ≡ trim_end text.now }
    ensures short { length result.now ≤ length text.now }
{
    let mut rest = text;
    while let [more @ .., last] = rest {
        if !is_blank_byte(*last) {
            break;
        }
        rest = more;
    }
    rest
}

pub fn without_blanks(text: &[u8]) -> &[u8]
    ensures text { result.now ≡ trim text.now }
    ensures short { length result.now ≤ length text.now }
{
    without_blanks_after(without_blanks_before(text))
}

fn place_of(text: &[u8], byte: u8) -> Option<usize>
    ensures { result ≡ position (λ b. b == byte) text.now }
{
    text.iter().position(|b| *b == byte)
}

/// What stands before the first such byte, and what stands after it.
pub fn cut_at(text: &[u8], byte: u8) -> Option<(&[u8], &[u8])>
    ensures cut { option_map (λ c. (c.0.now, c.1.now)) result ≡ cut (λ b. b == byte) text.now }
    ensures short { IfSome result (λ c. length c.0.now + length c.1.now < length text.now) }
{
    match place_of(text, byte) {
        Some(at) => Some((&text[..at], &text[at + 1..])),
        None => None,
    }
}

/// Without two like quotes at its ends.
pub fn without_quotes(text: &[u8]) -> &[u8]
    ensures text { result.now ≡ unquoted text.now }
    ensures short { length result.now ≤ length text.now }
{
    match text {
        [first, inner @ .., last] if *first == *last && (*first == b'\'' || *first == b'"') =>
            inner,
        _ => text,
    }
}
