ghost use Rattle.std.specs.Prelude.{◌≡◌, ◌≢◌, [], ◌∷◌, MatchOption, IfSome, IfNone, length, position};
ghost use Rattle.triplet_text.specs.Bytes.{is_blank};
ghost use Rattle.data_lines.specs.Fields.{fields_of};

use triplet_text::{is_blank_byte, without_blanks_before};

/// The only field of the line. None exactly where the line has not one field.
pub fn one_field(line: &[u8]) -> Option<&[u8]>
    ensures some { IfSome result (λ field. fields_of line.now ≡ field.now ∷ []) }
    ensures none { IfNone result (length (fields_of line.now) ≢ 1) }
{
    let (field, rest) = cut_field(line)?;
    if cut_field(rest).is_some() {
        return None;
    }
    Some(field)
}

/// The four fields of the line. None exactly where the line has not four fields.
pub fn four_fields(line: &[u8]) -> Option<(&[u8], &[u8], &[u8], &[u8])>
    ensures some { IfSome result (λ f. fields_of line.now
        ≡ f.0.now ∷ f.1.now ∷ f.2.now ∷ f.3.now ∷ []) }
    ensures none { IfNone result (length (fields_of line.now) ≢ 4) }
{
    let (first, rest) = cut_field(line)?;
    let (second, rest) = cut_field(rest)?;
    let (third, rest) = cut_field(rest)?;
    let fourth = one_field(rest)?;
    Some((first, second, third, fourth))
}

/// The first field of the text, and what follows it.
fn cut_field(text: &[u8]) -> Option<(&[u8], &[u8])>
    ensures { MatchOption result (fields_of text.now ≡ [])
        (λ cut. fields_of text.now ≡ cut.0.now ∷ fields_of cut.1.now) }
{
    let text = without_blanks_before(text);
    if text.is_empty() {
        return None;
    }
    match first_blank(text) {
        None => Some((text, &text[text.len()..])),
        Some(at) => Some((&text[..at], &text[at + 1..])),
    }
}

fn first_blank(text: &[u8]) -> Option<usize>
    ensures { result ≡ position (λ byte. is_blank byte) text.now }
{
    text.iter().position(|byte| is_blank_byte(*byte))
}
