ghost use Rattle.std.specs.Prelude.{◌≡◌, ◌+◌, ◌≤◌, length, IfSome, option_and_then};
ghost use Rattle.std.specs.List.{list_all};
ghost use Rattle.triplet_text.specs.declared.triplet.TheConstants.{LINE_LENGTH};
ghost use Rattle.triplet_text.specs.Bytes.{is_blank, is_sign};
ghost use Rattle.triplet_text.specs.Components.{plus, behind, IsSumOf};
ghost use Rattle.triplet_text.specs.Sums.{before_sign, behind_signs, StartsWithSign, total, sum_by, sum_of};

use crate::component::Component;
use crate::pieces::{is_blank_byte, without_blanks};
use crate::term::read_term;

/// What a sum says: its terms, added up behind their signs.
pub fn read_sum(text: &[u8]) -> Option<Component>
    requires { length text.now ≤ LINE_LENGTH }
    ensures value { result ≡ sum_of text.now }
    ensures small { IfSome result (IsSumOf (LINE_LENGTH + 1)) }
{
    let (first, mut rest) = until_sign(text);
    let mut total = first_term(first, rest)?;
    while let [sign, after @ ..] = rest {
        let (term, more) = until_sign(after);
        let value = read_term(without_blanks(term))?;
        total = added(&total, *sign, &value);
        rest = more;
    }
    Some(total)
}

/// What stands before the first sign, and the rest from that sign on.
fn until_sign(text: &[u8]) -> (&[u8], &[u8])
    ensures front { result.0.now ≡ before_sign text.now }
    ensures rest { StartsWithSign result.1.now }
    ensures signs { behind_signs result.1.now ≡ behind_signs text.now }
    ensures short { length result.1.now ≤ length text.now }
{
    for (at, byte) in text.iter().enumerate() {
        if is_sign_byte(*byte) {
            return (&text[..at], &text[at..]);
        }
    }
    (text, &[])
}

/// The term before the first sign: none is needed where a sign follows.
fn first_term(first: &[u8], rest: &[u8]) -> Option<Component>
    requires { StartsWithSign rest.now }
    ensures value { option_and_then (λ a. total a (behind_signs rest.now)) result
        ≡ sum_by first.now (behind_signs rest.now) }
    ensures small { IfSome result (IsSumOf 1) }
{
    if !rest.is_empty() && is_all_blank(first) {
        return Some(Component::NO_TERMS);
    }
    read_term(without_blanks(first))
}

/// A sum, with one more term behind its sign.
fn added(total: &Component, sign: u8, term: &Component) -> Component
    requires total { IsSumOf LINE_LENGTH total.now }
    requires term { IsSumOf 1 term.now }
    ensures { result ≡ plus total.now (behind sign term.now) }
{
    if sign == b'-' {
        Component {
            x: total.x - term.x,
            y: total.y - term.y,
            z: total.z - term.z,
            parts: total.parts - term.parts,
        }
    } else {
        Component {
            x: total.x + term.x,
            y: total.y + term.y,
            z: total.z + term.z,
            parts: total.parts + term.parts,
        }
    }
}

fn is_sign_byte(byte: u8) -> bool
    ensures { result ≡ is_sign byte }
{
    byte == b'+' || byte == b'-'
}

fn is_all_blank(text: &[u8]) -> bool
    ensures { result ≡ list_all is_blank text.now }
{
    text.iter().all(|byte| is_blank_byte(*byte))
}
