ghost use Rattle.std.specs.Prelude.{◌≡◌, IfSome, ◌≤◌, ◌^◌};
ghost use Rattle.triplet_text.specs.Terms.{product_of, cells_of, fraction_of, plain_of, term_of};
ghost use Rattle.triplet_text.specs.Components.{times_letter, of_parts, IsSumOf};

use crate::component::Component;
use crate::number::{decimal, denominator, is_digit_byte, whole};
use crate::pieces::{cut_at, without_blanks_after, without_blanks_before};
use exact_ops::UNIT;

/// What a term says, without the blanks around it.
pub fn read_term(text: &[u8]) -> Option<Component>
    ensures value { result ≡ term_of text.now }
    ensures small { IfSome result (IsSumOf 1) }
{
    // Most terms are a letter alone.
    match text {
        b"x" => times(1, b'x'),
        b"y" => times(1, b'y'),
        b"z" => times(1, b'z'),
        _ => by_marks(text),
    }
}

/// By what the term has: a star, else a slash, else a point, else none of them.
fn by_marks(text: &[u8]) -> Option<Component>
    ensures value { result ≡ term_of text.now }
    ensures small { IfSome result (IsSumOf 1) }
{
    if let Some((front, back)) = cut_at(text, b'*') {
        return product(without_blanks_after(front), without_blanks_before(back));
    }
    if let Some((front, back)) = cut_at(text, b'/') {
        let parts = fraction(without_blanks_after(front), without_blanks_before(back))?;
        return Some(translation(parts));
    }
    if let Some((front, back)) = cut_at(text, b'.') {
        return Some(translation(decimal(front, back)?));
    }
    plain(text)
}

/// A digit before a star, and a letter behind it.
fn product(front: &[u8], back: &[u8]) -> Option<Component>
    ensures value { result ≡ product_of front.now back.now }
    ensures small { IfSome result (IsSumOf 1) }
{
    match (front, back) {
        ([digit], [letter]) if is_digit_byte(*digit) => times(*digit - b'0', *letter),
        _ => None,
    }
}

/// A whole number over a denominator, in parts of a cell.
fn fraction(front: &[u8], back: &[u8]) -> Option<u64>
    ensures value { result ≡ fraction_of front.now back.now }
    ensures bound { IfSome result (λ n. n ≤ 10 ^ 14) }
{
    let n = whole(front)?;
    let d = denominator(back)?;
    Some(n * (u64::from(UNIT) / d))
}

/// A letter, a digit and a letter, or a whole number of cells.
fn plain(text: &[u8]) -> Option<Component>
    ensures value { result ≡ plain_of text.now }
    ensures small { IfSome result (IsSumOf 1) }
{
    match text {
        [letter] if !is_digit_byte(*letter) => times(1, *letter),
        [digit, letter] if !is_digit_byte(*letter) => {
            if is_digit_byte(*digit) {
                times(*digit - b'0', *letter)
            } else {
                None
            }
        }
        _ => cells(text),
    }
}

fn cells(text: &[u8]) -> Option<Component>
    ensures value { result ≡ cells_of text.now }
    ensures small { IfSome result (IsSumOf 1) }
{
    let n = whole(text)?;
    Some(translation(n * u64::from(UNIT)))
}

fn translation(parts: u64) -> Component
    requires { parts ≤ 10 ^ 14 }
    ensures value { result ≡ of_parts parts }
    ensures small { IsSumOf 1 result }
{
    Component {
        parts: parts as i64,
        ..Component::NO_TERMS
    }
}

/// So many times the coordinate of this letter.
fn times(n: u8, letter: u8) -> Option<Component>
    requires { n ≤ 9 }
    ensures value { result ≡ times_letter n letter }
    ensures small { IfSome result (IsSumOf 1) }
{
    let n = i32::from(n);
    match letter {
        b'x' | b'X' => Some(Component {
            x: n,
            ..Component::NO_TERMS
        }),
        b'y' | b'Y' => Some(Component {
            y: n,
            ..Component::NO_TERMS
        }),
        b'z' | b'Z' => Some(Component {
            z: n,
            ..Component::NO_TERMS
        }),
        _ => None,
    }
}
