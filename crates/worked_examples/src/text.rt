//! The texts of an example: words, lines, and the bytes that they stand for.

use anyhow::{Context, Result, bail};
use std::alloc::Global;

/// The byte that an escape stands for, which is read behind its `\`, and what follows it.
fn escape(text: &[u8]) -> Option<(u8, &[u8])> {
    match text {
        [b'n', rest @ ..] => Some((b'\n', rest)),
        [b'r', rest @ ..] => Some((b'\r', rest)),
        [b't', rest @ ..] => Some((b'\t', rest)),
        [b'0', high, middle, low, rest @ ..] => {
            let mut byte = 0u8;
            for digit in [*high, *middle, *low] {
                byte = byte.checked_mul(8)?.checked_add(octal(digit)?)?;
            }
            Some((byte, rest))
        }
        _ => None,
    }
}

fn octal(digit: u8) -> Option<u8> {
    match digit {
        b'0'..=b'7' => Some(digit - b'0'),
        _ => None,
    }
}

/// The bytes that a text stands for.
fn unescaped(alloc: Global, text: &str) -> Result<Vec<u8>> {
    let mut bytes = Vec::new(alloc);
    let mut pieces = text.as_bytes().split(|byte| *byte == b'\\');
    if let Some(first) = pieces.next() {
        bytes.extend_from_slice(first)?;
    }
    for piece in pieces {
        let (byte, rest) = escape(piece).context("no such escape")?;
        bytes.push(byte)?;
        bytes.extend_from_slice(rest)?;
    }
    Ok(bytes)
}

/// The bytes of a line. They end with a line feed, unless the text ends with `\`.
pub fn line_of(alloc: Global, text: &str) -> Result<Vec<u8>> {
    match text.strip_suffix('\\') {
        Some(text) => unescaped(alloc, text),
        None => {
            let mut line = unescaped(alloc, text)?;
            line.push(b'\n')?;
            Ok(line)
        }
    }
}

fn word_of(alloc: Global, text: &str) -> Result<String> {
    match String::from_utf8(unescaped(alloc, text)?) {
        Ok(word) => Ok(word),
        Err(_) => bail!("a word that is no text"),
    }
}

/// The words of a call: what stands between blanks, or between apostrophes.
pub fn words_of(alloc: Global, text: &str) -> Result<Vec<String>> {
    let mut words = Vec::new(alloc);
    let mut is_quoted = false;
    for part in text.split('\'') {
        if is_quoted {
            words.push(word_of(alloc, part)?)?;
        } else {
            for word in part.split_ascii_whitespace() {
                words.push(word_of(alloc, word)?)?;
            }
        }
        is_quoted = !is_quoted;
    }
    // The last part was outside.
    if !is_quoted {
        bail!("an apostrophe without its like");
    }
    Ok(words)
}
