ghost use Rattle.std.specs.Prelude.{◌≡◌, ◌<◌, ◌==◌, ◌∷◌, [], length, IfOk, IsErrOf, MatchOption};
ghost use Rattle.std.specs.List.{All, position};
ghost use Rattle.std.specs.Str.{IsUtf8};
ghost use Rattle.std.specs.String.{string_bytes};
ghost use Rattle.sg_cli.specs.Words.{texts};
ghost use Rattle.triplet_text.specs.Bytes.{line_feed};
ghost use Rattle.triplet_text.specs.Lines.{lines_of};

use std::alloc::Global;

/// Why a text gives no list of words.
#[derive(Clone, Copy, PartialEq, Eq, Debug)]
pub enum WordsFault {
    /// A word is no UTF-8.
    NotText,
    /// There is no memory for the words.
    NoMemory,
}

/// The words of a text, which line feeds keep apart.
pub fn cut_words(alloc: Global, text: &[u8]) -> Result<Vec<String>, WordsFault>
    ensures words { IfOk result (λ words. texts words.items ≡ lines_of text.now) }
    ensures not_text { IsErrOf result WordsFault.NotText → ¬ All IsUtf8 (lines_of text.now) }
{
    let mut words = Vec::new(alloc);
    let mut rest = Some(text);
    while let Some(text) = rest {
        let (word, more) = cut_word(text);
        let word = match own_word(alloc, word) {
            Ok(word) => word,
            Err(fault) => return Err(fault),
        };
        if words.push(word).is_err() {
            return Err(WordsFault::NoMemory);
        }
        rest = more;
    }
    Ok(words)
}

/// The first word, and what follows its line feed, where it has one.
fn cut_word(text: &[u8]) -> (&[u8], Option<&[u8]>)
    ensures words { MatchOption result.1 (lines_of text.now ≡ result.0.now ∷ [])
        (λ more. lines_of text.now ≡ result.0.now ∷ lines_of more.now) }
    ensures shorter { MatchOption result.1 (result.0.now ≡ text.now)
        (λ more. length more.now < length text.now) }
{
    match first_feed(text) {
        None => (text, None),
        Some(at) => (&text[..at], Some(&text[at + 1..])),
    }
}

fn first_feed(text: &[u8]) -> Option<usize>
    ensures { result ≡ position (λ byte. byte == line_feed) text.now }
{
    text.iter().position(|byte| *byte == b'\n')
}

fn own_word(alloc: Global, word: &[u8]) -> Result<String, WordsFault>
    ensures word { IfOk result (λ own. string_bytes own ≡ word.now) }
    ensures not_text { IsErrOf result WordsFault.NotText → ¬ IsUtf8 word.now }
{
    let Ok(bytes) = Vec::from_slice(alloc, word) else {
        return Err(WordsFault::NoMemory);
    };
    match String::from_utf8(bytes) {
        Ok(own) => Ok(own),
        Err(_) => Err(WordsFault::NotText),
    }
}
