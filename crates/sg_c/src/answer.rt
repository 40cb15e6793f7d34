ghost use Rattle.std.specs.Prelude.{◌≡◌, ◌≢◌, ◌⊎◌, length};
ghost use Rattle.std.specs.List.{All};
ghost use Rattle.std.specs.Str.{IsUtf8};
ghost use Rattle.sg_cli.specs.Run.{HasStatus};
ghost use Rattle.sg_cli.specs.Words.{texts};
ghost use Rattle.triplet_text.specs.Lines.{lines_of};
ghost use Rattle.sg_c.specs.Texts.{Shows, IsGivenText, IsGivenFault};

use crate::slice_source::SliceSource;
use crate::text_sink::TextSink;
use crate::words::{WordsFault, cut_words};
use sg_cli::{Fault, run};
use sg_io::NoFailSink;
use std::alloc::Global;

/// The status of words that are no UTF-8, which is also that of the program.
const NOT_TEXT: u8 = 1;

/// How many bytes the text of an answer has, and how many the text of its fault.
#[repr(C)]
#[derive(Clone, Copy)]
pub struct Lengths {
    pub text: usize,
    pub fault: usize,
}

/// Answers the words, which line feeds keep apart, over the input, and gives the status. Of the text of the answer, and of that
/// of a fault, as much as has room is put into the buffer for it.
#[unsafe(no_mangle)]
pub extern "C" fn sg_answer(
    alloc: Global,
    words: &[u8],
    input: &[u8],
    text: &mut [u8],
    fault: &mut [u8],
    lengths: &mut Lengths,
) -> u8
    ensures not_text { result ≡ 1 → All IsUtf8 (lines_of words.now) → ⊥ }
    ensures unfailed { (result ≢ 3) × (result ≢ 4) }

    // The status is that of the answer, or memory is wanted.
    ensures status { result ≢ 1 → result ≢ 9
        → HasStatus (lines_of words.now) input.now result }

    ensures text { result ≡ 0 → IsGivenText (lines_of words.now) input.now
        lengths.new.text text.old text.new }
    ensures text_none { result ≢ 0 → (lengths.new.text ≡ 0) × (text.new ≡ text.old) }

    ensures fault_text { result ≢ 0 → result ≢ 1
        → IsGivenFault (lines_of words.now) input.now result
        lengths.new.fault fault.old fault.new }
    ensures fault_none { (result ≡ 0) ⊎ (result ≡ 1)
        → (lengths.new.fault ≡ 0) × (fault.new ≡ fault.old) }
{
    match cut_words(alloc, words) {
        Ok(words) => give_answer(alloc, &words, input, text, fault, lengths),
        Err(WordsFault::NotText) => {
            *lengths = Lengths { text: 0, fault: 0 };
            NOT_TEXT
        }
        Err(WordsFault::NoMemory) => {
            let told = Fault::NoMemory.text();
            *lengths = Lengths {
                text: 0,
                fault: put_front(told.bytes(), fault),
            };
            Fault::NoMemory.status()
        }
    }
}

fn give_answer(
    alloc: Global,
    words: &[String],
    input: &[u8],
    text: &mut [u8],
    fault: &mut [u8],
    lengths: &mut Lengths,
) -> u8
    ensures not_text { result ≢ 1 }
    ensures unfailed { (result ≢ 3) × (result ≢ 4) }
    ensures status { result ≢ 9 → HasStatus (texts words.now) input.now result }
    ensures text { result ≡ 0 → IsGivenText (texts words.now) input.now
        lengths.new.text text.old text.new }
    ensures text_none { result ≢ 0 → (lengths.new.text ≡ 0) × (text.new ≡ text.old) }
    ensures fault_text { result ≢ 0 → IsGivenFault (texts words.now) input.now result
        lengths.new.fault fault.old fault.new }
    ensures fault_none { result ≡ 0 → (lengths.new.fault ≡ 0) × (fault.new ≡ fault.old) }
{
    let mut source = SliceSource::new(input);
    let mut out = NoFailSink::new(alloc, u32::MAX);
    let mut err = TextSink::new();
    let status = run(alloc, words, &mut source, &mut out, &mut err);
    *lengths = if status == 0 {
        Lengths {
            text: put_front(out.held(), text),
            fault: 0,
        }
    } else {
        Lengths {
            text: 0,
            fault: put_front(err.held(), fault),
        }
    };
    status
}

/// Puts the text to the front of the buffer, or as much of it as has room, and says how long it is.
fn put_front(text: &[u8], buf: &mut [u8]) -> usize
    ensures shown { Shows text.now buf.old buf.new }
    ensures count { result ≡ length text.now }
{
    let count = text.len().min(buf.len());
    buf[..count].copy_from_slice(&text[..count]);
    text.len()
}
