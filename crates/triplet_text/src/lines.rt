ghost use Rattle.std.specs.Prelude.{◌≡◌, ◌==◌, ◌↔◌, false, ◌∷◌, [], ◌++◌, ◌+◌, ◌<◌, ◌^◌, MatchOption, OnOk, IfOk, IfErr, IsTrue, length, position};
ghost use Rattle.std.specs.List.{All};
ghost use Rattle.triplet_text.specs.Bytes.{line_feed};
ghost use Rattle.triplet_text.specs.Lines.{lines_of, IsSkipped, AreRead, AddsRead, IsFaultAt, IsFaultOf};

use crate::pieces::is_blank_byte;
use crate::triplet::read_triplet;
use exact_ops::{OpList, PushFault};
use std::alloc::Global;

/// Why lines could not be read. A line is bad where it is not skipped and is no triplet, or is one whose matrix has no
/// whole inverse. A skipped line is blank, or its first byte that is no blank is `#`.
#[derive(Clone, Copy, Debug, PartialEq, Eq, Drop)]
pub enum LineFault {
    /// The first bad line, counted from 1, is no triplet.
    Unreadable(u32),
    /// The first bad line, counted from 1, is a triplet whose matrix has no whole inverse.
    NotUnimodular(u32),
    /// There is no memory for one more. The lines before it are good.
    NoMemory,
}

/// What the lines say that are not skipped, in order; or the first bad line. Each line feed ends a line; what follows the last
/// one is a line too. There are no more lines than a u32 can count.
pub fn read_lines(alloc: Global, bytes: &[u8]) -> Result<OpList, LineFault>
    requires { length bytes.now + 2 < 2 ^ 32 }
    ensures ok { IfOk result (AreRead (lines_of bytes.now)) }
    ensures fault { IfErr result (IsFaultOf (lines_of bytes.now)) }
{
    let mut list = OpList::new(alloc);
    let mut number = 1u32;
    let mut rest = Some(bytes);
    while let Some(text) = rest {
        let (line, more) = cut_line(text);
        if let Err(fault) = take_line(&mut list, number, line) {
            return Err(fault);
        }
        number += 1;
        rest = more;
    }
    Ok(list)
}

/// The first line, and what follows its line feed, where it has one.
pub fn cut_line(bytes: &[u8]) -> (&[u8], Option<&[u8]>)
    ensures whole { MatchOption result.1 (bytes.now ≡ result.0.now)
        (λ more. bytes.now ≡ result.0.now ++ line_feed ∷ more.now) }
    ensures line { All (λ byte. (byte == line_feed) ≡ false) result.0.now }
    ensures lines { MatchOption result.1 (lines_of bytes.now ≡ result.0.now ∷ [])
        (λ more. lines_of bytes.now ≡ result.0.now ∷ lines_of more.now) }
    ensures shorter { MatchOption result.1 (result.0.now ≡ bytes.now)
        (λ more. length more.now < length bytes.now) }
{
    match first_feed(bytes) {
        None => (bytes, None),
        Some(at) => (&bytes[..at], Some(&bytes[at + 1..])),
    }
}

fn first_feed(bytes: &[u8]) -> Option<usize>
    ensures { result ≡ position (λ byte. byte == line_feed) bytes.now }
{
    bytes.iter().position(|byte| *byte == b'\n')
}

/// Adds what the line of this number says.
fn take_line(list: &mut OpList, number: u32, line: &[u8]) -> Result<(), LineFault>
    ensures read { OnOk result (AddsRead (line.now ∷ []) list.old list.new) }
    ensures fault { IfErr result (IsFaultAt number line.now) }
{
    if is_skipped_line(line) {
        return Ok(());
    }
    let Some(raw) = read_triplet(line) else {
        return Err(LineFault::Unreadable(number));
    };
    match list.push(&raw) {
        Ok(()) => Ok(()),
        Err(PushFault::NotUnimodular) => Err(LineFault::NotUnimodular(number)),
        Err(PushFault::NoMemory) => Err(LineFault::NoMemory),
    }
}

/// Whether the line is blank, or its first byte that is no blank is `#`.
pub fn is_skipped_line(line: &[u8]) -> bool
    ensures { IsTrue result ↔ IsSkipped line.now }
{
    for byte in line {
        if !is_blank_byte(*byte) {
            return *byte == b'#';
        }
    }
    true
}
