//! A call over streams in memory, and its answer beside the one that is written.

use crate::example::{Example, Part};
use anyhow::{Context, Result};
use sg_cli::run;
use sg_io::{NoFailSink, NoFailSource, read_all};
use std::alloc::Global;
use std::fmt;

/// What of the answer is not as written.
#[derive(Drop)]
pub enum Difference {
    Status(u8),
    Output,
    FaultText,
    InputRead,
}

impl fmt::Display for Difference {
    fn fmt<W: fmt::Write>(&self, f: &mut fmt::Formatter<W>) -> fmt::Result {
        match self {
            Difference::Status(status) => write!(f, "the status is {status}"),
            Difference::Output => write!(f, "standard output differs"),
            Difference::FaultText => write!(f, "standard error differs"),
            Difference::InputRead => write!(f, "the input was read"),
        }
    }
}

/// Asks the words over the input, with ample memory, and gives the first difference from what is written.
pub fn compare(
    alloc: Global,
    example: &Example,
    words: &[String],
    input: &[u8],
) -> Result<Option<Difference>> {
    let mut source = NoFailSource::new(alloc, input, 1000)
        .ok()
        .context("no memory")?;
    let mut out = NoFailSink::new(alloc, 7);
    let mut err = NoFailSink::new(alloc, 100);
    let status = run(alloc, words, &mut source, &mut out, &mut err);
    if status != example.status {
        return Ok(Some(Difference::Status(status)));
    }
    if !is_output(out.held(), &example.output) {
        return Ok(Some(Difference::Output));
    }
    if err.held() != example.told.as_slice() {
        return Ok(Some(Difference::FaultText));
    }
    if (status == 2 || reads_nothing(words)) && !is_left(alloc, &mut source, input)? {
        return Ok(Some(Difference::InputRead));
    }
    Ok(None)
}

/// Whether the words are a command that leaves the input unread.
fn reads_nothing(words: &[String]) -> bool {
    match words {
        [name, ..] => name.as_str() == "sample",
        [] => false,
    }
}

fn is_left(alloc: Global, source: &mut NoFailSource, input: &[u8]) -> Result<bool> {
    let length = u32::try_from(input.len())?;
    let left = read_all(alloc, source, length).ok().context("no memory")?;
    Ok(left.as_slice() == input)
}

/// Whether the text has these parts, one behind the other, and no more.
fn is_output(text: &[u8], parts: &[Part]) -> bool {
    let mut rest = text;
    for part in parts {
        let behind = match part {
            Part::Text(text) => rest.strip_prefix(text.as_slice()),
            Part::Lines(count) => behind_lines(rest, *count),
        };
        match behind {
            Some(behind) => rest = behind,
            None => return false,
        }
    }
    rest.is_empty()
}

/// What follows so many lines.
fn behind_lines(text: &[u8], count: usize) -> Option<&[u8]> {
    let mut rest = text;
    for _ in 0..count {
        let end = rest.iter().position(|byte| *byte == b'\n')?;
        rest = rest.get(end.saturating_add(1)..)?;
    }
    Some(rest)
}
