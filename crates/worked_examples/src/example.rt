//! An example: calls, inputs, and the one answer that they have.

use crate::text::{line_of, words_of};
use anyhow::{Context, Result, bail};
use std::fs;
use std::rt::Files;

/// A part of the expected output.
#[derive(Drop)]
pub enum Part {
    Text(Vec<u8>),
    /// So many lines, whatever they are.
    Lines(usize),
}

/// Each call over each input has this status, prints this output, and tells this fault text.
#[derive(Drop)]
pub struct Example {
    pub name: String,
    pub calls: Vec<Vec<String>>,
    pub inputs: Vec<Vec<u8>>,
    pub status: u8,
    pub output: Vec<Part>,
    pub told: Vec<u8>,
}

impl Example {
    /// An example without calls, over the empty input, which prints nothing with status 0.
    fn new<R: AllocGlobal>(rt: &R, name: &str) -> Result<Example> {
        let alloc = rt.alloc();
        let mut inputs = Vec::new(alloc);
        inputs.push(Vec::new(alloc))?;
        Ok(Example {
            name: String::from_str(alloc, name)?,
            calls: Vec::new(alloc),
            inputs,
            status: 0,
            output: Vec::new(alloc),
            told: Vec::new(alloc),
        })
    }

    /// Takes in a line of the example.
    fn take<R: Files + AllocGlobal>(&mut self, rt: &R, line: &str) -> Result<()> {
        if let Some(words) = line.strip_prefix("$ sg") {
            self.calls.push(words_of(rt.alloc(), words)?)?;
        } else if let Some(rest) = line.strip_prefix('<') {
            self.extend_input(&bytes_of(rt, '<', rest)?)?;
        } else if let Some(rest) = line.strip_prefix('|') {
            self.inputs.push(bytes_of(rt, '|', rest)?)?;
        } else if let Some(rest) = line.strip_prefix('>') {
            self.output.push(Part::Text(bytes_of(rt, '>', rest)?))?;
        } else if let Some(count) = line.strip_prefix(".. ") {
            self.output.push(Part::Lines(count.parse::<usize>()?))?;
        } else if let Some(rest) = line.strip_prefix("! ") {
            let (status, told) = rest.split_once(' ').context("no fault text")?;
            self.status = status.parse::<u8>()?;
            self.told = line_of(rt.alloc(), told)?;
        } else {
            bail!("not a line of an example");
        }
        Ok(())
    }

    fn extend_input(&mut self, bytes: &[u8]) -> Result<()> {
        if let Some(input) = self.inputs.last_mut() {
            input.extend_from_slice(bytes)?;
        }
        Ok(())
    }
}

/// The bytes that a line gives behind its mark: a line, so many equal lines, or behind a second mark those of a file.
fn bytes_of<R: Files + AllocGlobal>(rt: &R, mark: char, rest: &str) -> Result<Vec<u8>> {
    if let Some(path) = rest.strip_prefix(mark) {
        return fs::read(rt, path).context(format_args!("{path}"));
    }
    let (count, text) = rest.split_once(' ').unwrap_or((rest, ""));
    let line = line_of(rt.alloc(), text)?;
    if count.is_empty() {
        return Ok(line);
    }
    let mut lines = Vec::new(rt.alloc());
    for _ in 0..count.parse::<u32>()? {
        lines.extend_from_slice(&line)?;
    }
    Ok(lines)
}

/// The examples of a file, in order.
pub fn read_examples<R: Files + AllocGlobal>(rt: &R, path: &str) -> Result<Vec<Example>> {
    let text = fs::read_to_string(rt, path).context(format_args!("{path}"))?;
    let mut examples = Vec::new(rt.alloc());
    for (place, line) in text.lines().enumerate() {
        if line.is_empty() || line.starts_with('#') {
            continue;
        }
        if let Some(name) = line.strip_prefix("= ") {
            examples.push(Example::new(rt, name)?)?;
            continue;
        }
        let number = place.saturating_add(1);
        let Some(example) = examples.last_mut() else {
            bail!("{path}: line {number}: no example has begun");
        };
        example
            .take(rt, line)
            .context(format_args!("{path}: line {number}"))?;
    }
    if examples.iter().any(|example| example.calls.is_empty()) {
        bail!("{path}: an example without a call");
    }
    Ok(examples)
}
