//! The worked examples: answers each call of the example files over streams in memory, and prints where an answer is not
//! the one that is written there. data/README.md says how an example is written.
#![tactic(auto)]

mod call;
mod example;
mod text;

use crate::call::compare;
use crate::example::{Example, read_examples};
use anyhow::Result;
use std::env;
use std::process::ExitCode;

/// How many calls there were, and how many answers were not as written.
#[derive(Drop)]
struct Tally {
    calls: u32,
    differ: u32,
}

impl Tally {
    /// Asks each call of the example over each of its inputs.
    fn add(
        &mut self,
        rt: &(impl Print + AllocGlobal),
        path: &str,
        example: &Example,
    ) -> Result<()> {
        let name = example.name.as_str();
        for words in &example.calls {
            for (place, input) in example.inputs.iter().enumerate() {
                self.calls = self.calls.saturating_add(1);
                if let Some(difference) = compare(rt.alloc(), example, words, input)? {
                    self.differ = self.differ.saturating_add(1);
                    let number = place.saturating_add(1);
                    println!(rt; "{path}: {name}: {words:?}, input {number}: {difference}")?;
                }
            }
        }
        Ok(())
    }
}

/// The words name the example files.
fn main(rt: HostRuntime) -> Result<ExitCode> {
    let mut tally = Tally {
        calls: 0,
        differ: 0,
    };
    for path in env::args(&rt)?.skip(1) {
        for example in &read_examples(&rt, path.as_str())? {
            tally.add(&rt, path.as_str(), example)?;
        }
    }
    let Tally { calls, differ } = tally;
    println!(rt; "{differ} differ")?;
    Ok(ExitCode::from(u8::from(calls == 0 || differ != 0)))
}
