//! The answers to the commands, over the bytes of an input, and over its group.

ghost use Rattle.std.specs.Prelude.{◌≤◌, ◌+◌, length};
ghost use Rattle.sg_cli.specs.declared.TheConstants.{MAX_INPUT as INPUT_LIMIT};
ghost use Rattle.triplet_text.specs.Lines.{lines_of};
ghost use Rattle.sg_cli.specs.Words.{seen};
ghost use Rattle.sg_cli.specs.Inputs.{DataLines, input_for};
ghost use Rattle.sg_cli.specs.Answer.{OverLines, AnswerOver};
ghost use Rattle.sg_cli.specs.Steps.{AreCut, IsDataText, Answers, Counted};

mod grids;
mod indices;
mod operators;
mod rows;
mod sites;

use crate::fault::Fault;
use crate::words::{Command, Input};
use grids::{answer_grid, answer_map};
use group_closure::Group;
use indices::{answer_index, answer_merge, answer_refl};
use operators::{answer_basis, answer_recell};
use rows::{answer_fit, answer_params, answer_report, answer_sample, answer_table, answer_wyckoff};
use sg_io::Sink;
use sites::{answer_atoms, answer_site};
use std::alloc::Global;
use table_print::{print_ops, print_types};
use triplet_text::{read_lines, split};

/// Prints the answer to the command over the input, where there is one. All memory is taken before the first byte is written.
pub fn answer_input<K: Sink>(
    alloc: Global,
    command: Command,
    bytes: &[u8],
    out: &mut K,
) -> Result<(), Fault>
    requires { length bytes.now ≤ INPUT_LIMIT }
    ensures answers { Answers K.seen
        (OverLines (input_for (seen command)) (lines_of bytes.now) (AnswerOver (seen command)))
        out.old out.new result }
    ensures counted { Counted K.seen out.old out.new result }
{
    let (head, tail, line) = cut_input(command.input(), bytes);
    let list = read_lines(alloc, head)?;
    let group = Group::close(alloc, &list)?;
    answer_over(alloc, command, &group, tail, line, out)
}

/// The lines of operators, the data lines, and the number of the first of these.
fn cut_input(input: Input, bytes: &[u8]) -> (&[u8], &[u8], u32)
    requires { length bytes.now ≤ INPUT_LIMIT }
    ensures parts { AreCut input bytes.now result.0.now result.1.now result.2 }
    ensures head { length result.0.now ≤ INPUT_LIMIT }
    ensures tail { length result.1.now ≤ INPUT_LIMIT }
    ensures line { result.2 ≤ INPUT_LIMIT + 2 }
{
    match input {
        Input::OperatorsAndData => {
            let at = split(bytes);
            (&bytes[..at.head], &bytes[at.tail..], at.line)
        }
        _ => (bytes, &[], 1),
    }
}

/// Prints what the command asks of the group and the data lines, counted from `line` on. All memory is taken before the first
/// byte is written.
pub fn answer_over<K: Sink>(
    alloc: Global,
    command: Command,
    group: &Group,
    tail: &[u8],
    line: u32,
    out: &mut K,
) -> Result<(), Fault>
    requires tail { length tail.now ≤ INPUT_LIMIT }
    requires line { line ≤ INPUT_LIMIT + 2 }
    ensures answers { (rest : DataLines) → IsDataText rest tail.now line
        → Answers K.seen (AnswerOver (seen command) group.now rest) out.old out.new result }
    ensures counted { Counted K.seen out.old out.new result }
{
    match command {
        Command::Ops => Ok(print_ops(group, out)?),
        Command::Types => Ok(print_types(group, out)?),
        Command::Site(point) => answer_site(alloc, group, &point, out),
        Command::Index(index, pairs) => answer_index(group, &index, pairs, out),
        Command::Refl(size, pairs) => answer_refl(alloc, group, &size, pairs, out),
        Command::Grid(size) => answer_grid(alloc, group, &size, out),
        Command::Basis(c) => answer_basis(alloc, group, &c, out),
        Command::Recell(c) => answer_recell(alloc, group, &c, out),
        Command::Wyckoff => answer_wyckoff(alloc, group, out),
        Command::Params => answer_params(alloc, group, out),
        Command::Report => answer_report(alloc, group, out),
        Command::Fit(point) => answer_fit(alloc, group, &point, out),
        Command::Table(size, pairs) => answer_table(alloc, group, &size, pairs, out),
        Command::Sample(seed) => answer_sample(alloc, group, seed, out),
        Command::Atoms => answer_atoms(alloc, group, tail, line, out),
        Command::Merge(pairs) => answer_merge(alloc, group, pairs, tail, line, out),
        Command::Map(size) => answer_map(alloc, group, &size, tail, line, out),
    }
}
