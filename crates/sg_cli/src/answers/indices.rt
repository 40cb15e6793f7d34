//! The commands that show reflections.

ghost use Rattle.std.specs.Prelude.{◌≤◌, ◌+◌, length};
ghost use Rattle.table_print.specs.Classes.{IsIndexText, IsBoxText};
ghost use Rattle.sg_cli.specs.declared.TheConstants.{MAX_INPUT as INPUT_LIMIT};
ghost use Rattle.sg_cli.specs.Inputs.{DataLines};
ghost use Rattle.sg_cli.specs.Answering.{Printing, OverMeasured};
ghost use Rattle.sg_cli.specs.Steps.{IsDataText, Answers, Counted};

use crate::fault::Fault;
use group_closure::Group;
use phase_rules::{Index, Pairs};
use refl_merge::{merge, print_merged, read_list};
use reflections::{BoxSize, ClassList};
use sg_io::Sink;
use std::alloc::Global;
use table_print::{print_classes, print_index};

/// Prints what the group says of one reflection.
pub fn answer_index<K: Sink>(
    group: &Group,
    index: &Index,
    pairs: Pairs,
    out: &mut K,
) -> Result<(), Fault>
    ensures answers { Answers K.seen
        (Printing (IsIndexText pairs group.now index.now)) out.old out.new result }
    ensures counted { Counted K.seen out.old out.new result }
{
    Ok(print_index(group, index, pairs, out)?)
}

/// Prints the classes of a box. All memory is taken before the first byte is written.
pub fn answer_refl<K: Sink>(
    alloc: Global,
    group: &Group,
    size: &BoxSize,
    pairs: Pairs,
    out: &mut K,
) -> Result<(), Fault>
    ensures answers { Answers K.seen
        (Printing (IsBoxText pairs group.now size.now)) out.old out.new result }
    ensures counted { Counted K.seen out.old out.new result }
{
    let mut list = ClassList::begin(alloc, group, size, pairs)?;
    Ok(print_classes(group, &mut list, out)?)
}

/// Prints the classes of the reflections that the data lines give, each with how many they are and their sum. All memory is
/// taken before the first byte is written.
pub fn answer_merge<K: Sink>(
    alloc: Global,
    group: &Group,
    pairs: Pairs,
    tail: &[u8],
    line: u32,
    out: &mut K,
) -> Result<(), Fault>
    requires tail { length tail.now ≤ INPUT_LIMIT }
    requires line { line ≤ INPUT_LIMIT + 2 }
    ensures answers { (rest : DataLines) → IsDataText rest tail.now line
        → Answers K.seen (OverMeasured pairs group.now rest) out.old out.new result }
    ensures counted { Counted K.seen out.old out.new result }
{
    let list = read_list(alloc, tail, line)?;
    let merged = merge(alloc, group, &list, pairs)?;
    Ok(print_merged(&merged, out)?)
}
