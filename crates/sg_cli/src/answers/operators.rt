//! The commands that show the operators of a group in other coordinates.

ghost use Rattle.sg_cli.specs.Answering.{OverBasis, OverCell};
ghost use Rattle.sg_cli.specs.Steps.{Answers, Counted};

use crate::fault::Fault;
use basis_change::cell::CellChange;
use basis_change::parts::Change;
use basis_change::{change, recell};
use group_closure::Group;
use sg_io::Sink;
use std::alloc::Global;
use table_print::print_ops;

/// Prints the operators of the group in another basis, where no entry becomes too large. All memory is taken before the
/// first byte is written.
pub fn answer_basis<K: Sink>(
    alloc: Global,
    group: &Group,
    c: &Change,
    out: &mut K,
) -> Result<(), Fault>
    ensures answers { Answers K.seen (OverBasis group.now c.now) out.old out.new result }
    ensures counted { Counted K.seen out.old out.new result }
{
    let changed = change(alloc, group, c)?;
    Ok(print_ops(&changed, out)?)
}

/// Prints the operators of the group in another cell, where there is such a group. All memory is taken before the first
/// byte is written.
pub fn answer_recell<K: Sink>(
    alloc: Global,
    group: &Group,
    c: &CellChange,
    out: &mut K,
) -> Result<(), Fault>
    ensures answers { Answers K.seen (OverCell group.now c.now) out.old out.new result }
    ensures counted { Counted K.seen out.old out.new result }
{
    let changed = recell(alloc, group, c)?;
    Ok(print_ops(&changed, out)?)
}
