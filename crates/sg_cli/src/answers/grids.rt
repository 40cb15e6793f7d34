//! The commands that show the points of a grid.

ghost use Rattle.std.specs.Prelude.{◌≤◌, ◌+◌, length};
ghost use Rattle.sg_cli.specs.declared.TheConstants.{MAX_INPUT as INPUT_LIMIT};
ghost use Rattle.sg_cli.specs.Inputs.{DataLines};
ghost use Rattle.sg_cli.specs.Answering.{OverGrid, OverValues};
ghost use Rattle.sg_cli.specs.Steps.{IsDataText, Answers, Counted};

use crate::fault::Fault;
use grid_tags::{GridOrbits, GridSize};
use group_closure::Group;
use map_sym::{print_map, read_values, symmetrize};
use sg_io::Sink;
use std::alloc::Global;
use table_print::print_orbits;

/// Prints the orbits of a grid, where the group keeps it. All memory is taken before the first byte is written.
pub fn answer_grid<K: Sink>(
    alloc: Global,
    group: &Group,
    size: &GridSize,
    out: &mut K,
) -> Result<(), Fault>
    ensures answers { Answers K.seen (OverGrid group.now size.now) out.old out.new result }
    ensures counted { Counted K.seen out.old out.new result }
{
    let mut orbits = GridOrbits::begin(alloc, group, size)?;
    Ok(print_orbits(group, &mut orbits, out)?)
}

/// Prints the values of the data lines, summed over the orbits of a grid, where the group keeps it. All memory is taken before
/// the first byte is written.
pub fn answer_map<K: Sink>(
    alloc: Global,
    group: &Group,
    size: &GridSize,
    tail: &[u8],
    line: u32,
    out: &mut K,
) -> Result<(), Fault>
    requires tail { length tail.now ≤ INPUT_LIMIT }
    requires line { line ≤ INPUT_LIMIT + 2 }
    ensures answers { (rest : DataLines) → IsDataText rest tail.now line
        → Answers K.seen (OverValues group.now size.now rest) out.old out.new result }
    ensures counted { Counted K.seen out.old out.new result }
{
    let values = read_values(alloc, tail, line, size)?;
    let mut orbits = GridOrbits::begin(alloc, group, size)?;
    let sums = symmetrize(alloc, group, size, &values)?;
    Ok(print_map(group, &mut orbits, &sums, out)?)
}
