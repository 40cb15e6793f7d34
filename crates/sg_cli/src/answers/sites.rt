//! The commands that show the orbits of points.

ghost use Rattle.std.specs.Prelude.{◌≤◌, ◌+◌, length};
ghost use Rattle.exact_ops.specs.Numbers.{point_in};
ghost use Rattle.sg_cli.specs.declared.TheConstants.{MAX_INPUT as INPUT_LIMIT};
ghost use Rattle.sg_cli.specs.Inputs.{DataLines};
ghost use Rattle.sg_cli.specs.Answering.{Printing, IsSiteTextFor, OverSites};
ghost use Rattle.sg_cli.specs.Steps.{IsDataText, Answers, Counted};

use crate::fault::Fault;
use atom_expand::{expand, print_atoms, read_atoms};
use exact_ops::Point;
use group_closure::Group;
use orbit_map::orbit;
use sg_io::Sink;
use site_symmetry::site;
use std::alloc::Global;
use table_print::print_site;

/// Prints the site-symmetry group of the point and its orbit. All memory is taken before the first byte is written.
pub fn answer_site<K: Sink>(
    alloc: Global,
    group: &Group,
    point: &Point,
    out: &mut K,
) -> Result<(), Fault>
    ensures answers { Answers K.seen
        (Printing (IsSiteTextFor group.now (point_in point.now))) out.old out.new result }
    ensures counted { Counted K.seen out.old out.new result }
{
    let site = site(alloc, group, point)?;
    let orbit = orbit(alloc, group, point)?;
    Ok(print_site(&site, &orbit, out)?)
}

/// Prints each site of the data lines with the points of its orbit. All memory is taken before the first byte is written.
pub fn answer_atoms<K: Sink>(
    alloc: Global,
    group: &Group,
    tail: &[u8],
    line: u32,
    out: &mut K,
) -> Result<(), Fault>
    requires tail { length tail.now ≤ INPUT_LIMIT }
    requires line { line ≤ INPUT_LIMIT + 2 }
    ensures answers { (rest : DataLines) → IsDataText rest tail.now line
        → Answers K.seen (OverSites group.now rest) out.old out.new result }
    ensures counted { Counted K.seen out.old out.new result }
{
    let atoms = read_atoms(alloc, tail, line)?;
    let expansion = expand(alloc, group, &atoms)?;
    Ok(print_atoms(&atoms, &expansion, out)?)
}
