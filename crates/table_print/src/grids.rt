ghost use Rattle.std.specs.Prelude.{◌≡◌, ◌≤◌, ◌+◌, [], List, OnOk, length};
ghost use Rattle.page_print.specs.declared.page.TheConstants.{PAGE_ROOM};
ghost use Rattle.page_print.specs.Lines.{AddsSuch};
ghost use Rattle.page_print.specs.Printing.{Prints};
ghost use Rattle.grid_tags.specs.declared.line.GridLine.{GridLine};
ghost use Rattle.grid_tags.specs.Walks.{IsWalk, IsOver};
ghost use Rattle.table_print.specs.Grids.{IsOrbitText, IsGridText};
ghost use Rattle.table_print.specs.declared.grids.TheConstants.{ORBIT_LINE};

use grid_tags::{GridLine, GridOrbits};
use group_closure::Group;
use itoa::Buffer;
use page_print::{Page, make_room, put_page};
use sg_io::{Sink, SinkStop};

/// The most bytes that a line has: four numbers of at most five digits, behind each a blank or the line feed.
const ORBIT_LINE: usize = 4 * (5 + 1);

/// Writes the lines of the command `grid`: one for each orbit of grid points, in the order of the grid list. The walk is one of the
/// group from which no line was taken; it stays one, and after Ok each line was taken from it. It takes no memory. After an Err a
/// prefix of the lines is written.
pub fn print_orbits<K: Sink>(
    group: &Group,
    orbits: &mut GridOrbits,
    sink: &mut K,
) -> Result<(), SinkStop>
    requires { IsWalk group.now orbits.old [] }
    ensures text { Prints K.seen (IsGridText group.now orbits.old.size) sink.old sink.new result }
    ensures walk { (taken : List GridLine) × IsWalk group.now orbits.new taken }
    ensures over { OnOk result ((taken : List GridLine)
        × IsOver group.now orbits.old orbits.new taken) }
{
    let mut page = Page::new();
    while let Some(line) = orbits.next(group) {
        push_orbit(&line, &mut page);
        make_room(ORBIT_LINE, &mut page, sink)?;
    }
    put_page(&page, sink)
}

fn push_orbit(line: &GridLine, page: &mut Page)
    requires { length page.old + ORBIT_LINE ≤ PAGE_ROOM }
    ensures { AddsSuch (IsOrbitText line.now) page.old page.new }
{
    let [i, j, k] = line.at;
    let mut buffer = Buffer::new();
    page.push(buffer.format(i).as_bytes());
    page.push(b" ");
    page.push(buffer.format(j).as_bytes());
    page.push(b" ");
    page.push(buffer.format(k).as_bytes());
    page.push(b" ");
    page.push(buffer.format(line.size).as_bytes());
    page.push(b"\n");
}
