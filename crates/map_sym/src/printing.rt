ghost use Rattle.std.specs.Prelude.{◌≡◌, ◌≤◌, ◌+◌, [], List, OnOk, length};
ghost use Rattle.page_print.specs.declared.page.TheConstants.{PAGE_ROOM};
ghost use Rattle.page_print.specs.Lines.{AddsSuch};
ghost use Rattle.page_print.specs.Parts.{Is};
ghost use Rattle.page_print.specs.Printing.{Prints, GathersText};
ghost use Rattle.grid_tags.specs.declared.line.GridLine.{GridLine};
ghost use Rattle.grid_tags.specs.Walks.{IsWalk, IsOver};
ghost use Rattle.map_sym.specs.MapTexts.{sum_text, total_text, AreSumLines, IsMapText};
ghost use Rattle.map_sym.specs.declared.printing.TheConstants.{MAP_LINE};

use crate::sym_map::SymMap;
use grid_tags::{GridLine, GridOrbits};
use group_closure::Group;
use itoa::Buffer;
use page_print::{Page, make_room, put_page};
use sg_io::{Sink, SinkStop};

/// The most bytes that a line has: four numbers of at most five digits, a sum of at most twenty bytes, and behind each a blank or
/// the line feed.
const MAP_LINE: usize = 4 * (5 + 1) + 20 + 1;

/// Writes the lines of the command `map`: one for each orbit of grid points, in the order of the grid list, with the sum at its
/// point, and then the total. The walk is one of the group from which no line was taken; it stays one, and after Ok each line was
/// taken from it. It takes no memory. After an Err a prefix of the lines is written.
pub fn print_map<K: Sink>(
    group: &Group,
    orbits: &mut GridOrbits,
    map: &SymMap,
    sink: &mut K,
) -> Result<(), SinkStop>
    requires unused { IsWalk group.now orbits.old [] }
    requires size { map.now.sums.size ≡ orbits.old.size }
    ensures text { Prints K.seen (IsMapText group.now map.now) sink.old sink.new result }
    ensures walk { (taken : List GridLine) × IsWalk group.now orbits.new taken }
    ensures over { OnOk result ((taken : List GridLine)
        × IsOver group.now orbits.old orbits.new taken) }
{
    let mut page = Page::new();
    put_sums(group, orbits, map, &mut page, sink)?;
    push_total(map.total(), &mut page);
    put_page(&page, sink)
}

/// Adds the lines of all orbits to the page, which has room for one, and hands it over each time that the next one may not fit.
fn put_sums<K: Sink>(
    group: &Group,
    orbits: &mut GridOrbits,
    map: &SymMap,
    page: &mut Page,
    sink: &mut K,
) -> Result<(), SinkStop>
    requires unused { IsWalk group.now orbits.old [] }
    requires size { map.now.sums.size ≡ orbits.old.size }
    requires room { length page.old + MAP_LINE ≤ PAGE_ROOM }
    ensures gathers { GathersText K.seen (AreSumLines group.now map.now.sums)
        sink.old sink.new page.old page.new result }
    ensures room { OnOk result (length page.new + MAP_LINE ≤ PAGE_ROOM) }
    ensures walk { (taken : List GridLine) × IsWalk group.now orbits.new taken }
    ensures over { OnOk result ((taken : List GridLine)
        × IsOver group.now orbits.old orbits.new taken) }
{
    while let Some(line) = orbits.next(group) {
        let sum = map.value(line.at);
        push_sum(&line, sum, page);
        make_room(MAP_LINE, page, sink)?;
    }
    Ok(())
}

fn push_sum(line: &GridLine, sum: i64, page: &mut Page)
    requires { length page.old + MAP_LINE ≤ PAGE_ROOM }
    ensures { AddsSuch (Is (sum_text line.now sum)) page.old page.new }
{
    let [i, j, k] = line.at;
    let mut buffer = Buffer::new();
    page.push(buffer.format(i).as_bytes());
    page.push(b" ");
    page.push(buffer.format(j).as_bytes());
    page.push(b" ");
    page.push(buffer.format(k).as_bytes());
    page.push(b" ");
    page.push(buffer.format(line.size).as_bytes());
    page.push(b" ");
    page.push(buffer.format(sum).as_bytes());
    page.push(b"\n");
}

fn push_total(total: i64, page: &mut Page)
    requires { length page.old + MAP_LINE ≤ PAGE_ROOM }
    ensures { AddsSuch (Is (total_text total)) page.old page.new }
{
    page.push(b"total ");
    page.push(Buffer::new().format(total).as_bytes());
    page.push(b"\n");
}
