ghost use Rattle.std.specs.Prelude.{◌≡◌, ◌<◌, ◌≤◌, ◌+◌, ◌++◌, Some, length, slice_get};
ghost use Rattle.exact_ops.specs.declared.TheConstants.{UNIT};
ghost use Rattle.space_groups.specs.Rows as shown;
ghost use Rattle.space_groups.specs.Rows.{IsRowList};
ghost use Rattle.page_print.specs.declared.page.TheConstants.{PAGE_ROOM};
ghost use Rattle.page_print.specs.Printing.{Prints, GathersText};
ghost use Rattle.table_print.specs.Sample.{sample_heading, counted_line, AreCountedLines, IsSampleText};
ghost use Rattle.table_print.specs.declared.sample.TheConstants.{COUNTED_LINE, SAMPLE_HEADING};

use crate::rows::{SHOWN_ROW, push_row};
use group_closure::Group;
use itoa::Buffer;
use page_print::{Page, counted, make_room, put_page};
use sg_io::{Sink, SinkStop};
use wyckoff_rows::parts::Rows;

/// The most bytes that the heading has: two words, the number of the group, and a number of operators with its line feed.
const SAMPLE_HEADING: usize = 6 + 3 + 61;

/// The most bytes that the line of a row has: its numbers, a blank, a count of at most five digits, and the line feed.
const COUNTED_LINE: usize = SHOWN_ROW + 7;

/// Writes the text of the command `sample`: the number of the group and of its operators, then for each row of its table the
/// line of `wyckoff` with the count of its place behind. It takes no memory. After an Err a prefix of the text is written.
pub fn print_sample<K: Sink>(
    number: u8,
    group: &Group,
    rows: &Rows,
    counts: &[u16],
    sink: &mut K,
) -> Result<(), SinkStop>
    requires list { IsRowList UNIT group.now rows.now }
    requires all { length counts.now ≡ length rows.now }
    ensures { Prints K.seen (IsSampleText number group.now rows.now counts.now)
        sink.old sink.new result }
{
    let mut page = Page::new();
    push_heading(number, group, &mut page);
    put_counted(group, rows, counts, &mut page, sink)?;
    put_page(&page, sink)
}

fn push_heading(number: u8, group: &Group, page: &mut Page)
    requires { length page.old + SAMPLE_HEADING ≤ PAGE_ROOM }
    ensures { page.new ≡ page.old ++ sample_heading number (length group.now) }
{
    page.push(b"group ");
    page.push(Buffer::new().format(number).as_bytes());
    page.push(counted(b" operators ", usize::from(group.len())).bytes());
}

/// Adds the lines of all rows to the page, and hands it over each time that the next one may not fit.
fn put_counted<K: Sink>(
    group: &Group,
    rows: &Rows,
    counts: &[u16],
    page: &mut Page,
    sink: &mut K,
) -> Result<(), SinkStop>
    requires list { IsRowList UNIT group.now rows.now }
    requires all { length counts.now ≡ length rows.now }
    ensures { GathersText K.seen (AreCountedLines group.now rows.now counts.now)
        sink.old sink.new page.old page.new result }
{
    for k in 0..rows.len() {
        make_room(COUNTED_LINE, page, sink)?;
        push_counted(group, rows, counts, k, page);
    }
    Ok(())
}

fn push_counted(group: &Group, rows: &Rows, counts: &[u16], k: usize, page: &mut Page)
    requires list { IsRowList UNIT group.now rows.now }
    requires all { length counts.now ≡ length rows.now }
    requires within { k < length rows.now }
    requires room { length page.old + COUNTED_LINE ≤ PAGE_ROOM }
    ensures { (row : shown.Row) → slice_get rows.now k ≡ Some row
        → page.new ≡ page.old ++ counted_line (length group.now) counts.now k row }
{
    push_row(group, rows, k, page);
    page.push(b" ");
    page.push(Buffer::new().format(counts[k]).as_bytes());
    page.push(b"\n");
}
