ghost use Rattle.std.specs.Prelude.{◌≡◌, ◌<◌, ◌≤◌, ◌+◌, ◌++◌, Some, length, slice_get};
ghost use Rattle.exact_ops.specs.declared.TheConstants.{UNIT};
ghost use Rattle.space_groups.specs.Rows as shown;
ghost use Rattle.space_groups.specs.Rows.{IsRowList};
ghost use Rattle.triplet_text.specs.Printing.{affine_text, IsPrintable};
ghost use Rattle.page_print.specs.declared.page.TheConstants.{PAGE_ROOM};
ghost use Rattle.page_print.specs.Printing.{Prints, GathersText};
ghost use Rattle.table_print.specs.Rows.{numbers_of_key, shown_row, row_line, IsRowsText, IsRowText};
ghost use Rattle.table_print.specs.declared.rows.TheConstants.{SHOWN_ROW, ROW_LINE};

use affine_sets::parts::Key;
use group_closure::Group;
use itoa::Buffer;
use page_print::{Page, make_room, put_page};
use sg_io::{Sink, SinkStop};
use triplet_text::{TEXT_ROOM, Text, print_affine};
use wyckoff_rows::parts::Rows;

/// The most bytes that the numbers of a row have: a place and a number of points of at most twenty digits each, two blanks, and
/// an affine map.
pub const SHOWN_ROW: usize = 20 + 20 + 2 + TEXT_ROOM;

/// The most bytes that the line of a row has.
const ROW_LINE: usize = SHOWN_ROW + 1;

/// Writes the lines of the command `wyckoff`: one for each row of the table of the group, in their order. It takes no memory.
/// After an Err a prefix of the lines is written.
pub fn print_rows<K: Sink>(group: &Group, rows: &Rows, sink: &mut K) -> Result<(), SinkStop>
    requires { IsRowList UNIT group.now rows.now }
    ensures { Prints K.seen (IsRowsText group.now rows.now) sink.old sink.new result }
{
    let mut page = Page::new();
    put_rows(group, rows, &mut page, sink)?;
    put_page(&page, sink)
}

/// Writes the line of the row at place k, counted from 0. It takes no memory. After an Err a prefix of the line is written.
pub fn print_row<K: Sink>(
    group: &Group,
    rows: &Rows,
    k: usize,
    sink: &mut K,
) -> Result<(), SinkStop>
    requires list { IsRowList UNIT group.now rows.now }
    requires within { k < length rows.now }
    ensures { Prints K.seen (IsRowText group.now rows.now k) sink.old sink.new result }
{
    let mut page = Page::new();
    push_line(group, rows, k, &mut page);
    put_page(&page, sink)
}

/// Adds the lines of all rows to the page, and hands it over each time that the next one may not fit.
pub fn put_rows<K: Sink>(
    group: &Group,
    rows: &Rows,
    page: &mut Page,
    sink: &mut K,
) -> Result<(), SinkStop>
    requires { IsRowList UNIT group.now rows.now }
    ensures { GathersText K.seen (IsRowsText group.now rows.now)
        sink.old sink.new page.old page.new result }
{
    for k in 0..rows.len() {
        make_room(ROW_LINE, page, sink)?;
        push_line(group, rows, k, page);
    }
    Ok(())
}

fn push_line(group: &Group, rows: &Rows, k: usize, page: &mut Page)
    requires list { IsRowList UNIT group.now rows.now }
    requires within { k < length rows.now }
    requires room { length page.old + ROW_LINE ≤ PAGE_ROOM }
    ensures { (row : shown.Row) → slice_get rows.now k ≡ Some row
        → page.new ≡ page.old ++ row_line (length group.now) k row }
{
    push_row(group, rows, k, page);
    page.push(b"\n");
}

/// Adds the numbers of the row at place k, counted from 0.
pub fn push_row(group: &Group, rows: &Rows, k: usize, page: &mut Page)
    requires list { IsRowList UNIT group.now rows.now }
    requires within { k < length rows.now }
    requires room { length page.old + SHOWN_ROW ≤ PAGE_ROOM }
    ensures text { (row : shown.Row) → slice_get rows.now k ≡ Some row
        → page.new ≡ page.old ++ shown_row (length group.now) k row }
    ensures short { length page.new ≤ length page.old + SHOWN_ROW }
{
    prove!(k < rows.len());
    let row = rows.get(k);
    let mut buffer = Buffer::new();
    page.push(buffer.format(k + 1).as_bytes());
    page.push(b" ");
    page.push(buffer.format(row.mult).as_bytes());
    page.push(b" ");
    page.push(row_text(group, rows, k).bytes());
}

/// The key of the row at place k, counted from 0, as an affine map.
pub fn row_text(group: &Group, rows: &Rows, k: usize) -> Text
    requires list { IsRowList UNIT group.now rows.now }
    requires within { k < length rows.now }
    ensures { (row : shown.Row) → slice_get rows.now k ≡ Some row
        → result ≡ affine_text (length group.now) (numbers_of_key row.key) }
{
    key_text(group.len(), &rows.get(k).key)
}

/// A key as an affine map, where its matrix stands over the number of members.
fn key_text(over: u16, key: &Key) -> Text
    requires { IsPrintable over (numbers_of_key key.now.key) }
    ensures { result ≡ affine_text over (numbers_of_key key.now.key) }
{
    let [x, y, z] = key.t();
    let t = [i64::from(x), i64::from(y), i64::from(z)];
    print_affine(&key.m(), i32::from(over), &t)
}
