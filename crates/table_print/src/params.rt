ghost use Rattle.std.specs.Prelude.{◌≡◌, ◌<◌, ◌≤◌, ◌+◌, ◌++◌, Some, length, slice_get};
ghost use Rattle.exact_ops.specs.declared.TheConstants.{UNIT};
ghost use Rattle.group_closure.specs.GroupList.{IsGroup};
ghost use Rattle.space_groups.specs.Keys as keys;
ghost use Rattle.space_groups.specs.Rows as shown;
ghost use Rattle.space_groups.specs.Rows.{IsRowList};
ghost use Rattle.parameter_forms.specs.Finding.{IsKeptForm};
ghost use Rattle.parameter_forms.specs.Forms.{Form};
ghost use Rattle.page_print.specs.declared.page.TheConstants.{PAGE_ROOM};
ghost use Rattle.page_print.specs.Printing.{Prints, GathersText};
ghost use Rattle.table_print.specs.Params.{form_text, GivesForms, param_line, IsParamsText};
ghost use Rattle.table_print.specs.declared.params.TheConstants.{SHOWN_FORM, PARAM_LINE};

use affine_sets::param;
use affine_sets::parts::Param;
use group_closure::Group;
use itoa::Buffer;
use page_print::{Page, make_room, put_page};
use sg_io::{Sink, SinkStop};
use triplet_text::{COMPONENT_ROOM, affine_map_has_one_text, print_component};
use wyckoff_rows::parts::Rows;

/// The most bytes that a parameter form has: three components and two commas.
pub const SHOWN_FORM: usize = 3 * COMPONENT_ROOM + 2;

/// The most bytes that the line of a row has: a place and a number of points of at most twenty digits each, two blanks, a form
/// and the end of the line.
const PARAM_LINE: usize = 20 + 20 + 2 + SHOWN_FORM + 1;

/// Writes the lines of the command `params`: one for each row of the table of the group, in their order. It takes no memory.
/// After an Err a prefix of the lines is written.
pub fn print_params<K: Sink>(g: &Group, r: &Rows, sink: &mut K) -> Result<(), SinkStop>
    requires { IsRowList UNIT g.now r.now }
    ensures { Prints K.seen (IsParamsText g.now r.now) sink.old sink.new result }
{
    let mut page = Page::new();
    put_params(g, r, &mut page, sink)?;
    put_page(&page, sink)
}

/// Adds the lines of all rows to the page, and hands it over each time that the next one may not fit.
fn put_params<K: Sink>(
    group: &Group,
    rows: &Rows,
    page: &mut Page,
    sink: &mut K,
) -> Result<(), SinkStop>
    requires { IsRowList UNIT group.now rows.now }
    ensures { GathersText K.seen (IsParamsText group.now rows.now)
        sink.old sink.new page.old page.new result }
{
    // By this call it is known that the members are a group.
    let _ = group.len();
    for k in 0..rows.len() {
        make_room(PARAM_LINE, page, sink)?;
        push_line(group, rows, k, page);
    }
    Ok(())
}

/// Adds the line of the row at place k, counted from 0.
fn push_line(group: &Group, rows: &Rows, k: usize, page: &mut Page)
    requires group { IsGroup group.now }
    requires list { IsRowList UNIT group.now rows.now }
    requires within { k < length rows.now }
    requires room { length page.old + PARAM_LINE ≤ PAGE_ROOM }
    ensures { (form : keys.Key → Form) (row : shown.Row) → GivesForms (length group.now) form
        → slice_get rows.now k ≡ Some row → page.new ≡ page.old ++ param_line form k row }
{
    prove!(k < rows.len());
    let row = rows.get(k);
    let mut buffer = Buffer::new();
    page.push(buffer.format(k + 1).as_bytes());
    page.push(b" ");
    page.push(buffer.format(row.mult).as_bytes());
    page.push(b" ");
    push_row_form(group, rows, k, page);
    page.push(b"\n");
}

/// Adds the parameter form of the row at place k, counted from 0. It is one that is kept, so its numbers are small.
pub fn push_row_form(group: &Group, rows: &Rows, k: usize, page: &mut Page)
    requires list { IsRowList UNIT group.now rows.now }
    requires within { k < length rows.now }
    requires room { length page.old + SHOWN_FORM ≤ PAGE_ROOM }
    ensures text { (form : keys.Key → Form) (row : shown.Row) → GivesForms (length group.now) form
        → slice_get rows.now k ≡ Some row
        → page.new ≡ page.old ++ form_text (form row.key) }
    ensures kept { (form : Form) × IsKeptForm form × (page.new ≡ page.old ++ form_text form) }
    ensures short { length page.new ≤ length page.old + SHOWN_FORM }
{
    affine_map_has_one_text();
    // By this call it is known that the members are a group.
    let _ = group.len();
    let row = rows.get(k);
    push_form(&param(group, &row.key), page);
}

/// Adds a parameter form, as any other affine map.
fn push_form(form: &Param, page: &mut Page)
    requires { length page.old + SHOWN_FORM ≤ PAGE_ROOM }
    ensures text { page.new ≡ page.old ++ form_text form.now }
    ensures kept { IsKeptForm form.now }
    ensures short { length page.new ≤ length page.old + SHOWN_FORM }
{
    let over = form.over();
    let b = form.b();
    let s = form.s();
    page.push(print_component(over, b[0], b[1], b[2], i64::from(s[0])).bytes());
    page.push(b",");
    page.push(print_component(over, b[3], b[4], b[5], i64::from(s[1])).bytes());
    page.push(b",");
    page.push(print_component(over, b[6], b[7], b[8], i64::from(s[2])).bytes());
}
