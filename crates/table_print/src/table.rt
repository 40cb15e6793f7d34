ghost use Rattle.std.specs.Prelude.{◌≡◌, [], List, OnOk};
ghost use Rattle.exact_ops.specs.declared.TheConstants.{UNIT};
ghost use Rattle.group_closure.specs.GroupList.{IsGroup};
ghost use Rattle.space_groups.specs.Rows.{IsRowList};
ghost use Rattle.page_print.specs.Printing.{Prints, GathersText};
ghost use Rattle.reflections.specs.declared.line.ClassLine.{ClassLine};
ghost use Rattle.reflections.specs.Walks.{IsWalk};
ghost use Rattle.table_print.specs.Classes.{IsOver};
ghost use Rattle.table_print.specs.Table.{IsOperatorPart, IsTypePart, IsRowPart, IsClassPart, IsTableText};

use crate::classes::{CLASS_LINE, put_classes};
use crate::operators::{OPERATOR_LINE, OperatorLines};
use crate::rows::put_rows;
use crate::types::{TYPE_LINE, TypeLines};
use group_closure::Group;
use page_print::{Page, counted, put_heading, put_listed, put_page};
use reflections::ClassList;
use sg_io::{Sink, SinkStop};
use wyckoff_rows::parts::Rows;

/// Writes the text of the command `table`: the lines of `ops`, `types`, `wyckoff` and `refl`, each under a heading. The walk is one
/// of the group from which no line was taken; it stays one, and after Ok each line was taken from it. It takes no memory. After
/// an Err a prefix of the text is written.
pub fn print_table<K: Sink>(
    group: &Group,
    rows: &Rows,
    list: &mut ClassList,
    sink: &mut K,
) -> Result<(), SinkStop>
    requires rows { IsRowList UNIT group.now rows.now }
    requires unused { IsWalk group.now list.old [] }
    ensures text { Prints K.seen
        (IsTableText list.old.pairs group.now rows.now list.old.size) sink.old sink.new result }
    ensures walk { (taken : List ClassLine) × IsWalk group.now list.new taken }
    ensures over { OnOk result ((taken : List ClassLine)
        × IsOver group.now list.old list.new taken) }
{
    let mut page = Page::new();
    put_operators(group, &mut page, sink)?;
    put_types(group, &mut page, sink)?;
    put_row_part(group, rows, &mut page, sink)?;
    put_class_part(group, list, &mut page, sink)?;
    put_page(&page, sink)
}

fn put_operators<K: Sink>(group: &Group, page: &mut Page, sink: &mut K) -> Result<(), SinkStop>
    ensures { GathersText K.seen (IsOperatorPart group.now)
        sink.old sink.new page.old page.new result }
{
    let heading = counted(b"operators ", usize::from(group.len()));
    put_heading(heading.bytes(), OPERATOR_LINE, page, sink)?;
    put_listed(&OperatorLines { group }, page, sink)
}

fn put_types<K: Sink>(group: &Group, page: &mut Page, sink: &mut K) -> Result<(), SinkStop>
    requires { IsGroup group.now }
    ensures { GathersText K.seen (IsTypePart group.now)
        sink.old sink.new page.old page.new result }
{
    put_heading(b"types\n", TYPE_LINE, page, sink)?;
    put_listed(&TypeLines { group }, page, sink)
}

fn put_row_part<K: Sink>(
    group: &Group,
    rows: &Rows,
    page: &mut Page,
    sink: &mut K,
) -> Result<(), SinkStop>
    requires { IsRowList UNIT group.now rows.now }
    ensures { GathersText K.seen (IsRowPart group.now rows.now)
        sink.old sink.new page.old page.new result }
{
    let heading = counted(b"rows ", rows.len());
    put_heading(heading.bytes(), 0, page, sink)?;
    put_rows(group, rows, page, sink)
}

fn put_class_part<K: Sink>(
    group: &Group,
    list: &mut ClassList,
    page: &mut Page,
    sink: &mut K,
) -> Result<(), SinkStop>
    requires { IsWalk group.now list.old [] }
    ensures gathers { GathersText K.seen (IsClassPart list.old.pairs group.now list.old.size)
        sink.old sink.new page.old page.new result }
    ensures walk { (taken : List ClassLine) × IsWalk group.now list.new taken }
    ensures over { OnOk result ((taken : List ClassLine)
        × IsOver group.now list.old list.new taken) }
{
    put_heading(b"classes\n", CLASS_LINE, page, sink)?;
    put_classes(group, list, page, sink)
}
