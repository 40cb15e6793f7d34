ghost use Rattle.std.specs.Prelude.{◌≡◌, ◌≤◌, ◌+◌, ◌++◌, [], List, OnOk, length};
ghost use Rattle.page_print.specs.declared.index.TheConstants.{INDEX_TEXT};
ghost use Rattle.page_print.specs.declared.page.TheConstants.{PAGE_ROOM};
ghost use Rattle.page_print.specs.Lines.{AddsSuch};
ghost use Rattle.page_print.specs.Printing.{Prints, GathersText};
ghost use Rattle.page_print.specs.Parts.{index_text};
ghost use Rattle.reflections.specs.declared.line.ClassLine.{ClassLine};
ghost use Rattle.reflections.specs.Walks.{IsWalk};
ghost use Rattle.table_print.specs.Classes.{mark_text, IsClassText, IsIndexText, IsBoxText, IsOver};
ghost use Rattle.table_print.specs.declared.classes.TheConstants.{MARK_TEXT, CLASS_LINE};

use group_closure::Group;
use itoa::Buffer;
use page_print::{INDEX_TEXT, Page, make_room, push_index, put_page};
use phase_rules::parts::Mark;
use phase_rules::{Index, Pairs, class_size, fixers, mark};
use reflections::{ClassLine, ClassList};
use sg_io::{Sink, SinkStop};

/// The most bytes that a mark has: that of a phase, a word, a blank and a number of at most three digits.
const MARK_TEXT: usize = 9;

/// The most bytes that a line has: an index, its mark, two counts of at most five digits, three blanks and the line feed.
pub const CLASS_LINE: usize = INDEX_TEXT + MARK_TEXT + 14;

/// Writes the line of the command `index`: the index, its class size, how many operators fix it, and its mark. It takes no
/// memory. After an Err a prefix of the line is written.
pub fn print_index<K: Sink>(
    group: &Group,
    index: &Index,
    pairs: Pairs,
    sink: &mut K,
) -> Result<(), SinkStop>
    ensures { Prints K.seen (IsIndexText pairs group.now index.now) sink.old sink.new result }
{
    let line = ClassLine {
        index: *index,
        size: class_size(group, index, pairs),
        fixers: fixers(group, index),
        mark: mark(group, index, pairs),
    };
    let mut page = Page::new();
    push_class(&line, &mut page);
    put_page(&page, sink)
}

/// Writes the lines of the command `refl`: one for each class, in the order of the class list. The walk is one of the group from
/// which no line was taken; it stays one, and after Ok each line was taken from it. It takes no memory. After an Err a prefix of
/// the lines is written.
pub fn print_classes<K: Sink>(
    group: &Group,
    list: &mut ClassList,
    sink: &mut K,
) -> Result<(), SinkStop>
    requires { IsWalk group.now list.old [] }
    ensures text { Prints K.seen (IsBoxText list.old.pairs group.now list.old.size)
        sink.old sink.new result }
    ensures walk { (taken : List ClassLine) × IsWalk group.now list.new taken }
    ensures over { OnOk result ((taken : List ClassLine)
        × IsOver group.now list.old list.new taken) }
{
    let mut page = Page::new();
    put_classes(group, list, &mut page, sink)?;
    put_page(&page, sink)
}

/// Adds the lines of all classes to the page, which has room for one, and hands it over each time that the next one may not fit.
pub fn put_classes<K: Sink>(
    group: &Group,
    list: &mut ClassList,
    page: &mut Page,
    sink: &mut K,
) -> Result<(), SinkStop>
    requires unused { IsWalk group.now list.old [] }
    requires room { length page.old + CLASS_LINE ≤ PAGE_ROOM }
    ensures gathers { GathersText K.seen (IsBoxText list.old.pairs group.now list.old.size)
        sink.old sink.new page.old page.new result }
    ensures walk { (taken : List ClassLine) × IsWalk group.now list.new taken }
    ensures over { OnOk result ((taken : List ClassLine)
        × IsOver group.now list.old list.new taken) }
{
    while let Some(line) = list.next(group) {
        push_class(&line, page);
        make_room(CLASS_LINE, page, sink)?;
    }
    Ok(())
}

fn push_class(line: &ClassLine, page: &mut Page)
    requires { length page.old + CLASS_LINE ≤ PAGE_ROOM }
    ensures { AddsSuch (IsClassText line.now) page.old page.new }
{
    push_index_of(&line.index, page);
    page.push(b" ");
    page.push(Buffer::new().format(line.size).as_bytes());
    page.push(b" ");
    page.push(Buffer::new().format(line.fixers).as_bytes());
    page.push(b" ");
    push_mark(line.mark, page);
    page.push(b"\n");
}

fn push_index_of(index: &Index, page: &mut Page)
    requires { length page.old + INDEX_TEXT ≤ PAGE_ROOM }
    ensures text { let h = index.now in page.new ≡ page.old ++ index_text h.h h.k h.l }
    ensures short { length page.new ≤ length page.old + INDEX_TEXT }
{
    push_index(index.h, index.k, index.l, page);
}

fn push_mark(mark: Mark, page: &mut Page)
    requires { length page.old + MARK_TEXT ≤ PAGE_ROOM }
    ensures text { page.new ≡ page.old ++ mark_text mark }
    ensures short { length page.new ≤ length page.old + MARK_TEXT }
{
    match mark {
        Mark::Absent => page.push(b"absent"),
        Mark::Free => page.push(b"free"),
        Mark::Phase(s) => {
            page.push(b"phase ");
            page.push(Buffer::new().format(s).as_bytes());
        }
    }
}
