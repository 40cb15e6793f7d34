ghost use Rattle.std.specs.Prelude.{◌≡◌, ◌+◌, ◌≤◌, ◌<◌, codes, length};
ghost use Rattle.exact_ops.specs.Numbers.{point_in};
ghost use Rattle.page_print.specs.declared.page.TheConstants.{PAGE_ROOM};
ghost use Rattle.page_print.specs.Lines.{AreLines, AddsSuch};
ghost use Rattle.page_print.specs.Printing.{Prints, GathersText};
ghost use Rattle.atom_expand.specs.declared.TheConstants.{MAX_ATOMS};
ghost use Rattle.atom_expand.specs.declared.printing.TheConstants.{SITE_LINE, POINT_LINE};
ghost use Rattle.atom_expand.specs.declared.expansion.Expanded.TheVariants as entry;
ghost use Rattle.atom_expand.specs.Steps.{IsSameWithin};
ghost use Rattle.atom_expand.specs.Printing.{site_line, IsPointLine, IsEntryText, IsAtomsText};

use crate::LABEL_LENGTH;
use crate::atoms::AtomList;
use crate::expansion::{Expanded, Expansion};
use crate::fractions::Fractions;
use crate::label::Label;
use exact_ops::Point;
use itoa::Buffer;
use orbit_map::parts::Orbit;
use page_print::{Page, make_room, put_heading, put_page};
use sg_io::{Sink, SinkStop};
use triplet_text::{TEXT_ROOM, Text};

/// The most bytes that the line of a site has: a word, two numbers, a label, three blanks and the line feed.
const SITE_LINE: usize = 4 + 5 + LABEL_LENGTH + 5 + 4;

/// The most bytes that the line of a point has: a word, a number, three fractions, four blanks and the line feed.
const POINT_LINE: usize = 2 + 5 + 3 * TEXT_ROOM + 5;

/// Writes the lines of the command `atoms`: for each site its number, its label and how many points its orbit has in the cell, and
/// a line for each of these; or, where an earlier site has the same orbit, the number of the first that has it. It takes no memory.
/// After an Err a prefix of the lines is written.
pub fn print_atoms<K: Sink>(
    atoms: &AtomList,
    expansion: &Expansion,
    sink: &mut K,
) -> Result<(), SinkStop>
    requires { length expansion.now ≡ length atoms.now }
    ensures { Prints K.seen (IsAtomsText atoms.now expansion.now) sink.old sink.new result }
{
    let mut fractions = Fractions::new();
    let mut page = Page::new();
    for k in 0..atoms.len() {
        let label = atoms.get(k).label;
        put_site(
            k + 1,
            &label,
            expansion.entry(k),
            &mut fractions,
            &mut page,
            sink,
        )?;
    }
    put_page(&page, sink)
}

/// Adds the lines of a site to the page.
fn put_site<K: Sink>(
    number: u16,
    label: &Label,
    entry: &Expanded,
    fractions: &mut Fractions,
    page: &mut Page,
    sink: &mut K,
) -> Result<(), SinkStop>
    requires { IsSameWithin MAX_ATOMS entry.now }
    ensures { GathersText K.seen (IsEntryText number label.now entry.now)
        sink.old sink.new page.old page.new result }
{
    match entry {
        Expanded::First(orbit) => put_orbit(number, label, orbit, fractions, page, sink),
        Expanded::Same(j) => put_same(number, label, *j, page, sink),
    }
}

fn put_orbit<K: Sink>(
    number: u16,
    label: &Label,
    orbit: &Orbit,
    fractions: &mut Fractions,
    page: &mut Page,
    sink: &mut K,
) -> Result<(), SinkStop>
    ensures { GathersText K.seen (IsEntryText number label.now (entry.First orbit.now))
        sink.old sink.new page.old page.new result }
{
    let heading = heading(b"site ", number, label, orbit.len());
    put_heading(heading.bytes(), POINT_LINE, page, sink)?;
    put_points(number, orbit, fractions, page, sink)
}

fn put_same<K: Sink>(
    number: u16,
    label: &Label,
    first: u16,
    page: &mut Page,
    sink: &mut K,
) -> Result<(), SinkStop>
    requires { first < MAX_ATOMS }
    ensures { GathersText K.seen (IsEntryText number label.now (entry.Same first))
        sink.old sink.new page.old page.new result }
{
    let heading = heading(b"same ", number, label, first + 1);
    put_heading(heading.bytes(), 0, page, sink)
}

/// The line of a site.
fn heading(word: &[u8], number: u16, label: &Label, other: u16) -> Text
    requires { length word.now ≤ 5 }
    ensures text { result ≡ site_line word.now number label.now other }
    ensures short { length result ≤ SITE_LINE }
{
    let mut text = Text::new();
    text.push(word);
    text.push(Buffer::new().format(number).as_bytes());
    text.push(b" ");
    text.push(label.bytes());
    text.push(b" ");
    text.push(Buffer::new().format(other).as_bytes());
    text.push(b"\n");
    text
}

/// Adds the lines of the points to the page, and hands it over each time that the next one may not fit.
fn put_points<K: Sink>(
    number: u16,
    orbit: &Orbit,
    fractions: &mut Fractions,
    page: &mut Page,
    sink: &mut K,
) -> Result<(), SinkStop>
    ensures { GathersText K.seen (AreLines (IsPointLine number) orbit.now)
        sink.old sink.new page.old page.new result }
{
    for at in 0..orbit.len() {
        make_room(POINT_LINE, page, sink)?;
        push_point(number, &orbit.get(at), fractions, page);
    }
    Ok(())
}

fn push_point(number: u16, point: &Point, fractions: &mut Fractions, page: &mut Page)
    requires { length page.old + POINT_LINE ≤ PAGE_ROOM }
    ensures { AddsSuch (IsPointLine number (point_in point.now)) page.old page.new }
{
    let [x, y, z] = point.n;
    page.push(b"at ");
    page.push(Buffer::new().format(number).as_bytes());
    page.push(b" ");
    fractions.push(x, point.d, page);
    page.push(b" ");
    fractions.push(y, point.d, page);
    page.push(b" ");
    fractions.push(z, point.d, page);
    page.push(b"\n");
}
