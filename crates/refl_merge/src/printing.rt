ghost use Rattle.std.proofs.Common.{rules};
ghost use Rattle.std.specs.Prelude.{◌≡◌, ◌≤◌, ◌+◌, ◌++◌, drop, length};
ghost use Rattle.std.specs.List.{flat_map};
ghost use Rattle.phase_rules.specs.Rows.{row_of};
ghost use Rattle.page_print.specs.declared.index.TheConstants.{INDEX_TEXT};
ghost use Rattle.page_print.specs.declared.page.TheConstants.{PAGE_ROOM};
ghost use Rattle.page_print.specs.Printing.{Prints};
ghost use Rattle.refl_merge.specs.declared.printing.TheConstants.{ABSENCE_TEXT, LONGEST_LINE};
ghost use Rattle.refl_merge.specs.Texts.{key_text, absence_text, class_text, observed_text, merged_text};

use crate::merged::{Merged, MergedLine};
use itoa::Buffer;
use page_print::{
    INDEX_TEXT, Listed, Page, counted, push_index, put_heading, put_listed, put_page,
};
use sg_io::{Sink, SinkStop};

/// The most bytes of the word that says whether a class is absent.
const ABSENCE_TEXT: usize = 7;

/// The most bytes that a line has: an index, that word, a number of 32 bits and one of 64, three blanks and the line feed.
const LONGEST_LINE: usize = INDEX_TEXT + ABSENCE_TEXT + 35;

/// Writes a line for each class, how many of the absent classes were observed, and a line for each of these. It takes no memory.
/// After an Err a prefix of the text is written.
pub fn print_merged<K: Sink>(merged: &Merged, sink: &mut K) -> Result<(), SinkStop>
    ensures { Prints K.seen (λ text. text ≡ merged_text merged.now) sink.old sink.new result }
{
    let mut page = Page::new();
    put_listed(&ClassLines { merged }, &mut page, sink)?;
    let heading = counted(b"observed absences ", merged.observed_absences() as usize);
    put_heading(heading.bytes(), LONGEST_LINE, &mut page, sink)?;
    put_listed(&ObservedLines { merged }, &mut page, sink)?;
    put_page(&page, sink)
}

/// The lines of the classes.
#[derive(Drop)]
struct ClassLines<'a> {
    merged: &'a Merged,
}

impl Listed for ClassLines<'_> {
    ghost texts = { λ lines at text. text ≡ flat_map class_text (drop at lines.merged.now) };

    ghost count = { λ lines. length lines.merged.now };

    ghost longest = { LONGEST_LINE };

    ghost fits = { Prim.search rules };

    fn len(&self) -> u32 {
        self.merged.len()
    }

    fn longest_line(&self) -> usize {
        LONGEST_LINE
    }

    fn push_line(&self, at: u32, page: &mut Page) {
        push_class(&self.merged.get(at), page);
    }
}

/// The lines of the absent classes that were observed.
#[derive(Drop)]
struct ObservedLines<'a> {
    merged: &'a Merged,
}

impl Listed for ObservedLines<'_> {
    ghost texts = { λ lines at text. text ≡ flat_map observed_text (drop at lines.merged.now) };

    ghost count = { λ lines. length lines.merged.now };

    ghost longest = { LONGEST_LINE };

    ghost fits = { Prim.search rules };

    fn len(&self) -> u32 {
        self.merged.len()
    }

    fn longest_line(&self) -> usize {
        LONGEST_LINE
    }

    fn push_line(&self, at: u32, page: &mut Page) {
        push_observed(&self.merged.get(at), page);
    }
}

fn push_class(line: &MergedLine, page: &mut Page)
    requires { length page.old + LONGEST_LINE ≤ PAGE_ROOM }
    ensures { page.new ≡ page.old ++ class_text line.now }
{
    push_key(&line.key, page);
    page.push(b" ");
    page.push(Buffer::new().format(line.count).as_bytes());
    page.push(b" ");
    page.push(Buffer::new().format(line.sum).as_bytes());
    page.push(b" ");
    push_absence(line.absent, page);
    page.push(b"\n");
}

fn push_observed(line: &MergedLine, page: &mut Page)
    requires { length page.old + LONGEST_LINE ≤ PAGE_ROOM }
    ensures { page.new ≡ page.old ++ observed_text line.now }
{
    if line.observed {
        push_key(&line.key, page);
        page.push(b"\n");
    }
}

fn push_key(key: &[i32; 3], page: &mut Page)
    requires { length page.old + INDEX_TEXT ≤ PAGE_ROOM }
    ensures text { page.new ≡ page.old ++ key_text (row_of key.now) }
    ensures short { length page.new ≤ length page.old + INDEX_TEXT }
{
    push_index(key[0], key[1], key[2], page);
}

fn push_absence(absent: bool, page: &mut Page)
    requires { length page.old + ABSENCE_TEXT ≤ PAGE_ROOM }
    ensures text { page.new ≡ page.old ++ absence_text absent }
    ensures short { length page.new ≤ length page.old + ABSENCE_TEXT }
{
    if absent {
        page.push(b"absent");
    } else {
        page.push(b"present");
    }
}
