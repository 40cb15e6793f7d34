ghost use Rattle.std.specs.Prelude.{◌≡◌, ◌+◌, ◌≤◌, ◌<◌, ℕ, List, [], length};
ghost use Rattle.page_print.specs.declared.page.TheConstants.{PAGE_ROOM};
ghost use Rattle.page_print.specs.Lines.{AddsLine};
ghost use Rattle.page_print.specs.Printing.{Prints, GathersText};

use crate::page::{Page, make_room, put_page};
use sg_io::{Sink, SinkStop};

/// Elements that are asked by their places, each with a line.
pub trait Listed {
    /// The texts that the lines from a place on may be.
    ghost texts: { Self → ℕ → List ℕ → Type 0 };

    /// How many elements there are.
    ghost count: { Self → ℕ };

    /// The most bytes that a line has.
    ghost longest: { ℕ };

    /// How many elements there are.
    fn len(&self) -> u32
        ensures count { result ≡ count self.now }
        ensures none { (at : ℕ) → result ≤ at → texts self.now at [] };

    /// The most bytes that a line has.
    fn longest_line(&self) -> usize
        ensures { result ≡ longest };

    /// Adds the line of the element at a place, counted from 0, to the page, which has room for the longest.
    fn push_line(&self, at: u32, page: &mut Page)
        requires within { at < count self.now }
        requires room { length page.old + longest ≤ PAGE_ROOM }
        ensures { AddsLine (texts self.now at) (texts self.now (at + 1)) page.old page.new };

    /// A page has room for a line.
    ghost fits: { longest ≤ PAGE_ROOM };
}

/// Adds the lines of all elements to the page, which has room for the longest, and hands it over each time that the next one may
/// not fit. It takes no memory. After an Err a prefix of what stood on the page and of the lines is written.
pub fn put_listed<L: Listed, K: Sink>(
    listed: &L,
    page: &mut Page,
    sink: &mut K,
) -> Result<(), SinkStop>
    requires { length page.old + L.longest ≤ PAGE_ROOM }
    ensures { GathersText K.seen (L.texts listed.now 0) sink.old sink.new page.old page.new result }
{
    for at in 0..listed.len() {
        listed.push_line(at, page);
        make_room(listed.longest_line(), page, sink)?;
    }
    Ok(())
}

/// Writes the lines of all elements, page by page. It takes no memory. After an Err a prefix of them is written.
pub fn print_listed<L: Listed, K: Sink>(listed: &L, sink: &mut K) -> Result<(), SinkStop>
    ensures { Prints K.seen (L.texts listed.now 0) sink.old sink.new result }
{
    let mut page = Page::new();
    put_listed(listed, &mut page, sink)?;
    put_page(&page, sink)
}
