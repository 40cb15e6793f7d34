ghost use Rattle.std.specs.Prelude.{◌≡◌, ◌≤◌, ◌+◌, OnOk, length};
ghost use Rattle.page_print.specs.declared.page.TheConstants.{PAGE_ROOM};
ghost use Rattle.page_print.specs.Parts.{Is, counted as word_and_number};
ghost use Rattle.page_print.specs.Printing.{GathersText};

use crate::page::{Page, make_room};
use itoa::Buffer;
use sg_io::{Sink, SinkStop};
use triplet_text::Text;

/// Adds a heading to the page, which is handed over where it has no room for it and for so many bytes behind it.
pub fn put_heading<K: Sink>(
    heading: &[u8],
    room: usize,
    page: &mut Page,
    sink: &mut K,
) -> Result<(), SinkStop>
    requires { length heading.now + room ≤ PAGE_ROOM }
    ensures gathers { GathersText K.seen (Is heading.now)
        sink.old sink.new page.old page.new result }
    ensures room { OnOk result (length page.new + room ≤ PAGE_ROOM) }
{
    make_room(heading.len() + room, page, sink)?;
    page.push(heading);
    Ok(())
}

/// A heading of a word and a number.
pub fn counted(word: &[u8], n: usize) -> Text
    requires { length word.now ≤ 20 }
    ensures text { result ≡ word_and_number word.now n }
    ensures short { length result ≤ 61 }
{
    let mut text = Text::new();
    text.push(word);
    text.push(Buffer::new().format(n).as_bytes());
    text.push(b"\n");
    text
}
