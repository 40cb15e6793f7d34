ghost use Rattle.std.specs.Prelude.{◌≡◌, ◌+◌, ◌≤◌, length, OnOk};
ghost use Rattle.page_print.specs.Lines.{IsNothing};
ghost use Rattle.page_print.specs.Printing.{Prints, GathersText};

use sg_io::{Sink, SinkStop, put_all};
use triplet_text::InPlace;

/// The most bytes that a `Page` has room for.
pub const PAGE_ROOM: usize = 4096;

/// Whole lines that wait to be handed over, in place, so that printing takes no memory.
pub type Page = InPlace<PAGE_ROOM>;

/// Hands the page over where it has no room for so many bytes. After an Err a prefix of it is written.
pub fn make_room<K: Sink>(room: usize, page: &mut Page, sink: &mut K) -> Result<(), SinkStop>
    requires { room ≤ PAGE_ROOM }
    ensures room { OnOk result (length page.new + room ≤ PAGE_ROOM) }
    ensures gathers { GathersText K.seen IsNothing sink.old sink.new page.old page.new result }
{
    if page.room() < room {
        put_all(sink, page.bytes())?;
        page.clear();
    }
    Ok(())
}

/// Hands the page over. After an Err a prefix of it is written.
pub fn put_page<K: Sink>(page: &Page, sink: &mut K) -> Result<(), SinkStop>
    ensures { Prints K.seen (λ text. text ≡ page.now) sink.old sink.new result }
{
    put_all(sink, page.bytes())
}
