ghost use Rattle.std.specs.Prelude.{◌≡◌, ◌≤◌, ◌+◌, ◌++◌, length};
ghost use Rattle.page_print.specs.declared.page.TheConstants.{PAGE_ROOM};
ghost use Rattle.page_print.specs.declared.index.TheConstants.{INDEX_TEXT};
ghost use Rattle.page_print.specs.Parts.{index_text};

use crate::page::Page;
use itoa::Buffer;

/// The most bytes that an index has: three numbers of 32 bits and two blanks.
pub const INDEX_TEXT: usize = 35;

/// Adds the three numbers of an index to the page, with a blank between two.
pub fn push_index(h: i32, k: i32, l: i32, page: &mut Page)
    requires { length page.old + INDEX_TEXT ≤ PAGE_ROOM }
    ensures text { page.new ≡ page.old ++ index_text h k l }
    ensures short { length page.new ≤ length page.old + INDEX_TEXT }
{
    let mut buffer = Buffer::new();
    page.push(buffer.format(h).as_bytes());
    page.push(b" ");
    page.push(buffer.format(k).as_bytes());
    page.push(b" ");
    page.push(buffer.format(l).as_bytes());
}
