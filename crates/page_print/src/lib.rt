//! Lines, gathered on a page that is handed to a sink where the next one may not fit (`make_room`): of elements that are asked
//! by their places, `put_listed` does it for all, and `print_listed` with a page of its own. The texts of the lines are those of
//! the printers that stand on this crate. This project's own.
//!
//! Proved: after Ok the sink took all lines, in their order, or the last of them stand on the page that was given; after an Err
//! it took a prefix of them. The count of what stopped the call rose, and no other did (`Prints`, `GathersText`).
#![tactic(auto)]

mod heading;
mod index;
mod listed;
mod page;

pub use heading::{counted, put_heading};
pub use index::{INDEX_TEXT, push_index};
pub use listed::{Listed, print_listed, put_listed};
pub use page::{PAGE_ROOM, Page, make_room, put_page};
