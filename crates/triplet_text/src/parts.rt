//! The type `Split`, apart from the function `split`: no module has two names that differ in a capital alone.

/// Where an input is divided: the bytes up to `head` stand before the divider line, those from `tail` on behind it. Lines are
/// counted from 1.
#[derive(Clone, Copy, PartialEq, Eq, Debug, Drop)]
pub struct Split {
    /// The place where the divider line begins, or the number of bytes where there is none.
    pub head: usize,
    /// The place behind the line feed of the divider line, or the number of bytes where there is none.
    pub tail: usize,
    /// The number of the line behind the divider, or one more than the number of lines where there is none.
    pub line: u32,
}
