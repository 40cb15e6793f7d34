use affine_sets::parts::Key;
use affine_sets::{Special, Sub};

/// A group that the search keeps: all elements that fix what it fixes, with its average, its key and the number of points of
/// its row.
#[derive(Drop)]
pub struct Entry {
    pub set: Sub,
    pub average: Special,
    pub key: Key,
    pub mult: u16,
}
