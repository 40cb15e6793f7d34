ghost use Rattle.std.specs.Prelude.{◌≡◌, ◌<◌, Some, length, slice_get};

use std::marker::Model;

/// A line of a merged list: what was measured of one class of equivalent reflections.
#[derive(Clone, Copy, PartialEq, Eq, Debug, Drop)]
pub struct MergedLine {
    /// The greatest index of the class. It can be beyond the range of an `Index`.
    pub key: [i32; 3],
    /// How many measured lines have an index of the class.
    pub count: u32,
    /// The sum of their values.
    pub sum: i64,
    /// Whether the class is systematically absent.
    pub absent: bool,
    /// Whether it is, and one of the values is not 0.
    pub observed: bool,
}

/// A merged list. It is seen as the list of its lines.
#[derive(Drop)]
pub struct Merged {
    pub(crate) lines: Vec<MergedLine>,
}

impl Model for Merged {
    ghost use Rattle.std.specs.Prelude.{◌<◌, ◌^◌, List, length};
    ghost use Rattle.refl_merge.specs.declared.merged.MergedLine.{MergedLine};

    ghost Value = { List MergedLine };

    ghost view = { λ a. a.lines.items };

    ghost invariant = { λ a. length a.lines.items < 2 ^ 32 };
}

impl Merged {
    ghost use Rattle.refl_merge.specs.Texts.{observed_count};

    /// How many classes it has.
    pub fn len(&self) -> u32
        ensures { result ≡ length self.now }
    {
        self.lines.len() as u32
    }

    /// How many of its classes are absent, and have a value other than 0.
    pub fn observed_absences(&self) -> u32
        ensures { result ≡ observed_count self.now }
    {
        self.lines.iter().filter(|line| line.observed).count() as u32
    }

    /// The line at place k, counted from 0.
    pub fn get(&self, k: u32) -> MergedLine
        requires { k < length self.now }
        ensures { slice_get self.now k ≡ Some result }
    {
        self.lines[k as usize]
    }
}
