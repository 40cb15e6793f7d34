ghost use Rattle.std.specs.Prelude.{◌≡◌, ◌<◌, ◌+◌, ◌^◌, [], ◌∷◌, ◌++◌, Some, OnOk, OnErr, length, slice_get};

use exact_ops::NoMemory;
use phase_rules::Index;
use std::alloc::Global;
use std::marker::Model;

/// What was measured at one index.
#[derive(Clone, Copy, PartialEq, Eq, Debug, Drop)]
pub struct Measured {
    pub index: Index,
    pub value: i32,
}

/// Measured lines in the order in which they were pushed, fewer than 2^32. It is seen as the list of them.
#[derive(Drop)]
pub struct MeasuredList {
    pub(crate) lines: Vec<Measured>,
}

impl Model for MeasuredList {
    ghost use Rattle.std.specs.Prelude.{◌<◌, ◌^◌, List, length};
    ghost use Rattle.refl_merge.specs.declared.measured.Measured.{Measured};

    ghost Value = { List Measured };

    ghost view = { λ a. a.lines.items };

    ghost invariant = { λ a. length a.lines.items < 2 ^ 32 };
}

impl MeasuredList {
    /// Takes no memory.
    pub fn new(alloc: Global) -> MeasuredList
        ensures { result ≡ [] }
    {
        MeasuredList {
            lines: Vec::new(alloc),
        }
    }

    /// Adds a line at the end. After an Err the list is as it was.
    pub fn push(&mut self, line: &Measured) -> Result<(), NoMemory>
        requires { length self.old + 1 < 2 ^ 32 }
        ensures ok { OnOk result (self.new ≡ self.old ++ line.now ∷ []) }
        ensures err { OnErr result (self.new ≡ self.old) }
    {
        let Ok(()) = self.lines.push(*line) else {
            return Err(NoMemory);
        };
        Ok(())
    }

    /// How many lines it has.
    pub fn len(&self) -> u32
        ensures { result ≡ length self.now }
    {
        self.lines.len() as u32
    }

    /// The line at place k, counted from 0.
    pub fn get(&self, k: u32) -> Measured
        requires { k < length self.now }
        ensures { slice_get self.now k ≡ Some result }
    {
        self.lines[k as usize]
    }
}
