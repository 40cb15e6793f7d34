ghost use Rattle.std.specs.Prelude.{◌≡◌, ◌<◌, ◌↔◌, [], ◌∷◌, ◌++◌, Some, OnOk, OnErr, IsErrOf, length, slice_get};
ghost use Rattle.std.specs.List.{All};
ghost use Rattle.lattice_algebra.specs.Matrix.{matrix_of, IsUnimodular};
ghost use Rattle.exact_ops.specs.Raw.{numbers_of, IsListed};

use crate::raw::Raw;
use std::alloc::Global;
use std::marker::Model;

/// Want of memory.
#[derive(Clone, Copy, PartialEq, Eq, Debug, Drop)]
pub struct NoMemory;

/// Why a Raw was not listed.
#[derive(Clone, Copy, PartialEq, Eq, Debug, Drop)]
pub enum PushFault {
    /// The matrix has no whole inverse.
    NotUnimodular,
    /// There is no memory for one more.
    NoMemory,
}

/// A list of Raws in the order in which they were pushed, each with a matrix that has a whole inverse. It is seen as the
/// list of their matrices and translations.
#[derive(Drop)]
pub struct OpList {
    raws: Vec<Raw>,
}

impl Model for OpList {
    ghost use Rattle.std.specs.Prelude.{List, map};
    ghost use Rattle.lattice_algebra.specs.Operator.{Operator};

    ghost Value = { List Operator };

    ghost use Rattle.exact_ops.specs.Numbers.{numbers};
    ghost use Rattle.exact_ops.specs.OpList.{AreUnimodular};

    ghost view = { λ a. map numbers a.raws.items };

    ghost invariant = { λ a. AreUnimodular a.raws.items };
}

impl OpList {
    /// Takes no memory.
    pub fn new(alloc: Global) -> OpList
        ensures { result ≡ [] }
    {
        OpList {
            raws: Vec::new(alloc),
        }
    }

    /// Adds a Raw at the end. `NotUnimodular` comes exactly where its matrix has no whole inverse. After an Err the
    /// list is as it was.
    pub fn push(&mut self, raw: &Raw) -> Result<(), PushFault>
        ensures ok { OnOk result (self.new ≡ self.old ++ numbers_of raw.now.w raw.now.t ∷ []) }
        ensures err { OnErr result (self.new ≡ self.old) }
        ensures unimodular { OnOk result (IsUnimodular (matrix_of raw.now.w)) }
        ensures not_unimodular { IsErrOf result PushFault.NotUnimodular
            ↔ (¬ IsUnimodular (matrix_of raw.now.w)) }
    {
        if !raw.unimodular() {
            return Err(PushFault::NotUnimodular);
        }
        let Ok(()) = self.raws.push(*raw) else {
            return Err(PushFault::NoMemory);
        };
        Ok(())
    }

    /// How many Raws it has.
    pub fn len(&self) -> usize
        ensures value { result ≡ length self.now }
        // What is true of every list.
        ensures listed { All IsListed self.now }
    {
        self.raws.len()
    }

    /// The Raw at place k, counted from 0.
    pub fn get(&self, k: usize) -> Raw
        requires { k < length self.now }
        ensures { slice_get self.now k ≡ Some (numbers_of result.w result.t) }
    {
        self.raws[k]
    }
}
