//! The type `Key`, apart from the function `key`: no module has two names that differ in a capital alone.

ghost use Rattle.std.specs.Prelude.{◌≡◌, ◌↔◌, IsTrue};
ghost use Rattle.lattice_algebra.specs.Matrix.{entries, coordinates};
ghost use Rattle.affine_sets.specs.Averages.{IsKeyInCell};

use exact_ops::{Rotation, Vector};
pub use parameter_forms::Param;
use std::marker::Model;

/// A matrix over `over` and a translation in parts of a cell over `over`, each number of which is from 0 to below
/// `UNIT * over`.
#[derive(Clone, Copy, Drop)]
pub struct Key {
    pub(crate) m: Rotation,
    pub(crate) t: Vector,
    pub(crate) over: u16,
}

impl Model for Key {
    ghost use Rattle.affine_sets.specs.Averages.{KeyOver, IsKeyInCell};

    ghost Value = { KeyOver };

    ghost use Rattle.exact_ops.specs.Fields.{stored_matrix, stored_column};
    ghost use Rattle.affine_sets.specs.Fields.{key_in};

    ghost view = { λ a. record { key = key_in a.m a.t; over = a.over } };

    ghost invariant = { λ a. IsKeyInCell (record { key = key_in a.m a.t; over = a.over }) };

    ghost inverse = { λ k.
        record { m = stored_matrix k.key.m; t = stored_column k.key.t; over = k.over } };
}

impl Key {
    /// The matrix, row by row.
    pub fn m(&self) -> [i32; 9]
        ensures value { result ≡ entries self.now.key.m }
        // What is true of every key.
        ensures in_cell { IsKeyInCell self.now }
    {
        self.m.rows()
    }

    /// The translation.
    pub fn t(&self) -> [i32; 3]
        ensures value { result ≡ coordinates self.now.key.t }
        ensures in_cell { IsKeyInCell self.now }
    {
        self.t.numbers()
    }

    /// The number of members of the group for which it was made.
    pub fn over(&self) -> u16
        ensures value { result ≡ self.now.over }
        ensures in_cell { IsKeyInCell self.now }
    {
        self.over
    }

    /// Whether it is the same as another.
    pub fn is(&self, other: &Key) -> bool
        ensures { IsTrue result ↔ (self.now ≡ other.now) }
    {
        if self.over != other.over {
            return false;
        }
        let same = self.m == other.m;
        if same {
            return self.t == other.t;
        }
        false
    }
}
