//! The type `Site`, apart from the function `site`: no module has two names that differ in a capital alone.

ghost use Rattle.std.specs.Prelude.{◌≡◌, ◌<◌, ◌≤◌, Some, length, slice_get};
ghost use Rattle.exact_ops.specs.Elements.{map_in};
ghost use Rattle.group_closure.specs.declared.TheConstants.{MAX_OPERATORS};

use exact_ops::Move;
use std::marker::Model;

/// The elements of a site-symmetry group, in the order of their operators. It is seen as the list of their maps.
#[derive(Drop)]
pub struct Site {
    pub(crate) moves: Vec<Move>,
}

impl Model for Site {
    ghost use Rattle.std.specs.Prelude.{◌≤◌, List, map, vec_len};
    ghost use Rattle.lattice_algebra.specs.Map.{Map};
    ghost use Rattle.exact_ops.specs.Elements.{map_in};
    ghost use Rattle.group_closure.specs.declared.TheConstants.{MAX_OPERATORS};

    ghost Value = { List Map };

    ghost view = { λ a. map map_in a.moves.items };

    ghost invariant = { λ a. vec_len a.moves ≤ MAX_OPERATORS };
}

impl Site {
    /// How many elements it has: the order of the site-symmetry group.
    pub fn len(&self) -> u16
        ensures value { result ≡ length self.now }
        ensures within { length self.now ≤ MAX_OPERATORS }
    {
        self.moves.len() as u16
    }

    /// The element at place k, counted from 0.
    pub fn get(&self, k: u16) -> Move
        requires { k < length self.now }
        ensures { slice_get self.now k ≡ Some (map_in result) }
    {
        self.moves[usize::from(k)]
    }
}
