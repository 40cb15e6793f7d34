//! The type `Orbit`, apart from the function `orbit`: no module has two names that differ in a capital alone.

ghost use Rattle.std.specs.Prelude.{◌≡◌, ◌<◌, ◌≤◌, Some, length, slice_get};
ghost use Rattle.exact_ops.specs.Numbers.{point_in};
ghost use Rattle.group_closure.specs.declared.TheConstants.{MAX_OPERATORS};

use exact_ops::Point;
use std::marker::Model;

/// The points of an orbit in the cell, ascending by their coordinates. It is seen as the list of the rational points.
#[derive(Drop)]
pub struct Orbit {
    pub(crate) points: Vec<Point>,
}

impl Model for Orbit {
    ghost use Rattle.std.specs.Prelude.{◌≤◌, List, map, vec_len};
    ghost use Rattle.lattice_algebra.specs.Point as rational;
    ghost use Rattle.exact_ops.specs.Numbers.{point_in};
    ghost use Rattle.group_closure.specs.declared.TheConstants.{MAX_OPERATORS};

    ghost Value = { List rational.Point };

    ghost view = { λ a. map point_in a.points.items };

    ghost invariant = { λ a. vec_len a.points ≤ MAX_OPERATORS };
}

impl Orbit {
    /// How many points it has: the multiplicity.
    pub fn len(&self) -> u16
        ensures value { result ≡ length self.now }
        ensures within { length self.now ≤ MAX_OPERATORS }
    {
        self.points.len() as u16
    }

    /// The point at place k, counted from 0.
    pub fn get(&self, k: u16) -> Point
        requires { k < length self.now }
        ensures { slice_get self.now k ≡ Some (point_in result) }
    {
        self.points[usize::from(k)]
    }
}
