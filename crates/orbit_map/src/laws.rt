ghost use Rattle.std.specs.Prelude.{◌≡◌, ◌*◌, List, length};
ghost use Rattle.lattice_algebra.specs.Operator.{Operator};
ghost use Rattle.lattice_algebra.specs.Map.{Map};
ghost use Rattle.lattice_algebra.specs.Point.{Point, IsPoint};
ghost use Rattle.exact_ops.specs.declared.TheConstants.{UNIT};
ghost use Rattle.group_closure.specs.GroupList.{IsGroup};
ghost use Rattle.space_groups.specs.Lists.{IsSiteList, IsOrbitList};
ghost use Rattle.orbit_map.specs.OrderedOrbit.{IsScaled, IsOrderedOrbit};

/// For every rational point the order of the site-symmetry group times the number of points of the orbit in a cell is
/// the number of members of the group.
pub fn order_times_multiplicity()
    ensures { (members : List Operator) (x : Point) (site : List Map) (orbit : List Point)
        → IsGroup members → IsPoint x → IsSiteList UNIT members x site
        → IsOrbitList UNIT members x orbit → length site * length orbit ≡ length members }
{}

/// Each rational point has an orbit in the cell.
pub fn some_orbit()
    ensures { (members : List Operator) (x : Point) → IsGroup members → IsPoint x
        → (orbit : List Point) × IsOrbitList UNIT members x orbit }
{}

/// Each rational point whose denominator is a positive multiple of `UNIT` has an orbit over that denominator, in order.
pub fn orbit_of_point()
    ensures { (members : List Operator) (x : Point) → IsGroup members → IsScaled x
        → (orbit : List Point) × IsOrderedOrbit members x orbit }
{}

/// A rational point has one such orbit only.
pub fn one_ordered_orbit()
    ensures { (members : List Operator) (x : Point) (a b : List Point) → IsGroup members → IsPoint x
        → IsOrderedOrbit members x a → IsOrderedOrbit members x b → a ≡ b }
{}
