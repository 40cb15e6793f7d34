ghost use Rattle.std.specs.Prelude.{◌≡◌, ◌*◌, List, length};
ghost use Rattle.lattice_algebra.specs.Map.{Map};
ghost use Rattle.lattice_algebra.specs.Point as rational;
ghost use Rattle.exact_ops.specs.Numbers.{point_in};
ghost use Rattle.exact_ops.specs.declared.TheConstants.{UNIT};
ghost use Rattle.space_groups.specs.Lists.{IsSiteList, IsOrbitList};

use exact_ops::Point;
use group_closure::Group;
use site_symmetry::order_at;

/// How many points the orbit of the point has in a cell. The order of the site-symmetry group times it is the number of
/// members of the group.
pub fn multiplicity(group: &Group, point: &Point) -> u16
    ensures value { (orbit : List rational.Point)
        → IsOrbitList UNIT group.now (point_in point.now) orbit → result ≡ length orbit }
    ensures law { (site : List Map) → IsSiteList UNIT group.now (point_in point.now) site
        → length site * result ≡ length group.now }
{
    group.len() / order_at(group, point)
}
