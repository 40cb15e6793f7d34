ghost use Rattle.std.specs.Prelude.{◌≡◌, ◌++◌, List, sum_by};
ghost use Rattle.lattice_algebra.specs.Operator.{Operator};
ghost use Rattle.group_closure.specs.GroupList.{IsGroup};
ghost use Rattle.grid_tags.specs.declared.line.GridLine.{GridLine};
ghost use Rattle.grid_tags.specs.Grids.{Grid, Triple, IsInGrid, IsGridInRange, IsKept, points};
ghost use Rattle.grid_tags.specs.GridLists.{IsGridList, IsOnlyLineOf};
ghost use Rattle.grid_tags.specs.Walks.{Walk, IsWalk};

/// A grid that a group keeps has a grid list.
pub fn some_grid_list()
    ensures { (members : List Operator) (grid : Grid) → IsGroup members → IsGridInRange grid
        → IsKept members grid → (list : List GridLine) × IsGridList members grid list }
{}

/// It has one grid list only.
pub fn one_grid_list()
    ensures { (members : List Operator) (grid : Grid) (a b : List GridLine) → IsGroup members
        → IsGridInRange grid → IsKept members grid → IsGridList members grid a
        → IsGridList members grid b → a ≡ b }
{}

/// Every grid point of a cell is in the orbit of exactly one listed point.
pub fn one_line_of_each_orbit()
    ensures { (members : List Operator) (grid : Grid) (list : List GridLine) (p : Triple)
        → IsGroup members → IsGridInRange grid → IsKept members grid
        → IsGridList members grid list → IsInGrid grid p
        → (line : GridLine) × IsOnlyLineOf members grid list p line }
{}

/// The sizes of the orbits have the number of grid points of a cell as their sum.
pub fn sizes_of_orbits_sum_to_points()
    ensures { (members : List Operator) (grid : Grid) (list : List GridLine) → IsGroup members
        → IsGridInRange grid → IsKept members grid → IsGridList members grid list
        → sum_by (λ (line : GridLine). line.size) list ≡ points grid }
{}

/// The lines that were taken from a walk are the first of the grid list.
pub fn lines_taken_are_first()
    ensures { (members : List Operator) (walk : Walk) (taken list : List GridLine)
        → IsWalk members walk taken → IsGridList members walk.size list
        → (rest : List GridLine) × (list ≡ taken ++ rest) }
{}
