ghost use Rattle.std.specs.Prelude.{◌≡◌, ◌↔◌, ℕ, List, length};
ghost use Rattle.lattice_algebra.specs.Operator.{Operator};
ghost use Rattle.lattice_algebra.specs.Point.{Point, IsPoint};
ghost use Rattle.exact_ops.specs.declared.TheConstants.{UNIT};
ghost use Rattle.group_closure.specs.GroupList.{IsGroup};
ghost use Rattle.space_groups.specs.Space.{IsInOrbit, AreConjugate};
ghost use Rattle.space_groups.specs.Lists.{IsOrbitList};
ghost use Rattle.space_groups.specs.Rows.{Row, Fits, IsAt, IsTable, IsRowList};
ghost use Rattle.wyckoff_rows.specs.Table.{IsTableOf};
ghost use Rattle.wyckoff_rows.specs.Laws.{IsOnlyPlaceOf, IsPlaceOfBoth, general_row};

/// A group has one row list at most: its rows are a function of the group.
pub fn one_row_list()
    ensures { (members : List Operator) (a b : List Row) → IsRowList UNIT members a
        → IsRowList UNIT members b → a ≡ b }
{}

/// Every group has a row list.
pub fn some_row_list()
    ensures { (members : List Operator) → IsGroup members
        → (rows : List Row) × IsRowList UNIT members rows }
{}

/// The row list of a group is a table of its Wyckoff positions.
pub fn row_list_is_a_table()
    ensures { (members : List Operator) (rows : List Row) → IsGroup members
        → IsRowList UNIT members rows → IsTable UNIT members rows }
{}

/// The row list of a group is the one list that is a table and whose rows are those of averages.
pub fn row_list_by_averages()
    ensures { (members : List Operator) (rows : List Row) → IsGroup members
        → (IsRowList UNIT members rows ↔ IsTableOf members rows) }
{}

/// Each rational point fits the row at one place of a table, and at no other.
pub fn one_row_of_each_point()
    ensures { (members : List Operator) (rows : List Row) (x : Point) → IsTable UNIT members rows
        → IsPoint x → (k : ℕ) × IsOnlyPlaceOf members rows x k }
{}

/// Two rational points fit one row of a table exactly where they are conjugate.
pub fn one_row_of_conjugate_points()
    ensures { (members : List Operator) (rows : List Row) (x y : Point)
        → IsTable UNIT members rows → IsPoint x → IsPoint y
        → (((k : ℕ) × IsPlaceOfBoth members rows x y k) ↔ AreConjugate UNIT members x y) }
{}

/// The points of one orbit fit one row of a table.
pub fn one_row_of_each_orbit()
    ensures { (members : List Operator) (rows : List Row) (x p : Point) → IsGroup members
        → IsTable UNIT members rows → IsPoint x → IsPoint p → IsInOrbit UNIT members x p
        → (k : ℕ) × IsPlaceOfBoth members rows x p k }
{}

/// Where a rational point fits a row, its orbit has as many points in a cell as the row says.
pub fn multiplicity_counts_the_orbit()
    ensures { (members : List Operator) (row : Row) (x : Point) (orbit : List Point)
        → IsGroup members → IsPoint x → Fits UNIT members row x → IsOrbitList UNIT members x orbit
        → length orbit ≡ row.mult }
{}

/// The first row of a row list is the general position: as many points as operators, M the identity and t zero. No other row has
/// as many points.
pub fn first_row_is_the_general_position()
    ensures first { (members : List Operator) (rows : List Row) → IsGroup members
        → IsRowList UNIT members rows → IsAt rows 0 (general_row (length members)) }
    ensures only { (members : List Operator) (rows : List Row) (k : ℕ) (row : Row) → IsGroup members
        → IsRowList UNIT members rows → IsAt rows k row → row.mult ≡ length members → k ≡ 0 }
{}
