ghost use Rattle.std.specs.Prelude.{◌≡◌, ◌≤◌, ℕ, List, length, sum};
ghost use Rattle.std.specs.List.{All, Contains};
ghost use Rattle.lattice_algebra.specs.Operator.{Operator, IsOperator, product, identity_operator};
ghost use Rattle.exact_ops.specs.declared.TheConstants.{UNIT};
ghost use Rattle.exact_ops.specs.Narrow.{IsNarrow};
ghost use Rattle.group_closure.specs.declared.TheConstants.{MAX_OPERATORS};
ghost use Rattle.group_closure.specs.Words.{Closes};
ghost use Rattle.triplet_text.specs.Lines.{lines_of, AreRead};
ghost use Rattle.space_groups.specs.Rows.{Row, IsTable};
ghost use Rattle.samples.specs.Groups.{triplets_of};
ghost use Rattle.samples.specs.Counts.{AreCounts};

/// A list closes where some set of at most `MAX_OPERATORS` narrow operators has the identity, and with each of its operators the
/// products by those of the list.
pub fn list_in_a_closed_set_closes()
    ensures { (list set : List Operator) → All (IsOperator UNIT) list → length set ≤ MAX_OPERATORS
        → All IsNarrow set → Contains set identity_operator
        → ((f g : Operator) → Contains set f → Contains list g → Contains set (product UNIT f g))
        → Closes list }
{}

/// The triplets of each of the eight groups are read, and close.
pub fn samples_close()
    ensures { (number : ℕ) → 1 ≤ number → number ≤ 8
        → (list : List Operator) × AreRead (lines_of (triplets_of number)) list × Closes list }
{}

/// The counts of the rows of a table have the number of points as their sum.
pub fn counts_have_the_number_of_points_as_sum()
    ensures { (members : List Operator) (rows : List Row) (seed n : ℕ) (counts : List ℕ)
        → IsTable UNIT members rows → AreCounts members rows seed n counts → sum counts ≡ n }
{}
