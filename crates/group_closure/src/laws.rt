ghost use Rattle.std.specs.Prelude.{◌≡◌, ◌≤◌, ◌↔◌, ◌⊎◌, List, length};
ghost use Rattle.std.specs.Int.{◌∣◌};
ghost use Rattle.std.specs.List.{All, Contains};
ghost use Rattle.lattice_algebra.specs.Operator.{Operator, IsOperator, product};
ghost use Rattle.exact_ops.specs.declared.TheConstants.{UNIT};
ghost use Rattle.exact_ops.specs.Narrow.{IsNarrow};
ghost use Rattle.group_closure.specs.Words.{AreDistinct, Closes, IsUnclosed};
ghost use Rattle.group_closure.specs.GroupList.{IsGroup, IsGroupList};

use crate::MAX_OPERATORS;

/// A list has at most one group list: the members of the group that it generates, in order.
pub fn one_group_list()
    ensures { (list a b : List Operator) → IsGroupList list a → IsGroupList list b → a ≡ b }
{}

/// Lists of the same operators have the same group list, whatever their order and repeats.
pub fn same_members_same_list()
    ensures { (list other members : List Operator)
        → ((f : Operator) → Contains list f ↔ Contains other f) → IsGroupList list members
        → IsGroupList other members }
{}

/// A list closes where its group list has at most `MAX_OPERATORS` members, each narrow: an operator with no entry outside
/// -2..=2.
pub fn short_narrow_list_closes()
    ensures { (list members : List Operator) → IsGroupList list members
        → length members ≤ MAX_OPERATORS → All IsNarrow members → Closes list }
{}

/// No list is both: one that `Group::close` refuses as `Unclosed` does not close.
pub fn unclosed_never_closes()
    ensures { (list : List Operator) → IsUnclosed list → ¬ Closes list }
{}

/// Every list of operators is one or the other: it closes and has a group list, or `Group::close` refuses it.
pub fn closes_or_is_unclosed()
    ensures { (list : List Operator) → All (IsOperator UNIT) list
        → ((members : List Operator) × Closes list × IsGroupList list members) ⊎ IsUnclosed list }
{}

/// Lagrange's theorem: a list of members of a group, at least one, each once, that has the product of each two of its own, has
/// a length that divides the number of members.
pub fn members_of_a_subgroup_divide()
    ensures { (members part : List Operator) (some : Operator) → IsGroup members → AreDistinct part
        → Contains part some
        → ((f : Operator) → Contains part f → Contains members f)
        → ((f g : Operator) → Contains part f → Contains part g → Contains part (product UNIT f g))
        → length part ∣ length members }
{}
