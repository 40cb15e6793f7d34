ghost use Rattle.std.specs.Prelude.{◌≡◌, ◌<◌, ◌≤◌, [], length, drop, vec_capacity, slice_get, IsPermutation, IsSorted};
ghost use Rattle.group_closure.specs.Order.{operator_cmp};

use exact_ops::Op;
use std::cmp::Ordering;

/// Fills `members` with these operators in order, but with the first first.
pub fn list_in_order(made: &[Op], members: &mut Vec<Op>)
    requires some { 0 < length made.now }
    requires empty { members.old.items ≡ [] }
    requires room { length made.now ≤ vec_capacity members.old }
    ensures permutation { IsPermutation made.now members.new.items }
    ensures first { slice_get members.new.items 0 ≡ slice_get made.now 0 }
    ensures sorted { IsSorted operator_cmp (drop 1 members.new.items) }
{
    for op in made {
        members.push_reserved(*op);
    }
    sort_after_first(members);
}

/// Sorts all but the first.
fn sort_after_first(ops: &mut [Op])
    requires { 0 < length ops.old }
    ensures permutation { IsPermutation ops.old ops.new }
    ensures first { slice_get ops.new 0 ≡ slice_get ops.old 0 }
    ensures sorted { IsSorted operator_cmp (drop 1 ops.new) }
{
    ops[1..].sort_unstable_by(|a, b| compare(a, b));
}

/// The matrices row by row, descending, then the translations, ascending.
pub fn compare(a: &Op, b: &Op) -> Ordering
    ensures { result ≡ operator_cmp a.now b.now }
{
    b.w().cmp(&a.w()).then(a.t().cmp(&b.t()))
}
