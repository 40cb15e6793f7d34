ghost use Rattle.std.specs.Prelude.{◌≡◌, ◌<◌, ◌≤◌, ◌↔◌, Some, IsSome, IfSome, length, drop, slice_get};
ghost use Rattle.std.specs.List.{Contains};
ghost use Rattle.std.specs.List.Sorted.{IsStrictlySortedBy};
ghost use Rattle.group_closure.specs.declared.TheConstants.{MAX_OPERATORS};
ghost use Rattle.group_closure.specs.Order.{operator_cmp};

use crate::order::compare;
use exact_ops::Op;
use std::cmp::Ordering;

/// The place of an operator in a list that is in order behind its first: one test of the first, then at most eight comparisons.
pub fn place_in_order(members: &[Op], op: &Op) -> Option<u8>
    requires some_member { 0 < length members.now }
    requires few { length members.now ≤ MAX_OPERATORS }
    requires sorted { IsStrictlySortedBy operator_cmp (drop 1 members.now) }
    ensures some { IsSome result ↔ Contains members.now op.now }
    ensures place { IfSome result (λ i. slice_get members.now i ≡ Some op.now) }
{
    if members[0] == *op {
        return Some(0);
    }
    let mut low = 1;
    let mut high = members.len();
    while low < high {
        let middle = (low + high) / 2;
        match compare(&members[middle], op) {
            Ordering::Less => low = middle + 1,
            Ordering::Equal => return Some(middle as u8),
            Ordering::Greater => high = middle,
        }
    }
    None
}
