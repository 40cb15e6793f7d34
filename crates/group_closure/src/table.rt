//! The table of all products of a group, from the products that making its members took: a member that was made later is an
//! earlier one times a generator, so that each row is found by reading alone.
ghost use Rattle.std.specs.Prelude.{◌≡◌, ◌<◌, ◌≤◌, ◌↔◌, ℕ, [], Some, IsSome, IfOk, OnOk, OnErr, length, drop, slice_get, slice_index, vec_len, vec_capacity, IsPermutation, IsSorted};
ghost use Rattle.std.specs.List.{All, Contains};
ghost use Rattle.std.specs.List.Sorted.{IsStrictlySortedBy};
ghost use Rattle.lattice_algebra.specs.Operator.{Operator};
ghost use Rattle.group_closure.specs.Words.{AreDistinct};
ghost use Rattle.group_closure.specs.GroupList.{IsGroup};
ghost use Rattle.group_closure.specs.Order.{operator_cmp};
ghost use Rattle.group_closure.specs.Making.{IsMade};
ghost use Rattle.group_closure.specs.Table.{AreRanks, IsTableRow, IsProductTable};

use crate::MAX_OPERATORS;
use crate::closing::{Making, Places, place_among};
use crate::halving::place_in_order;
use exact_ops::Op;

/// Fills the rows of the table, and the places of the inverses.
pub fn fill(members: &[Op], making: &Making, table: &mut Vec<Places>, inverses: &mut Vec<u8>)
    requires made { IsMade making.now }
    requires group { IsGroup members.now }
    requires same { IsPermutation making.now.members.items members.now }
    requires empty { table.old.items ≡ [] }
    requires empty_inverses { inverses.old.items ≡ [] }
    requires room { MAX_OPERATORS ≤ vec_capacity table.old }
    requires room_inverses { MAX_OPERATORS ≤ vec_capacity inverses.old }
    ensures { IsProductTable members.now table.new.items inverses.new.items (length members.now) }
{
    let ranks = ranks_of(members, &making.members);
    for member in members {
        let place = place_among(&making.members, member).unwrap();
        let row = row_of(members, making, &ranks, place);
        inverses.push_reserved(place_of_identity(&row, members.len()));
        table.push_reserved(row);
    }
}

/// The places in order of operators that were made in another order.
fn ranks_of(members: &[Op], made: &[Op]) -> Places
    requires group { IsGroup members.now }
    requires few { length made.now ≤ MAX_OPERATORS }
    requires all { All (Contains members.now) made.now }
    ensures { AreRanks made.now members.now result }
{
    let mut ranks = [0; MAX_OPERATORS];
    for (c, op) in made.iter().enumerate() {
        ranks[c] = place_in_order(members, op).unwrap();
    }
    ranks
}

/// The row of the member that was made at this place.
fn row_of(members: &[Op], making: &Making, ranks: &Places, place: u8) -> Places
    requires made { IsMade making.now }
    requires group { IsGroup members.now }
    requires ranks { AreRanks making.now.members.items members.now ranks.now }
    requires same { IsPermutation making.now.members.items members.now }
    requires within { place < length members.now }
    ensures { (f : Operator) → slice_get making.now.members.items place ≡ Some f
        → IsTableRow f members.now result }
{
    let mut found = beginning_with(place);
    let mut row = beginning_with(ranks[usize::from(place)]);
    for c in 1..members.len() {
        let origin = making.origins[c];
        let earlier = usize::from(found[usize::from(origin.earlier)]);
        let product = making.products[earlier][usize::from(origin.generator)];
        found[c] = product;
        row[usize::from(ranks[c])] = ranks[usize::from(product)];
    }
    row
}

/// Places of which only the first is known.
fn beginning_with(first: u8) -> Places
    ensures first { slice_index result 0 ≡ first }
    ensures size { length result ≡ MAX_OPERATORS }
{
    let mut places = [0; MAX_OPERATORS];
    places[0] = first;
    places
}

/// Where the identity stands in a row: the place of the inverse.
fn place_of_identity(row: &Places, len: usize) -> u8
    requires few { len ≤ MAX_OPERATORS }
    requires some { (k : ℕ) × (k < len) × (slice_index row.now k ≡ 0) }
    ensures within { result < len }
    ensures value { slice_index row.now result ≡ 0 }
{
    for (k, place) in row[..len].iter().enumerate() {
        if *place == 0 {
            return k as u8;
        }
    }
    0
}
