ghost use Rattle.std.specs.Prelude.{◌≡◌, ◌<◌, ◌≤◌, ◌↔◌, ℕ, Some, IsSome, IfSome, IfOk, OnOk, IsErrOf, length, negsuc, slice_get};
ghost use Rattle.std.specs.List.{Contains};
ghost use Rattle.lattice_algebra.specs.Matrix.{scaled};
ghost use Rattle.lattice_algebra.specs.Operator.{Operator, product, IsInverse};
ghost use Rattle.exact_ops.specs.declared.TheConstants.{UNIT};
ghost use Rattle.group_closure.specs.Words.{Closes, IsUnclosed};
ghost use Rattle.group_closure.specs.GroupList.{IsGroupList, IsGroup};
ghost use Rattle.group_closure.specs.Runs.{IsRun, HasMatrix, IsFirstWith};

use crate::MAX_OPERATORS;
use crate::closing::{Making, Places};
use crate::halving::place_in_order;
use crate::order::list_in_order;
use crate::runs::{opposite_runs, run_ends};
use crate::table::fill;
use exact_ops::{Op, OpList};
use std::alloc::Global;
use std::marker::Model;

/// Why a list has no group.
#[derive(Clone, Copy, PartialEq, Eq, Debug, Drop)]
pub enum CloseFault {
    /// It generates more than `MAX_OPERATORS` operators, or one with an entry outside -2..=2.
    Unclosed,
    /// Want of memory, which may come for any list.
    NoMemory,
}

/// The members of a group, 1 to `MAX_OPERATORS` of them: the identity first, then the others by their matrices, row by
/// row, descending, and those with one matrix by their translations, ascending. It is seen as the list of its members.
#[derive(Drop)]
pub struct Group {
    members: Vec<Op>,
    products: Vec<Places>,
    inverses: Vec<u8>,
    ends: Places,
    opposites: [Option<u8>; MAX_OPERATORS],
}

impl Model for Group {
    ghost use Rattle.std.specs.Prelude.{List};
    ghost use Rattle.lattice_algebra.specs.Operator.{Operator};
    ghost use Rattle.group_closure.specs.GroupList.{IsGroup};

    ghost Value = { List Operator };

    ghost view = { λ a. a.members.items };

    ghost use Rattle.group_closure.specs.Table.{IsProductTable, HasProductTable};

    ghost invariant = { λ a.
        HasProductTable a.members.items a.products.items a.inverses.items a.ends a.opposites };
}

impl Group {
    /// The group that the listed operators generate. `Unclosed` comes exactly where the list does not close, or in its place
    /// `NoMemory`, as for any list. All memory is taken before the first product.
    pub fn close(alloc: Global, list: &OpList) -> Result<Group, CloseFault>
        ensures ok { IfOk result (λ group. IsGroupList list.now group) }
        ensures closes { OnOk result (Closes list.now) }
        ensures unclosed { IsErrOf result CloseFault.Unclosed → IsUnclosed list.now }
    {
        let Ok(mut making) = Making::reserve(alloc) else {
            return Err(CloseFault::NoMemory);
        };
        let Ok(mut members) = Vec::with_capacity(alloc, MAX_OPERATORS) else {
            return Err(CloseFault::NoMemory);
        };
        let Ok(mut products) = Vec::with_capacity(alloc, MAX_OPERATORS) else {
            return Err(CloseFault::NoMemory);
        };
        let Ok(mut inverses) = Vec::with_capacity(alloc, MAX_OPERATORS) else {
            return Err(CloseFault::NoMemory);
        };
        let Ok(()) = making.close(list) else {
            return Err(CloseFault::Unclosed);
        };
        list_in_order(&making.members, &mut members);
        fill(&members, &making, &mut products, &mut inverses);
        let ends = run_ends(&members);
        let opposites = opposite_runs(&members);
        Ok(Group {
            members,
            products,
            inverses,
            ends,
            opposites,
        })
    }

    /// How many members it has: 1 to `MAX_OPERATORS`.
    pub fn len(&self) -> u16
        ensures value { result ≡ length self.now }
        // What is true of every group.
        ensures group { IsGroup self.now }
    {
        self.members.len() as u16
    }

    /// The member at place i, counted from 0.
    pub fn op(&self, i: u8) -> Op
        requires { i < length self.now }
        ensures value { slice_get self.now i ≡ Some result }
        ensures group { IsGroup self.now }
    {
        self.members[usize::from(i)]
    }

    /// The place of an operator. None exactly where it is no member.
    pub fn find(&self, op: &Op) -> Option<u8>
        ensures some { IsSome result ↔ Contains self.now op.now }
        ensures place { IfSome result (λ i. slice_get self.now i ≡ Some op.now) }
        // Each member has one place.
        ensures only { (i : ℕ) → slice_get self.now i ≡ Some op.now → result ≡ Some i }
    {
        place_in_order(&self.members, op)
    }

    /// The place of the product: the member at i after the member at j, its translation taken modulo the cell.
    pub fn product(&self, i: u8, j: u8) -> u8
        requires left { i < length self.now }
        requires right { j < length self.now }
        ensures within { result < length self.now }
        ensures value { (f g : Operator) → slice_get self.now i ≡ Some f
            → slice_get self.now j ≡ Some g → slice_get self.now result ≡ Some (product UNIT f g) }
    {
        self.products[usize::from(i)][usize::from(j)]
    }

    /// The place of the inverse of the member at i.
    pub fn inverse_of(&self, i: u8) -> u8
        requires { i < length self.now }
        ensures within { result < length self.now }
        ensures value { (f g : Operator) → slice_get self.now i ≡ Some f
            → slice_get self.now result ≡ Some g → IsInverse UNIT f g }
    {
        self.inverses[usize::from(i)]
    }

    /// Where the run of the member at i ends: members with one matrix stand together, but for the identity, which is a run of
    /// its own. So a walk from run to run begins at 0 and goes on at the end of each.
    pub fn run_end(&self, i: u8) -> u8
        requires { i < length self.now }
        ensures beyond { i < result }
        ensures within { result ≤ length self.now }
        ensures first { i ≡ 0 → result ≡ 1 }
        ensures run { 0 < i → IsRun self.now i result }
    {
        self.ends[usize::from(i)]
    }

    /// The first place of a member with the matrix -W, where W is the matrix of the member at i. None where there is none.
    pub fn opposite_run(&self, i: u8) -> Option<u8>
        requires { i < length self.now }
        ensures some { (f : Operator) → slice_get self.now i ≡ Some f
            → (IsSome result ↔ HasMatrix self.now (scaled (negsuc 0) f.w)) }
        ensures first { (f : Operator) → slice_get self.now i ≡ Some f
            → IfSome result (IsFirstWith self.now (scaled (negsuc 0) f.w)) }
    {
        self.opposites[usize::from(i)]
    }
}
