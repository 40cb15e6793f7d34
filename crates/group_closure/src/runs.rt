//! Runs of operators with one matrix, which stand together in the order of a group.
ghost use Rattle.std.specs.Prelude.{◌≡◌, ◌<◌, ◌≤◌, ◌↔◌, IsSome, IfSome, length, negsuc};
ghost use Rattle.std.specs.Cmp.Lexicographic.{slice_cmp};
ghost use Rattle.std.specs.Ordering.{int_cmp};
ghost use Rattle.lattice_algebra.specs.Matrix.{matrix_of, entries, scaled};
ghost use Rattle.lattice_algebra.specs.Operator.{HasEntriesWithin};
ghost use Rattle.group_closure.specs.GroupList.{IsGroup};
ghost use Rattle.group_closure.specs.Runs.{AreRunEnds, AreOpposites, GoesOn, HasMatrix, IsFirstWith};

use crate::MAX_OPERATORS;
use crate::closing::Places;
use exact_ops::Op;
use std::cmp::Ordering;

/// Where the run of each member ends, from the last member to the first. The identity is a run of its own.
pub fn run_ends(members: &[Op]) -> Places
    requires { IsGroup members.now }
    ensures { AreRunEnds members.now result }
{
    let mut ends = [0; MAX_OPERATORS];
    let mut i = members.len();
    let mut end = i;
    while i > 1 {
        i -= 1;
        end = end_at(members, i, end);
        ends[i] = end as u8;
    }
    ends[0] = 1;
    ends
}

/// Where the run of the member at i ends, if that of the next ends at `end`.
fn end_at(members: &[Op], i: usize, end: usize) -> usize
    requires within { i < length members.now }
    requires few { length members.now ≤ MAX_OPERATORS }
    ensures { GoesOn members.now i end result }
{
    if i + 1 >= members.len() {
        return end;
    }
    if compare_matrix(&members[i], &members[i + 1].w()).is_eq() {
        return end;
    }
    i + 1
}

/// For each member the first place of the matrix -W, where W is its own.
pub fn opposite_runs(members: &[Op]) -> [Option<u8>; MAX_OPERATORS]
    requires { IsGroup members.now }
    ensures { AreOpposites members.now result }
{
    let mut opposites = [None; MAX_OPERATORS];
    for (i, member) in members.iter().enumerate() {
        opposites[i] = first_with(members, &opposite_of(&member.w()));
    }
    opposites
}

/// The first place of a matrix, by halving.
fn first_with(members: &[Op], matrix: &[i32; 9]) -> Option<u8>
    requires group { IsGroup members.now }
    requires rows { entries (matrix_of matrix.now) ≡ matrix.now }
    ensures some { IsSome result ↔ HasMatrix members.now (matrix_of matrix.now) }
    ensures first { IfSome result (IsFirstWith members.now (matrix_of matrix.now)) }
{
    if compare_matrix(&members[0], matrix).is_eq() {
        return Some(0);
    }
    let mut low = 1;
    let mut high = members.len();
    while low < high {
        let middle = (low + high) / 2;
        if compare_matrix(&members[middle], matrix).is_lt() {
            low = middle + 1;
        } else {
            high = middle;
        }
    }
    if low >= members.len() {
        return None;
    }
    if compare_matrix(&members[low], matrix).is_eq() {
        return Some(low as u8);
    }
    None
}

/// The matrix -W.
fn opposite_of(matrix: &[i32; 9]) -> [i32; 9]
    requires { HasEntriesWithin 2 (matrix_of matrix.now) }
    ensures { result ≡ entries (scaled (negsuc 0) (matrix_of matrix.now)) }
{
    let [xx, xy, xz, yx, yy, yz, zx, zy, zz] = *matrix;
    [-xx, -xy, -xz, -yx, -yy, -yz, -zx, -zy, -zz]
}

/// The matrix of a member beside this one: row by row, descending.
fn compare_matrix(member: &Op, matrix: &[i32; 9]) -> Ordering
    ensures { result ≡ slice_cmp int_cmp matrix.now (entries member.now.w) }
{
    matrix.cmp(&member.w())
}
