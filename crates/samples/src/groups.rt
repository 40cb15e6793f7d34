ghost use Rattle.std.specs.Prelude.{◌≡◌, ◌≤◌, IfOk};
ghost use Rattle.triplet_text.specs.Lines.{lines_of, AreRead};
ghost use Rattle.group_closure.specs.GroupList.{IsGroupList};
ghost use Rattle.samples.specs.Groups.{number_of as number_from, triplets_of, IsSampleGroup};

use exact_ops::{NoMemory, OpList};
use group_closure::{CloseFault, Group};
use std::alloc::Global;
use triplet_text::{LineFault, read_lines};

/// Which of the eight groups a seed asks for, counted from 1.
pub fn number_of(seed: u32) -> u8
    ensures value { result ≡ number_from seed }
    ensures some { 1 ≤ result }
    ensures few { result ≤ 8 }
{
    (seed % 8) as u8 + 1
}

/// The group of this number. Its triplets are read, and close: so there is no refusal but want of memory.
pub fn sample_group(alloc: Global, number: u8) -> Result<Group, NoMemory>
    requires some { 1 ≤ number }
    requires few { number ≤ 8 }
    ensures { IfOk result (λ group. IsSampleGroup number group) }
{
    match read_lines(alloc, triplets(number)) {
        Ok(list) => close_sample(alloc, number, &list),
        Err(LineFault::NoMemory) => Err(NoMemory),
        Err(LineFault::Unreadable(_)) => unreachable!(),
        Err(LineFault::NotUnimodular(_)) => unreachable!(),
    }
}

/// The group of what the triplets say.
fn close_sample(alloc: Global, number: u8, list: &OpList) -> Result<Group, NoMemory>
    requires some { 1 ≤ number }
    requires few { number ≤ 8 }
    requires read { AreRead (lines_of (triplets_of number)) list.now }
    ensures { IfOk result (IsGroupList list.now) }
{
    match Group::close(alloc, list) {
        Ok(group) => Ok(group),
        Err(CloseFault::NoMemory) => Err(NoMemory),
        Err(CloseFault::Unclosed) => unreachable!(),
    }
}

/// The triplets of the group of this number, one a line.
fn triplets(number: u8) -> &'static [u8]
    requires some { 1 ≤ number }
    requires few { number ≤ 8 }
    ensures { result.now ≡ triplets_of number }
{
    match number {
        1 => b"",
        2 => b"-x,-y,-z",
        3 => b"-x,y+1/2,-z+1/2\n-x,-y,-z",
        4 => b"-x+1/2,-y,z+1/2\n-x,y+1/2,-z+1/2",
        5 => b"-x,-y,z\n-x,y,-z\n-x,-y,-z",
        6 => b"-y,x-y,z",
        7 => b"x-y,x,z\ny,x,-z\n-x,-y,-z",
        _ => b"x,y+1/2,z+1/2\nx+1/2,y,z+1/2\n-x,-y,z\n-x,y,-z\nz,x,y\ny,x,-z\n-x,-y,-z",
    }
}
