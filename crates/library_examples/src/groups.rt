//! Groups for the tests, from triplets.

use exact_ops::{Op, OpList};
use group_closure::Group;
use std::alloc::Global;
use std::test::Fail;
use triplet_text::read_triplet;

/// F m -3 m
pub const CUBIC: [&str; 7] = [
    "x,y+1/2,z+1/2",
    "x+1/2,y,z+1/2",
    "-x,-y,z",
    "-x,y,-z",
    "z,x,y",
    "y,x,-z",
    "-x,-y,-z",
];

/// P 6/m m m
pub const HEXAGONAL: [&str; 3] = ["x-y,x,z", "y,x,-z", "-x,-y,-z"];

pub fn op_of(triplet: &str) -> Result<Op, Fail> {
    let raw = read_triplet(triplet.as_bytes()).ok_or("no triplet")?;
    Ok(Op::of(&raw)?)
}

pub fn group_of(alloc: Global, triplets: &[&str]) -> Result<Group, Fail> {
    let mut list = OpList::new(alloc);
    for triplet in triplets {
        let raw = read_triplet(triplet.as_bytes()).ok_or("no triplet")?;
        list.push(&raw)?;
    }
    Ok(Group::close(alloc, &list)?)
}
