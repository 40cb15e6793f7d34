ghost use Rattle.std.specs.Prelude.{◌≡◌, ◌≢◌, ◌↔◌, ◌≤◌, None, Some, List, IfSome, IsNone, length, slice_get, MatchResult};
ghost use Rattle.lattice_algebra.specs.Operator as lattice;
ghost use Rattle.sg_cli.specs.declared.words.Input.TheVariants.{Operators};
ghost use Rattle.sg_cli.specs.Run.{IsGroupOf};
ghost use Rattle.sg_c.specs.Groups.{IsClosingFault, IsRefusedAs, line_of};
ghost use Rattle.sg_c.specs.Members.{IsOperatorOf, IsOperatorAt};
ghost use Rattle.sg_c.specs.declared.TheConstants.{OUT_OF_RANGE, EMPTY};

use crate::handle::Handle;
use crate::kept::Kept;
use crate::{EMPTY, OUT_OF_RANGE};
use exact_ops::Op;
use group_closure::Group;
use sg_cli::{Fault, MAX_INPUT};
use std::alloc::Global;
use triplet_text::read_lines;

/// An operator: the matrix, row by row, and the translation, in parts of a cell.
#[repr(C)]
#[derive(Clone, Copy)]
pub struct Operator {
    pub w: [i32; 9],
    pub t: [i32; 3],
}

impl Operator {
    /// The numbers of a member.
    pub fn of(member: &Op) -> Operator
        ensures { IsOperatorOf member.now result }
    {
        Operator {
            w: member.w(),
            t: member.t(),
        }
    }
}

/// The group that the operators of the input generate. The input is as that of the program: a triplet a line.
fn close_text(alloc: Global, text: &[u8]) -> Result<Box<Kept>, Fault>
    ensures { MatchResult result (λ group. IsGroupOf Operators text.now group.value)
        (IsClosingFault text.now) }
{
    if text.len() > MAX_INPUT as usize {
        return Err(Fault::TooLong);
    }
    let list = read_lines(alloc, text)?;
    let group = Group::close(alloc, &list)?;
    match Box::new(alloc, Kept::new(group)) {
        Ok(group) => Ok(group),
        Err(_) => Err(Fault::NoMemory),
    }
}

/// Closes the operators of the input to a group, which the handle then holds, and gives status 0. Otherwise it holds none, and
/// the status is that of the fault, with the number of the line that it names, or 0. A group that it held before is freed.
#[unsafe(no_mangle)]
pub extern "C" fn sg_group_close(
    alloc: Global,
    text: &[u8],
    group: &mut Handle,
    line: &mut u32,
) -> u8
    ensures group { result ≡ 0 → (members : List lattice.Operator)
        × (group.new.group ≡ Some members) × IsGroupOf Operators text.now members }
    ensures refused { result ≢ 0 → IsRefusedAs text.now result line.new }
    ensures none { result ≢ 0 → group.new.group ≡ None }
    ensures no_line { result ≡ 0 → line.new ≡ 0 }
{
    drop(group.take(alloc));
    match close_text(alloc, text) {
        Ok(closed) => {
            group.put(closed);
            *line = 0;
            0
        }
        Err(fault) => {
            *line = line_of(fault);
            fault.status()
        }
    }
}

fn line_of(fault: Fault) -> u32
    ensures { result ≡ line_of fault }
{
    match fault {
        Fault::Unreadable(line) | Fault::NotUnimodular(line) => line,
        _ => 0,
    }
}

/// Frees the group that the handle holds. It then holds none.
#[unsafe(no_mangle)]
pub extern "C" fn sg_group_free(alloc: Global, group: &mut Handle)
    ensures { group.new.group ≡ None }
{
    drop(group.take(alloc));
}

/// How many operators the group has, or 0 where the handle holds none.
#[unsafe(no_mangle)]
pub extern "C" fn sg_group_order(alloc: Global, group: &mut Handle) -> u16
    ensures none { group.old.group ≡ None → result ≡ 0 }
    ensures value { IfSome group.old.group (λ members. result ≡ length members) }
    ensures same { group.new.group ≡ group.old.group }
{
    let Some(held) = group.take(alloc) else {
        return 0;
    };
    let order = held.group().len();
    group.put(held);
    order
}

fn operator_at(group: &Group, place: u32) -> Option<Operator>
    ensures none { IsNone result ↔ length group.now ≤ place }
    ensures value { IfSome result (IsOperatorAt group.now place) }
{
    if place >= u32::from(group.len()) {
        return None;
    }
    let member = group.op(place as u8);
    Some(Operator::of(&member))
}

/// Writes the operator at this place, counted from 0.
#[unsafe(no_mangle)]
pub extern "C" fn sg_group_operator(
    alloc: Global,
    group: &mut Handle,
    place: u32,
    op: &mut Operator,
) -> u8
    ensures empty { (result ≡ EMPTY) ↔ (group.old.group ≡ None) }
    ensures range { IfSome group.old.group (λ members.
        (result ≡ OUT_OF_RANGE) ↔ (length members ≤ place)) }
    ensures value { result ≡ 0
        → IfSome group.old.group (λ members. IsOperatorAt members place op.new) }
    ensures otherwise { result ≢ 0 → result ≢ OUT_OF_RANGE → result ≡ EMPTY }
    ensures unwritten { result ≢ 0 → op.new ≡ op.old }
    ensures same { group.new.group ≡ group.old.group }
{
    let Some(held) = group.take(alloc) else {
        return EMPTY;
    };
    let found = operator_at(held.group(), place);
    group.put(held);
    match found {
        Some(found) => {
            *op = found;
            0
        }
        None => OUT_OF_RANGE,
    }
}
