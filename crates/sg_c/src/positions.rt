//! The table of Wyckoff positions, and the rows that points fit.
ghost use Rattle.std.specs.Prelude.{◌≡◌, ◌≢◌, ◌⊎◌, ◌<◌, ◌↔◌, Some, None, List, length, slice_get, IsTrue, IfSome};
ghost use Rattle.exact_ops.specs.declared.TheConstants.{UNIT};
ghost use Rattle.space_groups.specs.Rows as shown;
ghost use Rattle.space_groups.specs.Rows.{IsRowList};
ghost use Rattle.sg_c.specs.Arrays.{AreAnswers, IsEachAnswered};
ghost use Rattle.sg_c.specs.Positions.{IsRowAs, IsRowCount, IsNoRowCount, AreRowsAs, IsPlaceOf};
ghost use Rattle.sg_c.specs.Questions.{IsPointInRange};
ghost use Rattle.sg_c.specs.declared.TheConstants.{EMPTY, NO_MEMORY, WRONG_COUNT};

use crate::arrays::{Asking, answer_each, refusal};
use crate::handle::Handle;
use crate::questions::{Coordinates, point_of};
use crate::{EMPTY, NO_MEMORY, WRONG_COUNT};
use group_closure::Group;
use std::alloc::Global;
use wyckoff_rows::fit;
use wyckoff_rows::parts::Rows;

/// A row of the table: how many points an orbit has in a cell, and the key, a matrix row by row and a translation in parts of a
/// cell, both over the number of members.
#[repr(C)]
#[derive(Clone, Copy)]
pub struct Position {
    pub m: [i32; 9],
    pub t: [i32; 3],
    pub multiplicity: u16,
}

fn position_at(rows: &Rows, place: usize) -> Position
    requires { place < length rows.now }
    ensures { (row : shown.Row) → slice_get rows.now place ≡ Some row → IsRowAs row result }
{
    let row = rows.get(place);
    Position {
        m: row.key.m(),
        t: row.key.t(),
        multiplicity: row.mult,
    }
}

/// Writes each row at its place.
fn write_rows(rows: &Rows, positions: &mut [Position])
    requires { length positions.old ≡ length rows.now }
    ensures { AreAnswers IsRowAs rows.now positions.new }
{
    for i in 0..positions.len() {
        positions[i] = position_at(rows, i);
    }
}

/// Writes how many rows the table of the group has.
#[unsafe(no_mangle)]
pub extern "C" fn sg_rows_count(alloc: Global, group: &mut Handle, count: &mut usize) -> u8
    ensures empty { (result ≡ EMPTY) ↔ (group.old.group ≡ None) }
    ensures value { result ≡ 0 → IfSome group.old.group (λ members. IsRowCount members count.new) }
    ensures unwritten { result ≢ 0 → count.new ≡ count.old }
    ensures no_other { (result ≡ 0) ⊎ ((result ≡ EMPTY) ⊎ (result ≡ NO_MEMORY)) }
    ensures same { group.new.group ≡ group.old.group }
{
    let Some(mut held) = group.take(alloc) else {
        return EMPTY;
    };
    let Ok(rows) = held.take_rows(alloc) else {
        group.put(held);
        return NO_MEMORY;
    };
    *count = rows.len();
    held.put_rows(rows);
    group.put(held);
    0
}

/// Writes the rows of the table of the group.
#[unsafe(no_mangle)]
pub extern "C" fn sg_rows(alloc: Global, group: &mut Handle, positions: &mut [Position]) -> u8
    ensures empty { (result ≡ EMPTY) ↔ (group.old.group ≡ None) }
    ensures wrong_count { result ≡ WRONG_COUNT
        → IfSome group.old.group (λ members. IsNoRowCount members (length positions.old)) }
    ensures value { result ≡ 0
        → IfSome group.old.group (λ members. AreRowsAs members positions.new) }
    ensures unwritten { result ≢ 0 → positions.new ≡ positions.old }
    ensures no_other { (result ≡ 0) ⊎ ((result ≡ EMPTY) ⊎ ((result ≡ WRONG_COUNT) ⊎ (result ≡ NO_MEMORY))) }
    ensures same { group.new.group ≡ group.old.group }
{
    let Some(mut held) = group.take(alloc) else {
        return EMPTY;
    };
    let Ok(rows) = held.take_rows(alloc) else {
        group.put(held);
        return NO_MEMORY;
    };
    if rows.len() != positions.len() {
        held.put_rows(rows);
        group.put(held);
        return WRONG_COUNT;
    }
    write_rows(&rows, positions);
    held.put_rows(rows);
    group.put(held);
    0
}

/// Asks for the rows that points fit.
#[derive(Clone, Copy)]
struct AskFit<'a> {
    rows: &'a Rows,
}

impl<'a> Asking for AskFit<'a> {
    type Question = Coordinates;

    type Answer = usize;

    ghost can_ask = { IsPointInRange };

    ghost is_answer = { λ asking. IsPlaceOf };

    ghost suits = { λ asking members. IsRowList UNIT members asking.rows.now };

    fn can_ask(point: &Coordinates) -> bool
        ensures { IsTrue result ↔ IsPointInRange point.now }
    {
        point_of(point).is_some()
    }

    fn answer(&self, group: &Group, point: &Coordinates) -> usize {
        fit(self.rows, group, &point_of(point).unwrap())
    }
}

/// Writes the place of the one row that each point fits, counted from 0, at its place.
#[unsafe(no_mangle)]
pub extern "C" fn sg_fit(
    alloc: Global,
    group: &mut Handle,
    points: &[Coordinates],
    places: &mut [usize],
    bad: &mut usize,
) -> u8
    ensures answered { result ≢ NO_MEMORY → IsEachAnswered IsPointInRange IsPlaceOf
        group.old.group points.now places.old places.new bad.old bad.new result }
    ensures no_memory { result ≡ NO_MEMORY → (places.new ≡ places.old) × (bad.new ≡ bad.old) }
    ensures same { group.new.group ≡ group.old.group }
{
    if let Some(status) = refusal::<AskFit>(points, places.len(), bad) {
        return status;
    }
    let Some(mut held) = group.take(alloc) else {
        return EMPTY;
    };
    let Ok(rows) = held.take_rows(alloc) else {
        group.put(held);
        return NO_MEMORY;
    };
    answer_each(&AskFit { rows: &rows }, held.group(), points, places);
    held.put_rows(rows);
    group.put(held);
    0
}
