ghost use Rattle.std.specs.Prelude.{◌≡◌, ◌≤◌, ◌<◌, ◌+◌, ◌*◌, ◌↔◌, ℕ, IsTrue, IsSome, IfSome, unsigned_abs};
ghost use Rattle.phase_rules.specs.Rows.{Row, row_of};
ghost use Rattle.reflections.specs.declared.TheConstants.{MAX_HALF, MAX_PLACES};
ghost use Rattle.reflections.specs.Boxes.{IsInBox, IsBoxInRange, width, places, steps_down, place_of};

use crate::{MAX_HALF, MAX_PLACES};
use phase_rules::Index;
use std::marker::Model;

/// All indices whose numbers are at most these in size. Each is at most `MAX_HALF`, and the indices are at most `MAX_PLACES`.
#[derive(Clone, Copy, PartialEq, Eq, Debug, Drop)]
pub struct BoxSize {
    pub h: u16,
    pub k: u16,
    pub l: u16,
}

impl Model for BoxSize {
    ghost use Rattle.reflections.specs.Boxes.{Box, IsBoxInRange};

    ghost Value = { Box };

    ghost view = { λ a. record { h = a.h; k = a.k; l = a.l } };

    ghost invariant = { λ a. IsBoxInRange (record { h = a.h; k = a.k; l = a.l }) };

    ghost inverse = { λ b. record { h = b.h; k = b.k; l = b.l } };
}

impl BoxSize {
    /// The box with these numbers. None exactly where one of them is above `MAX_HALF`, or the box has more than `MAX_PLACES` indices.
    pub fn of(h: u16, k: u16, l: u16) -> Option<BoxSize>
        ensures some { IsSome result ↔ IsBoxInRange (record { h = h; k = k; l = l }) }
        ensures value { IfSome result (λ size. size ≡ record { h = h; k = k; l = l }) }
    {
        if h > MAX_HALF || k > MAX_HALF || l > MAX_HALF {
            return None;
        }
        if width(h) * width(k) * width(l) > MAX_PLACES as usize {
            return None;
        }
        Some(BoxSize { h, k, l })
    }

    /// How many indices it has.
    pub fn places(&self) -> usize
        ensures value { result ≡ places self.now }
        ensures few { result ≤ MAX_PLACES }
    {
        width(self.h) * width(self.k) * width(self.l)
    }

    /// Whether the row is in the box.
    pub fn holds(&self, row: &[i32; 3]) -> bool
        ensures { IsTrue result ↔ IsInBox self.now (row_of row.now) }
    {
        is_within(self.h, row[0]) && is_within(self.k, row[1]) && is_within(self.l, row[2])
    }

    /// The place of a row of the box among all of them, descending, counted from 0.
    pub fn place(&self, row: &[i32; 3]) -> usize
        requires { IsInBox self.now (row_of row.now) }
        ensures value { result ≡ place_of self.now (row_of row.now) }
        ensures within { result < places self.now }
    {
        let first = steps_down(self.h, row[0]) * width(self.k) + steps_down(self.k, row[1]);
        first * width(self.l) + steps_down(self.l, row[2])
    }

    /// The index at a place.
    pub fn index_at(&self, place: usize) -> Index
        requires { place < places self.now }
        ensures within { IsInBox self.now result }
        ensures value { place_of self.now result ≡ place }
    {
        let first = place / width(self.l);
        Index {
            h: down(self.h, first / width(self.k)),
            k: down(self.k, first % width(self.k)),
            l: down(self.l, place % width(self.l)),
        }
    }
}

fn width(n: u16) -> usize
    ensures { result ≡ width n }
{
    2 * usize::from(n) + 1
}

fn is_within(n: u16, x: i32) -> bool
    ensures { IsTrue result ↔ (unsigned_abs x ≤ n) }
{
    x.unsigned_abs() <= u32::from(n)
}

/// How many steps lead down from n to x.
fn steps_down(n: u16, x: i32) -> usize
    requires { unsigned_abs x ≤ n }
    ensures value { result ≡ steps_down n x }
    ensures within { result < width n }
{
    (i32::from(n) - x) as usize
}

/// The number so many steps down from n.
fn down(n: u16, steps: usize) -> i32
    requires { steps < width n }
    ensures within { unsigned_abs result ≤ n }
    ensures value { steps_down n result ≡ steps }
{
    i32::from(n) - steps as i32
}
