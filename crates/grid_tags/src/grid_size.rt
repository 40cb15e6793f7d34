ghost use Rattle.std.specs.Prelude.{◌≡◌, ◌≤◌, ◌<◌, ◌↔◌, IsTrue, IsSome, IfSome, length};
ghost use Rattle.grid_tags.specs.declared.TheConstants.{MAX_POINTS};
ghost use Rattle.grid_tags.specs.Grids.{IsInGrid, IsGridInRange, IsSide, points, place_of, triple_of};

use crate::{MAX_POINTS, MAX_SIDE};
use std::marker::Model;

/// A grid: a, b and c points along the axes of a cell, each 1 to `MAX_SIDE`, and at most `MAX_POINTS` of them together.
#[derive(Clone, Copy, PartialEq, Eq, Debug, Drop)]
pub struct GridSize {
    pub a: u16,
    pub b: u16,
    pub c: u16,
}

impl Model for GridSize {
    ghost use Rattle.grid_tags.specs.Grids.{Grid, IsGridInRange};

    ghost Value = { Grid };

    ghost view = { λ s. record { a = s.a; b = s.b; c = s.c } };

    ghost invariant = { λ s. IsGridInRange (record { a = s.a; b = s.b; c = s.c }) };

    ghost inverse = { λ s. record { a = s.a; b = s.b; c = s.c } };
}

impl GridSize {
    /// The grid with these numbers. None exactly where one of them is not from 1 to `MAX_SIDE`, or there are more than
    /// `MAX_POINTS` points in a cell.
    pub fn of(a: u16, b: u16, c: u16) -> Option<GridSize>
        ensures some { IsSome result ↔ IsGridInRange (record { a = a; b = b; c = c }) }
        ensures value { IfSome result (λ size. size ≡ record { a = a; b = b; c = c }) }
    {
        if !is_side(a) || !is_side(b) || !is_side(c) {
            return None;
        }
        if usize::from(a) * usize::from(b) * usize::from(c) > MAX_POINTS as usize {
            return None;
        }
        Some(GridSize { a, b, c })
    }

    /// How many points it has in a cell.
    pub fn points(&self) -> usize
        ensures value { result ≡ points self.now }
        ensures few { result ≤ MAX_POINTS }
        // What is true of every grid.
        ensures range { IsGridInRange self.now }
    {
        usize::from(self.a) * usize::from(self.b) * usize::from(self.c)
    }

    /// The place of a point of the cell among all of them, ascending, counted from 0.
    pub fn place(&self, at: &[u16; 3]) -> usize
        requires { IsInGrid self.now (triple_of at.now) }
        ensures value { result ≡ place_of self.now (triple_of at.now) }
        ensures within { result < points self.now }
    {
        let first = usize::from(at[0]) * usize::from(self.b) + usize::from(at[1]);
        first * usize::from(self.c) + usize::from(at[2])
    }

    /// The point at a place.
    pub fn point_at(&self, place: usize) -> [u16; 3]
        requires { place < points self.now }
        ensures three { length result ≡ 3 }
        ensures within { IsInGrid self.now (triple_of result) }
        ensures value { place_of self.now (triple_of result) ≡ place }
    {
        let first = place / usize::from(self.c);
        [
            (first / usize::from(self.b)) as u16,
            (first % usize::from(self.b)) as u16,
            (place % usize::from(self.c)) as u16,
        ]
    }
}

fn is_side(n: u16) -> bool
    ensures { IsTrue result ↔ IsSide n }
{
    1 <= n && n <= MAX_SIDE
}
