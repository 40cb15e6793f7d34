//! The axes of a grid, as a translation moves points along them: by places, so that a point is brought to its place with no
//! division and no product.
ghost use Rattle.std.specs.Prelude.{◌≡◌, ◌≤◌, ◌<◌, ◌*◌, ◌/◌, ℕ, pos, ◌-ℤ◌};
ghost use Rattle.lattice_algebra.specs.Matrix.{column_of};
ghost use Rattle.lattice_algebra.specs.Operator.{AreParts, IsPart};
ghost use Rattle.exact_ops.specs.declared.TheConstants.{UNIT as PARTS};
ghost use Rattle.grid_tags.specs.declared.TheConstants.{MAX_POINTS};
ghost use Rattle.grid_tags.specs.Grids.{Grid, Triple, IsSide, place_of};
ghost use Rattle.grid_tags.specs.Steps.{moved, moved_coordinate};
ghost use Rattle.grid_tags.specs.Axes.{IsAxis, IsOnAxis, AreAxes, AreOnAxes};

use crate::grid_size::GridSize;
use exact_ops::UNIT;

const SHIFTS: usize = UNIT as usize;

/// An axis of a grid. A coordinate along it is held as what it adds to the place of a point: so many steps.
#[derive(Clone, Copy, Drop)]
pub struct Axis {
    /// How many places the next point along the axis is further on.
    step: i32,
    /// What the number of points along the axis would add to a place.
    whole: i32,
    /// What a translation of so many parts of a cell adds to a place, less `whole`.
    shifts: [i32; SHIFTS],
}

impl Axis {
    /// The axis with n points, which are so many places apart.
    fn of(n: u16, step: u32) -> Axis
        requires side { IsSide n }
        requires step { 1 ≤ step }
        requires few { n * step ≤ MAX_POINTS }
        ensures { IsAxis n step result }
    {
        let mut shifts = [0; SHIFTS];
        for t in 0..SHIFTS {
            shifts[t] = shift(n, step, t as u32);
        }
        Axis {
            step: step as i32,
            whole: (u32::from(n) * step) as i32,
            shifts,
        }
    }

    /// What the coordinate adds to the place of a point.
    pub fn part(&self, i: u16) -> i32
        requires { (n : ℕ) × (d : ℕ) × IsAxis n d self.now × (i < n) }
        ensures { (n d : ℕ) → IsAxis n d self.now → i < n → IsOnAxis n d self.now i result }
    {
        i32::from(i) * self.step
    }

    /// What it adds after t parts of a cell.
    fn moved(&self, part: i32, t: i32) -> i32
        requires part { IsPart PARTS t }
        requires on { (n : ℕ) × (d : ℕ) × (i : ℕ) × IsOnAxis n d self.now i part }
        ensures { (n d i : ℕ) → IsOnAxis n d self.now i part
            → result ≡ pos (moved_coordinate i t n * d) }
    {
        let sum = part + self.shifts[t as usize];
        if sum < 0 { sum + self.whole } else { sum }
    }
}

/// What t parts of a cell add to a place, less what n points do.
fn shift(n: u16, step: u32, t: u32) -> i32
    requires part { t < PARTS }
    requires few { n * step ≤ MAX_POINTS }
    ensures { result ≡ pos (t * n / PARTS * step) -ℤ pos (n * step) }
{
    let more = t * u32::from(n) / UNIT * step;
    more as i32 - (u32::from(n) * step) as i32
}

/// The three axes of a grid.
#[derive(Clone, Copy, Drop)]
pub struct Axes {
    pub x: Axis,
    pub y: Axis,
    pub z: Axis,
}

impl Axes {
    pub fn of(size: &GridSize) -> Axes
        ensures { AreAxes size.now result }
    {
        let b = u32::from(size.b);
        let c = u32::from(size.c);
        Axes {
            x: Axis::of(size.a, b * c),
            y: Axis::of(size.b, c),
            z: Axis::of(size.c, 1),
        }
    }

    /// The place of a grid point of the cell, whose coordinates add x, y and z to it, after a translation.
    pub fn place_after(&self, x: i32, y: i32, z: i32, t: &[i32; 3]) -> usize
        requires parts { AreParts PARTS (column_of t.now) }
        requires on { (s : Grid) × (p : Triple) × AreOnAxes s self.now p x y z }
        ensures { (s : Grid) (p : Triple) → AreOnAxes s self.now p x y z
            → result ≡ place_of s (moved s p (column_of t.now)) }
    {
        let place = self.x.moved(x, t[0]) + self.y.moved(y, t[1]) + self.z.moved(z, t[2]);
        place as usize
    }
}
