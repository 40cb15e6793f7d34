ghost use Rattle.std.specs.Prelude.{◌≡◌, ◌≤◌, ◌<◌, ◌↔◌, ◌*◌, ◌*ℤ◌, ℕ, ℤ, pos, ◌<ℤ◌, ◌≤ℤ◌, unsigned_abs, true, Some, slice_get};
ghost use Rattle.std.specs.Int.{IsGcd};
ghost use Rattle.exact_ops.specs.declared.TheConstants.{UNIT as PARTS};
ghost use Rattle.lattice_algebra.specs.Matrix.{entries, coordinates};
ghost use Rattle.space_groups.specs.Keys.{Key};
ghost use Rattle.parameter_forms.specs.declared.TheConstants.{MAX_MINOR, MAX_OVER};
ghost use Rattle.parameter_forms.specs.Finding.{IsKeptForm};
ghost use Rattle.parameter_forms.specs.Forms.{coordinate, entry, IsFree, IsParameterForm};

use exact_ops::{Rotation, UNIT, Vector, greatest_common_divisor};
use std::marker::Model;

/// The parameter form of a row: a matrix B and a shift s, so that the points are those `B u + s + n` for a rational u and a whole
/// n. Each coordinate of u is a free coordinate of the points, or has no coefficient.
#[derive(Clone, Copy, Drop)]
pub struct Param {
    pub(crate) b: Rotation,
    pub(crate) s: Vector,
    pub(crate) over: u32,
}

impl Model for Param {
    ghost use Rattle.parameter_forms.specs.Forms.{Form};
    ghost use Rattle.parameter_forms.specs.Finding.{IsKeptForm};

    ghost Value = { Form };

    ghost use Rattle.exact_ops.specs.Fields.{stored_matrix, stored_column};
    ghost use Rattle.parameter_forms.specs.Finding.{form_in};

    ghost view = { λ a. form_in a.b a.s a.over };

    ghost invariant = { λ a. IsKeptForm (form_in a.b a.s a.over) };

    ghost inverse = { λ f.
        record { b = stored_matrix f.b; s = stored_column f.s; over = f.over } };
}

impl Param {
    /// The matrix B, row by row, over `over`.
    pub fn b(&self) -> [i32; 9]
        ensures value { result ≡ entries self.now.b }
        // What is true of every form.
        ensures kept { IsKeptForm self.now }
    {
        self.b.rows()
    }

    /// The shift s in parts of a cell, over `over`. Each number is at least 0 and below `UNIT * over`.
    pub fn s(&self) -> [i32; 3]
        ensures value { result ≡ coordinates self.now.s }
        ensures kept { IsKeptForm self.now }
    {
        self.s.numbers()
    }

    /// The number over which the form stands.
    pub fn over(&self) -> u32
        ensures value { result ≡ self.now.over }
        ensures kept { IsKeptForm self.now }
    {
        self.over
    }

    /// Which coordinates are free, in the order x, y, z.
    pub fn free(&self) -> [bool; 3]
        ensures { (unit n : ℕ) (p : Key) (j : ℕ) → IsParameterForm unit n p self.now
            → j < 3 → (slice_get result j ≡ Some true) ↔ IsFree p.m j }
    {
        [self.b.xx != 0, self.b.yy != 0, self.b.zz != 0]
    }

    /// The coefficient of the free coordinate j in coordinate i, both counted from 0: a numerator and a positive denominator,
    /// in lowest terms.
    pub fn coef(&self, i: u8, j: u8) -> (i64, i64)
        requires row { i < 3 }
        requires column { j < 3 }
        ensures value { result.0 *ℤ pos self.now.over ≡ entry self.now.b i j *ℤ result.1 }
        ensures positive { pos 0 <ℤ result.1 }
        ensures reduced { IsGcd (unsigned_abs result.0) (unsigned_abs result.1) 1 }
        ensures small { result.1 ≤ℤ pos MAX_MINOR }
    {
        let rows = self.b.rows();
        lowest_terms(rows[usize::from(3 * i + j)], self.over)
    }

    /// The shift of coordinate i, counted from 0, in cells: a numerator and a positive denominator, in lowest terms. It is at
    /// least 0 and below 1.
    pub fn shift(&self, i: u8) -> (i64, i64)
        requires { i < 3 }
        ensures value { result.0 *ℤ pos (PARTS * self.now.over)
            ≡ coordinate self.now.s i *ℤ result.1 }
        ensures positive { pos 0 <ℤ result.1 }
        ensures reduced { IsGcd (unsigned_abs result.0) (unsigned_abs result.1) 1 }
        ensures in_cell { (pos 0 ≤ℤ result.0) × (result.0 <ℤ result.1) }
        ensures small { result.1 ≤ℤ pos (PARTS * MAX_OVER) }
    {
        let numbers = self.s.numbers();
        lowest_terms(numbers[usize::from(i)], UNIT * self.over)
    }
}

/// The fraction n / d in lowest terms.
fn lowest_terms(n: i32, d: u32) -> (i64, i64)
    requires { 0 < d }
    ensures value { result.0 *ℤ pos d ≡ n *ℤ result.1 }
    ensures positive { pos 0 <ℤ result.1 }
    ensures reduced { IsGcd (unsigned_abs result.0) (unsigned_abs result.1) 1 }
    ensures small { (k e : ℕ) (m : ℤ) → 0 < k → n ≡ pos k *ℤ m → d ≡ k * e
        → result.1 ≤ℤ pos e }
{
    let common = common_divisor(n, d);
    (i64::from(n) / common, i64::from(d) / common)
}

/// The greatest number that divides both.
fn common_divisor(n: i32, d: u32) -> i64
    requires { 0 < d }
    ensures positive { pos 0 <ℤ result }
    ensures divisor { IsGcd (unsigned_abs n) d (unsigned_abs result) }
{
    greatest_common_divisor(u128::from(n.unsigned_abs()), u128::from(d)) as i64
}
