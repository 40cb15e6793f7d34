ghost use Rattle.std.specs.Prelude.{◌≡◌, ◌≢◌, ◌≤◌, ◌<ℤ◌, ◌↔◌, ◌*◌, ◌^◌, ◌+ℤ◌, ◌*ℤ◌, neg_ℤ, ℤ, pos, unsigned_abs, IsTrue, IsSome, IfSome};
ghost use Rattle.std.specs.Int.{int_rem_euclid};
ghost use Rattle.lattice_algebra.specs.Matrix.{Matrix, Column, ◌·◌, ◌·ᶜ◌, ◌+ᶜ◌, neg_column, times, det};
ghost use Rattle.lattice_algebra.specs.Operator.{AreParts, AreWithin, HasEntriesWithin, modulo};
ghost use Rattle.lattice_algebra.specs.Map.{Map, operator_of};
ghost use Rattle.exact_ops.specs.declared.TheConstants.{UNIT as PARTS, MAX_ENTRY};
ghost use Rattle.exact_ops.specs.Raw.{numbers_of};
ghost use Rattle.exact_ops.specs.Fields.{matrix_in, column_in};
ghost use Rattle.space_groups.specs.Bases.{IsChanged};
ghost use Rattle.basis_change.specs.declared.TheConstants.{MAX_CELL};
ghost use Rattle.basis_change.specs.Wide.{wide_matrix, wide_column, WIDE};
ghost use Rattle.basis_change.specs.Frames.{IsFrame, change_in, map_in, HasWholeMatrix, HasNarrowMatrix, HasMap};

use crate::generator::Generator;
use crate::quotient::part;
use crate::wide::{WideMatrix, WideVector};
use exact_ops::{Raw, Rotation, Vector};

/// A change of coordinates x -> (W x) / d + t / UNIT with its inverse: V over k is that of W.
#[derive(Clone, Copy, PartialEq, Eq, Debug, Drop)]
pub struct Frame {
    pub w: WideMatrix,
    pub v: WideMatrix,
    pub k: i64,
    pub t: WideVector,
    pub d: i64,
}

impl Frame {
    /// The change with these numbers.
    pub fn of(w: &Rotation, t: &Vector, d: u8) -> Frame
        requires within { HasEntriesWithin MAX_ENTRY (matrix_in w.now) }
        requires some { det (matrix_in w.now) ≢ pos 0 }
        requires in_cell { AreParts PARTS (column_in t.now) }
        requires denominator { (1 ≤ d) × (d ≤ MAX_CELL) }
        ensures frame { IsFrame result }
        ensures value { change_in result
            ≡ record { w = matrix_in w.now; t = column_in t.now; d = pos d } }
    {
        let determinant = w.determinant();
        let sign = sign_of(determinant);
        let wide = WideMatrix::of(w);
        Frame {
            w: wide,
            v: wide.scaled_adjugate(sign),
            k: sign * determinant,
            t: WideVector::of(t),
            d: i64::from(d),
        }
    }

    /// The changed matrix W F W^-1. None exactly where it is not whole.
    pub fn rotation(&self, f: &Rotation) -> Option<WideMatrix>
        requires frame { IsFrame self.now }
        requires narrow { HasEntriesWithin 2 (matrix_in f.now) }
        ensures some { IsSome result ↔ ((m : Matrix)
            × (m · wide_matrix self.now.w ≡ wide_matrix self.now.w · matrix_in f.now)) }
        ensures value { IfSome result (λ m. wide_matrix m · wide_matrix self.now.w
            ≡ wide_matrix self.now.w · matrix_in f.now) }
    {
        self.w
            .after(&WideMatrix::of(f))
            .after(&self.v)
            .divided(self.k)
    }

    /// Whether no entry of the changed matrix is beyond 2, where it is whole.
    pub fn stays_narrow(&self, f: &Rotation) -> bool
        requires frame { IsFrame self.now }
        requires narrow { HasEntriesWithin 2 (matrix_in f.now) }
        ensures { IsTrue result ↔ ((m : Matrix)
            → m · wide_matrix self.now.w ≡ wide_matrix self.now.w · matrix_in f.now
            → HasEntriesWithin 2 m) }
    {
        match self.rotation(f) {
            Some(m) => m.is_within(2),
            None => true,
        }
    }

    /// The column (W s) / d. None exactly where it is not whole.
    pub fn moved(&self, s: &WideVector) -> Option<WideVector>
        requires frame { IsFrame self.now }
        requires within { AreWithin PARTS s.now.x s.now.y s.now.z }
        ensures some { IsSome result ↔ ((q : Column)
            × (times self.now.d q ≡ wide_matrix self.now.w ·ᶜ wide_column s.now)) }
        ensures value { IfSome result (λ q. times self.now.d (wide_column q)
            ≡ wide_matrix self.now.w ·ᶜ wide_column s.now) }
        ensures size { IfSome result (λ q. AreWithin (3 * (WIDE * WIDE)) q.x q.y q.z) }
    {
        self.w.on(s).divided(self.d)
    }

    /// The operator of the changed map. None exactly where this is not whole, or not in parts of a cell.
    pub fn changed(&self, g: &Generator) -> Option<Raw>
        requires frame { IsFrame self.now }
        requires narrow { HasEntriesWithin 2 (matrix_in g.now.w) }
        requires within { AreWithin PARTS g.now.s.x g.now.s.y g.now.s.z }
        requires stays_narrow { HasNarrowMatrix (change_in self.now) (map_in g.now) }
        ensures some { IsSome result ↔ HasMap (change_in self.now) (map_in g.now) }
        ensures value { IfSome result (λ raw. (h : Map)
            × IsChanged (change_in self.now) (map_in g.now) h
            × (numbers_of raw.w raw.t ≡ operator_of PARTS h)) }
    {
        let m = self.rotation(&g.w)?;
        let q = self.moved(&g.s)?;
        let t = self.translation(&m, &q);
        Some(Raw {
            w: m.narrowed().rows(),
            t: t.numbers(),
        })
    }

    /// The changed translation q + t - m t, modulo the cell.
    fn translation(&self, m: &WideMatrix, q: &WideVector) -> Vector
        requires frame { IsFrame self.now }
        requires narrow { HasEntriesWithin 2 (wide_matrix m.now) }
        requires within { AreWithin (3 * (WIDE * WIDE)) q.now.x q.now.y q.now.z }
        ensures { column_in result ≡ modulo PARTS (wide_column q.now +ᶜ wide_column self.now.t
            +ᶜ neg_column (wide_matrix m.now ·ᶜ wide_column self.now.t)) }
    {
        let back = m.on(&self.t);
        Vector {
            x: place(q.x, self.t.x, back.x),
            y: place(q.y, self.t.y, back.y),
            z: place(q.z, self.t.z, back.z),
        }
    }
}

/// The sign by which n becomes positive.
fn sign_of(n: i64) -> i64
    requires { n ≢ pos 0 }
    ensures size { unsigned_abs result ≤ 1 }
    ensures positive { pos 0 <ℤ (result *ℤ n) }
{
    if n < 0 {
        return -1;
    }
    1
}

/// A number of a changed translation, modulo the cell.
fn place(moved: i64, origin: i64, back: i64) -> i32
    requires moved { unsigned_abs moved ≤ 3 * (WIDE * WIDE) }
    requires origin { unsigned_abs origin ≤ PARTS }
    requires back { unsigned_abs back ≤ 3 * (WIDE * WIDE) }
    ensures { result ≡ int_rem_euclid (moved +ℤ origin +ℤ neg_ℤ back) (pos PARTS) }
{
    part(moved + origin - back)
}
