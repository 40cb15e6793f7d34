ghost use Rattle.std.specs.Prelude.{◌≡◌, ◌≤◌, ◌↔◌, ◌*◌, ◌^◌, ◌<ℤ◌, ℕ, IsTrue, IsSome, IfSome, unsigned_abs, pos, ◌+ℤ◌, ◌-ℤ◌, ◌*ℤ◌};
ghost use Rattle.lattice_algebra.specs.Matrix.{Matrix, Column, sum_of_products, adjugate, scaled, times, ◌·◌, ◌·ᶜ◌};
ghost use Rattle.lattice_algebra.specs.Operator.{AreWithin, HasEntriesWithin};
ghost use Rattle.exact_ops.specs.declared.TheConstants.{MAX_ENTRY};
ghost use Rattle.exact_ops.specs.Fields.{matrix_in, column_in};
ghost use Rattle.basis_change.specs.Wide.{wide_matrix, wide_column, WIDE};

use crate::quotient::quotient;
use exact_ops::{Rotation, Vector};

/// A matrix of whole numbers that comes between two operators: its entries can leave the range of theirs.
#[derive(Clone, Copy, PartialEq, Eq, Debug, Drop)]
pub struct WideMatrix {
    pub xx: i64,
    pub xy: i64,
    pub xz: i64,
    pub yx: i64,
    pub yy: i64,
    pub yz: i64,
    pub zx: i64,
    pub zy: i64,
    pub zz: i64,
}

/// Three whole numbers, a column or a row.
#[derive(Clone, Copy, PartialEq, Eq, Debug, Drop)]
pub struct WideVector {
    pub x: i64,
    pub y: i64,
    pub z: i64,
}

impl WideMatrix {
    /// The matrix with these entries.
    pub fn of(w: &Rotation) -> WideMatrix
        ensures { wide_matrix result ≡ matrix_in w.now }
    {
        WideMatrix {
            xx: i64::from(w.xx),
            xy: i64::from(w.xy),
            xz: i64::from(w.xz),
            yx: i64::from(w.yx),
            yy: i64::from(w.yy),
            yz: i64::from(w.yz),
            zx: i64::from(w.zx),
            zy: i64::from(w.zy),
            zz: i64::from(w.zz),
        }
    }

    /// Whether each entry is at most this in size.
    pub fn is_within(&self, limit: u32) -> bool
        ensures { IsTrue result ↔ HasEntriesWithin limit (wide_matrix self.now) }
    {
        if !are_within(limit, self.xx, self.xy, self.xz) {
            return false;
        }
        if !are_within(limit, self.yx, self.yy, self.yz) {
            return false;
        }
        are_within(limit, self.zx, self.zy, self.zz)
    }

    /// The matrix as that of an operator.
    #[tactic(auto, using(crate::proofs::Sizes::cast_fits))]
    pub fn narrowed(&self) -> Rotation
        requires { HasEntriesWithin 2 (wide_matrix self.now) }
        ensures { matrix_in result ≡ wide_matrix self.now }
    {
        Rotation {
            xx: self.xx as i32,
            xy: self.xy as i32,
            xz: self.xz as i32,
            yx: self.yx as i32,
            yy: self.yy as i32,
            yz: self.yz as i32,
            zx: self.zx as i32,
            zy: self.zy as i32,
            zz: self.zz as i32,
        }
    }

    /// The product: self after first.
    pub fn after(&self, first: &WideMatrix) -> WideMatrix
        requires left { HasEntriesWithin WIDE (wide_matrix self.now) }
        requires right { HasEntriesWithin WIDE (wide_matrix first.now) }
        ensures value { wide_matrix result ≡ wide_matrix self.now · wide_matrix first.now }
        ensures size { (a b : ℕ) → HasEntriesWithin a (wide_matrix self.now)
            → HasEntriesWithin b (wide_matrix first.now)
            → HasEntriesWithin (3 * (a * b)) (wide_matrix result) }
    {
        WideMatrix {
            xx: dot(self.xx, self.xy, self.xz, first.xx, first.yx, first.zx),
            xy: dot(self.xx, self.xy, self.xz, first.xy, first.yy, first.zy),
            xz: dot(self.xx, self.xy, self.xz, first.xz, first.yz, first.zz),
            yx: dot(self.yx, self.yy, self.yz, first.xx, first.yx, first.zx),
            yy: dot(self.yx, self.yy, self.yz, first.xy, first.yy, first.zy),
            yz: dot(self.yx, self.yy, self.yz, first.xz, first.yz, first.zz),
            zx: dot(self.zx, self.zy, self.zz, first.xx, first.yx, first.zx),
            zy: dot(self.zx, self.zy, self.zz, first.xy, first.yy, first.zy),
            zz: dot(self.zx, self.zy, self.zz, first.xz, first.yz, first.zz),
        }
    }

    /// The matrix times the column.
    pub fn on(&self, c: &WideVector) -> WideVector
        requires left { HasEntriesWithin WIDE (wide_matrix self.now) }
        requires right { AreWithin WIDE c.now.x c.now.y c.now.z }
        ensures value { wide_column result ≡ wide_matrix self.now ·ᶜ wide_column c.now }
        ensures size { (a b : ℕ) → HasEntriesWithin a (wide_matrix self.now)
            → AreWithin b c.now.x c.now.y c.now.z
            → AreWithin (3 * (a * b)) result.x result.y result.z }
    {
        WideVector {
            x: dot(self.xx, self.xy, self.xz, c.x, c.y, c.z),
            y: dot(self.yx, self.yy, self.yz, c.x, c.y, c.z),
            z: dot(self.zx, self.zy, self.zz, c.x, c.y, c.z),
        }
    }

    /// Sign times the adjugate.
    #[tactic(auto, using(crate::proofs::Sizes::sign_passed, crate::proofs::Sizes::entry_passed))]
    pub fn scaled_adjugate(&self, sign: i64) -> WideMatrix
        requires sign { unsigned_abs sign ≤ 1 }
        requires small { HasEntriesWithin MAX_ENTRY (wide_matrix self.now) }
        ensures value { wide_matrix result ≡ scaled sign (adjugate (wide_matrix self.now)) }
        ensures size { HasEntriesWithin WIDE (wide_matrix result) }
    {
        WideMatrix {
            xx: cofactor(sign, self.yy, self.zz, self.yz, self.zy),
            xy: cofactor(sign, self.xz, self.zy, self.xy, self.zz),
            xz: cofactor(sign, self.xy, self.yz, self.xz, self.yy),
            yx: cofactor(sign, self.yz, self.zx, self.yx, self.zz),
            yy: cofactor(sign, self.xx, self.zz, self.xz, self.zx),
            yz: cofactor(sign, self.xz, self.yx, self.xx, self.yz),
            zx: cofactor(sign, self.yx, self.zy, self.yy, self.zx),
            zy: cofactor(sign, self.xy, self.zx, self.xx, self.zy),
            zz: cofactor(sign, self.xx, self.yy, self.xy, self.yx),
        }
    }

    /// The quotient by k. None exactly where an entry is no multiple of k.
    pub fn divided(&self, k: i64) -> Option<WideMatrix>
        requires positive { pos 0 <ℤ k }
        requires small { HasEntriesWithin (3 * (WIDE * WIDE)) (wide_matrix self.now) }
        ensures some { IsSome result ↔ ((m : Matrix) × (scaled k m ≡ wide_matrix self.now)) }
        ensures value { IfSome result (λ m. scaled k (wide_matrix m) ≡ wide_matrix self.now) }
    {
        let x = divided(self.xx, self.xy, self.xz, k)?;
        let y = divided(self.yx, self.yy, self.yz, k)?;
        let z = divided(self.zx, self.zy, self.zz, k)?;
        Some(WideMatrix {
            xx: x.x,
            xy: x.y,
            xz: x.z,
            yx: y.x,
            yy: y.y,
            yz: y.z,
            zx: z.x,
            zy: z.y,
            zz: z.z,
        })
    }
}

impl WideVector {
    /// The column with these numbers.
    pub fn of(t: &Vector) -> WideVector
        ensures { wide_column result ≡ column_in t.now }
    {
        WideVector {
            x: i64::from(t.x),
            y: i64::from(t.y),
            z: i64::from(t.z),
        }
    }

    /// The quotient by k. None exactly where a number is no multiple of k.
    pub fn divided(&self, k: i64) -> Option<WideVector>
        requires positive { pos 0 <ℤ k }
        requires small { AreWithin (3 * (WIDE * WIDE)) self.now.x self.now.y self.now.z }
        ensures some { IsSome result ↔ ((c : Column) × (times k c ≡ wide_column self.now)) }
        ensures value { IfSome result (λ c. times k (wide_column c) ≡ wide_column self.now) }
        ensures size { IfSome result (λ c. AreWithin (3 * (WIDE * WIDE)) c.x c.y c.z) }
    {
        divided(self.x, self.y, self.z, k)
    }
}

/// Three numbers over k. None exactly where one of them is no multiple of k.
fn divided(a: i64, b: i64, c: i64, k: i64) -> Option<WideVector>
    requires positive { pos 0 <ℤ k }
    requires small { AreWithin (3 * (WIDE * WIDE)) a b c }
    ensures some { IsSome result ↔ ((q : Column) × (times k q ≡ record { x = a; y = b; z = c })) }
    ensures value { IfSome result (λ q. times k (wide_column q) ≡ record { x = a; y = b; z = c }) }
    ensures size { IfSome result (λ q. AreWithin (3 * (WIDE * WIDE)) q.x q.y q.z) }
{
    let x = quotient(a, k)?;
    let y = quotient(b, k)?;
    let z = quotient(c, k)?;
    Some(WideVector { x, y, z })
}

fn are_within(limit: u32, a: i64, b: i64, c: i64) -> bool
    ensures { IsTrue result ↔ AreWithin limit a b c }
{
    let limit = u64::from(limit);
    a.unsigned_abs() <= limit && b.unsigned_abs() <= limit && c.unsigned_abs() <= limit
}

/// A row times a column.
pub fn dot(a: i64, b: i64, c: i64, x: i64, y: i64, z: i64) -> i64
    requires left { AreWithin WIDE a b c }
    requires right { AreWithin WIDE x y z }
    ensures value { result ≡ sum_of_products a b c x y z }
    ensures size { (m n : ℕ) → AreWithin m a b c → AreWithin n x y z
        → unsigned_abs result ≤ 3 * (m * n) }
{
    a * x + b * y + c * z
}

/// Sign times a cofactor.
fn cofactor(sign: i64, a: i64, b: i64, c: i64, d: i64) -> i64
    requires sign { unsigned_abs sign ≤ 1 }
    requires left { (unsigned_abs a ≤ MAX_ENTRY) × (unsigned_abs b ≤ MAX_ENTRY) }
    requires right { (unsigned_abs c ≤ MAX_ENTRY) × (unsigned_abs d ≤ MAX_ENTRY) }
    ensures value { result ≡ sign *ℤ (a *ℤ b -ℤ c *ℤ d) }
    ensures size { unsigned_abs result ≤ WIDE }
{
    sign * (a * b - c * d)
}
