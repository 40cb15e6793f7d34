ghost use Rattle.std.specs.Prelude.{◌≡◌, ◌≤◌, ◌↔◌, ◌*◌, ◌-◌, ◌^◌, ℕ, IsTrue, unsigned_abs, pos, ◌+ℤ◌, ◌-ℤ◌, ◌*ℤ◌};
ghost use Rattle.std.specs.Int.{int_div_euclid, int_rem_euclid};
ghost use Rattle.lattice_algebra.specs.Matrix.{sum_of_products, entries, matrix_of, column_of, coordinates, det, adjugate, scaled, neg_column, times, IsUnimodular, ◌·◌, ◌·ᶜ◌, ◌+ᶜ◌};
ghost use Rattle.lattice_algebra.specs.Operator.{modulo, IsPart, AreParts, AreWithin, HasEntriesWithin};
ghost use Rattle.exact_ops.specs.declared.TheConstants.{MAX_ENTRY};
ghost use Rattle.exact_ops.specs.Fields.{matrix_in, column_in};

use crate::UNIT;

/// The rotation part of an operator, and what is computed on the way to one: any matrix of whole numbers. The entry `xy` stands
/// in the row x and the column y.
#[derive(Clone, Copy, PartialEq, Eq, Debug, Drop)]
pub struct Rotation {
    pub xx: i32,
    pub xy: i32,
    pub xz: i32,
    pub yx: i32,
    pub yy: i32,
    pub yz: i32,
    pub zx: i32,
    pub zy: i32,
    pub zz: i32,
}

/// Three whole numbers: the translation part of an operator, in parts of a cell, or a direction, in multiples of the basis.
#[derive(Clone, Copy, PartialEq, Eq, Debug, Drop)]
pub struct Vector {
    pub x: i32,
    pub y: i32,
    pub z: i32,
}

impl Rotation {
    /// The identity matrix.
    pub const IDENTITY: Rotation = Rotation {
        xx: 1,
        xy: 0,
        xz: 0,
        yx: 0,
        yy: 1,
        yz: 0,
        zx: 0,
        zy: 0,
        zz: 1,
    };

    /// The matrix with these entries, row by row.
    pub fn of(rows: &[i32; 9]) -> Rotation
        ensures { matrix_in result ≡ matrix_of rows.now }
    {
        Rotation {
            xx: rows[0],
            xy: rows[1],
            xz: rows[2],
            yx: rows[3],
            yy: rows[4],
            yz: rows[5],
            zx: rows[6],
            zy: rows[7],
            zz: rows[8],
        }
    }

    /// Its entries, row by row.
    pub fn rows(&self) -> [i32; 9]
        ensures { result ≡ entries (matrix_in self.now) }
    {
        [
            self.xx, self.xy, self.xz, self.yx, self.yy, self.yz, self.zx, self.zy, self.zz,
        ]
    }

    /// Whether each entry is at most this in size.
    pub fn is_within(&self, limit: u32) -> bool
        ensures { IsTrue result ↔ HasEntriesWithin limit (matrix_in self.now) }
    {
        if !are_within(limit, self.xx, self.xy, self.xz) {
            return false;
        }
        if !are_within(limit, self.yx, self.yy, self.yz) {
            return false;
        }
        are_within(limit, self.zx, self.zy, self.zz)
    }

    /// The determinant, by the cofactor formula.
    pub fn determinant(&self) -> i64
        requires { HasEntriesWithin MAX_ENTRY (matrix_in self.now) }
        ensures value { result ≡ det (matrix_in self.now) }
        ensures size { unsigned_abs result ≤ 6 * MAX_ENTRY ^ 3 }
    {
        let x = minor(self.yy, self.zz, self.yz, self.zy);
        let y = minor(self.yx, self.zz, self.yz, self.zx);
        let z = minor(self.yx, self.zy, self.yy, self.zx);
        let a = i64::from(self.xx);
        let b = i64::from(self.xy);
        let c = i64::from(self.xz);
        a * x - b * y + c * z
    }

    /// Whether it has a whole inverse.
    pub fn is_unimodular(&self) -> bool
        requires { HasEntriesWithin MAX_ENTRY (matrix_in self.now) }
        ensures { IsTrue result ↔ IsUnimodular (matrix_in self.now) }
    {
        let d = self.determinant();
        d == 1 || d == -1
    }

    /// The determinant of a matrix that has a whole inverse: 1 or -1.
    pub fn sign(&self) -> i32
        requires small { HasEntriesWithin MAX_ENTRY (matrix_in self.now) }
        requires unimodular { IsUnimodular (matrix_in self.now) }
        ensures sign { unsigned_abs result ≤ 1 }
        ensures value { result ≡ det (matrix_in self.now) }
    {
        if self.determinant() == 1 { 1 } else { -1 }
    }

    /// The product `self * first`: what comes of `first` and then `self`.
    pub fn after(&self, first: &Rotation) -> Rotation
        requires left { HasEntriesWithin 2 (matrix_in self.now) }
        requires right { HasEntriesWithin 2 (matrix_in first.now) }
        ensures { matrix_in result ≡ matrix_in self.now · matrix_in first.now }
    {
        Rotation {
            xx: dot(self.xx, self.xy, self.xz, first.xx, first.yx, first.zx),
            xy: dot(self.xx, self.xy, self.xz, first.xy, first.yy, first.zy),
            xz: dot(self.xx, self.xy, self.xz, first.xz, first.yz, first.zz),
            yx: dot(self.yx, self.yy, self.yz, first.xx, first.yx, first.zx),
            yy: dot(self.yx, self.yy, self.yz, first.xy, first.yy, first.zy),
            yz: dot(self.yx, self.yy, self.yz, first.xz, first.yz, first.zz),
            zx: dot(self.zx, self.zy, self.zz, first.xx, first.yx, first.zx),
            zy: dot(self.zx, self.zy, self.zz, first.xy, first.yy, first.zy),
            zz: dot(self.zx, self.zy, self.zz, first.xz, first.yz, first.zz),
        }
    }

    /// What it makes of a vector.
    pub fn image(&self, v: &Vector) -> Vector
        requires matrix { HasEntriesWithin MAX_ENTRY (matrix_in self.now) }
        requires vector { AreWithin MAX_ENTRY v.now.x v.now.y v.now.z }
        ensures { column_in result ≡ matrix_in self.now ·ᶜ column_in v.now }
    {
        Vector {
            x: dot(self.xx, self.xy, self.xz, v.x, v.y, v.z),
            y: dot(self.yx, self.yy, self.yz, v.x, v.y, v.z),
            z: dot(self.zx, self.zy, self.zz, v.x, v.y, v.z),
        }
    }

    /// Sign times the adjugate, which is the inverse where sign is the determinant.
    pub fn scaled_adjugate(&self, sign: i32) -> Rotation
        requires sign { unsigned_abs sign ≤ 1 }
        requires narrow { HasEntriesWithin 2 (matrix_in self.now) }
        ensures { matrix_in result ≡ scaled sign (adjugate (matrix_in self.now)) }
    {
        Rotation {
            xx: cofactor(sign, self.yy, self.zz, self.yz, self.zy),
            xy: cofactor(sign, self.xz, self.zy, self.xy, self.zz),
            xz: cofactor(sign, self.xy, self.yz, self.xz, self.yy),
            yx: cofactor(sign, self.yz, self.zx, self.yx, self.zz),
            yy: cofactor(sign, self.xx, self.zz, self.xz, self.zx),
            yz: cofactor(sign, self.xz, self.yx, self.xx, self.yz),
            zx: cofactor(sign, self.yx, self.zy, self.yy, self.zx),
            zy: cofactor(sign, self.xy, self.zx, self.xx, self.zy),
            zz: cofactor(sign, self.xx, self.yy, self.xy, self.yx),
        }
    }
}

impl Vector {
    /// No translation.
    pub const ZERO: Vector = Vector { x: 0, y: 0, z: 0 };

    /// The vector with these numbers: x, y, z.
    pub fn of(numbers: &[i32; 3]) -> Vector
        ensures { column_in result ≡ column_of numbers.now }
    {
        Vector {
            x: numbers[0],
            y: numbers[1],
            z: numbers[2],
        }
    }

    /// Its numbers: x, y, z.
    pub fn numbers(&self) -> [i32; 3]
        ensures { result ≡ coordinates (column_in self.now) }
    {
        [self.x, self.y, self.z]
    }

    /// Whether each number is at least 0 and below `UNIT`.
    pub(crate) fn is_in_cell(&self) -> bool
        ensures { IsTrue result ↔ AreParts UNIT (column_in self.now) }
    {
        is_part(self.x) && is_part(self.y) && is_part(self.z)
    }

    /// Its image under the matrix, and t more, modulo the cell.
    pub(crate) fn moved(&self, w: &Rotation, t: &Vector) -> Vector
        requires narrow { HasEntriesWithin 2 (matrix_in w.now) }
        requires from { AreWithin (UNIT - 1) self.now.x self.now.y self.now.z }
        requires by { AreWithin (UNIT - 1) t.now.x t.now.y t.now.z }
        ensures { column_in result
            ≡ modulo UNIT (matrix_in w.now ·ᶜ column_in self.now +ᶜ column_in t.now) }
    {
        Vector {
            x: place(w.xx, w.xy, w.xz, self.x, self.y, self.z, t.x),
            y: place(w.yx, w.yy, w.yz, self.x, self.y, self.z, t.y),
            z: place(w.zx, w.zy, w.zz, self.x, self.y, self.z, t.z),
        }
    }

    /// The whole cells that `moved` drops.
    pub(crate) fn carried(&self, w: &Rotation, t: &Vector) -> Vector
        requires narrow { HasEntriesWithin 2 (matrix_in w.now) }
        requires from { AreWithin (UNIT - 1) self.now.x self.now.y self.now.z }
        requires by { AreWithin (UNIT - 1) t.now.x t.now.y t.now.z }
        ensures value { matrix_in w.now ·ᶜ column_in self.now +ᶜ column_in t.now
            ≡ modulo UNIT (matrix_in w.now ·ᶜ column_in self.now +ᶜ column_in t.now)
            +ᶜ times (pos UNIT) (column_in result) }
        ensures size { AreWithin 7 result.x result.y result.z }
    {
        Vector {
            x: carry(w.xx, w.xy, w.xz, self.x, self.y, self.z, t.x),
            y: carry(w.yx, w.yy, w.yz, self.x, self.y, self.z, t.y),
            z: carry(w.zx, w.zy, w.zz, self.x, self.y, self.z, t.z),
        }
    }

    /// The opposite vector.
    pub(crate) fn negated(&self) -> Vector
        requires { AreWithin (UNIT - 1) self.now.x self.now.y self.now.z }
        ensures value { column_in result ≡ neg_column (column_in self.now) }
        ensures size { AreWithin (UNIT - 1) result.x result.y result.z }
    {
        Vector {
            x: -self.x,
            y: -self.y,
            z: -self.z,
        }
    }
}

/// Whether each number is at most this in size.
pub fn are_within(limit: u32, a: i32, b: i32, c: i32) -> bool
    ensures { IsTrue result ↔ AreWithin limit a b c }
{
    a.unsigned_abs() <= limit && b.unsigned_abs() <= limit && c.unsigned_abs() <= limit
}

fn is_part(n: i32) -> bool
    ensures { IsTrue result ↔ IsPart UNIT n }
{
    0 <= n && n < UNIT as i32
}

/// A row times a column.
fn dot(a: i32, b: i32, c: i32, x: i32, y: i32, z: i32) -> i32
    requires left { AreWithin MAX_ENTRY a b c }
    requires right { AreWithin MAX_ENTRY x y z }
    ensures value { result ≡ sum_of_products a b c x y z }
    ensures size { (m n : ℕ) → AreWithin m a b c → AreWithin n x y z
        → unsigned_abs result ≤ 3 * (m * n) }
{
    a * x + b * y + c * z
}

/// A row times a column, and t more, modulo the cell.
fn place(a: i32, b: i32, c: i32, x: i32, y: i32, z: i32, t: i32) -> i32
    requires left { AreWithin 2 a b c }
    requires right { AreWithin (UNIT - 1) x y z }
    requires by { unsigned_abs t ≤ UNIT - 1 }
    ensures { result ≡ int_rem_euclid (sum_of_products a b c x y z +ℤ t) (pos UNIT) }
{
    (dot(a, b, c, x, y, z) + t).rem_euclid(UNIT as i32)
}

/// The whole cells that `place` drops.
fn carry(a: i32, b: i32, c: i32, x: i32, y: i32, z: i32, t: i32) -> i32
    requires left { AreWithin 2 a b c }
    requires right { AreWithin (UNIT - 1) x y z }
    requires by { unsigned_abs t ≤ UNIT - 1 }
    ensures value { result ≡ int_div_euclid (sum_of_products a b c x y z +ℤ t) (pos UNIT) }
    ensures size { unsigned_abs result ≤ 7 }
{
    (dot(a, b, c, x, y, z) + t).div_euclid(UNIT as i32)
}

/// A cofactor of a matrix of a Raw, but for its sign.
fn minor(a: i32, b: i32, c: i32, d: i32) -> i64
    requires left { (unsigned_abs a ≤ MAX_ENTRY) × (unsigned_abs b ≤ MAX_ENTRY) }
    requires right { (unsigned_abs c ≤ MAX_ENTRY) × (unsigned_abs d ≤ MAX_ENTRY) }
    ensures value { result ≡ a *ℤ b -ℤ c *ℤ d }
    ensures size { unsigned_abs result ≤ 2 * MAX_ENTRY ^ 2 }
{
    let a = i64::from(a);
    let b = i64::from(b);
    let c = i64::from(c);
    let d = i64::from(d);
    a * b - c * d
}

/// Sign times a cofactor.
fn cofactor(sign: i32, a: i32, b: i32, c: i32, d: i32) -> i32
    requires sign { unsigned_abs sign ≤ 1 }
    requires left { (unsigned_abs a ≤ 2) × (unsigned_abs b ≤ 2) }
    requires right { (unsigned_abs c ≤ 2) × (unsigned_abs d ≤ 2) }
    ensures { result ≡ sign *ℤ (a *ℤ b -ℤ c *ℤ d) }
{
    sign * (a * b - c * d)
}
