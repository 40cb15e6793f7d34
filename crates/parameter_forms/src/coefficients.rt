//! The matrix B of the parameter form of a matrix: what is along its image is all of space, a plane, a line or nothing.
ghost use Rattle.std.specs.Prelude.{◌≡◌, ◌≢◌, ◌≤◌, ◌*◌, ◌*ℤ◌, ◌<ℤ◌, pos, unsigned_abs};
ghost use Rattle.lattice_algebra.specs.Matrix.{Matrix, origin, scaled};
ghost use Rattle.lattice_algebra.specs.Operator.{AreWithin, HasEntriesWithin};
ghost use Rattle.exact_ops.specs.Fields.{matrix_in, column_in};
ghost use Rattle.parameter_forms.specs.declared.TheConstants.{MAX_NUMBER, MAX_MATRIX, MAX_MINOR};
ghost use Rattle.parameter_forms.specs.Forms.{IsCoefficientMatrix};
ghost use Rattle.parameter_forms.specs.Finding.{IsPlane, IsLine, IsSmall};

use crate::vectors::{cross, first_other, is_nothing};
use exact_ops::{Rotation, Vector};

/// The matrix b over `over`, which is not 0.
#[derive(Clone, Copy, Drop)]
pub(crate) struct Coefficients {
    pub(crate) b: Rotation,
    pub(crate) over: i32,
}

/// The coefficients of the free coordinates of what is along the image of a matrix.
pub(crate) fn coefficients_of(m: &Rotation) -> Coefficients
    requires { HasEntriesWithin MAX_MATRIX (matrix_in m.now) }
    ensures matrix { IsCoefficientMatrix (matrix_in m.now) result.over (matrix_in result.b) }
    ensures small { IsSmall result.b result.over }
{
    if m.determinant() != 0 {
        return Coefficients {
            b: Rotation::IDENTITY,
            over: 1,
        };
    }
    let x = Vector {
        x: m.xx,
        y: m.yx,
        z: m.zx,
    };
    let y = Vector {
        x: m.xy,
        y: m.yy,
        z: m.zy,
    };
    let z = Vector {
        x: m.xz,
        y: m.yz,
        z: m.zz,
    };
    let normal = first_other(&cross(&y, &z), &cross(&z, &x), &cross(&x, &y));
    if !is_nothing(&normal) {
        return plane(&normal);
    }
    line(&first_other(&x, &y, &z))
}

/// Those of a plane, all vectors v with l v = 0: the last coordinate in which l is not 0 depends on the others.
fn plane(l: &Vector) -> Coefficients
    requires some { column_in l.now ≢ origin }
    requires small { AreWithin MAX_MINOR l.now.x l.now.y l.now.z }
    ensures matrix { (m : Matrix) → IsPlane m (column_in l.now)
        → IsCoefficientMatrix m result.over (matrix_in result.b) }
    ensures small { IsSmall result.b result.over }
{
    if l.z != 0 {
        return Coefficients {
            b: Rotation::of(&[l.z, 0, 0, 0, l.z, 0, -l.x, -l.y, 0]),
            over: l.z,
        };
    }
    if l.y != 0 {
        return Coefficients {
            b: Rotation::of(&[l.y, 0, 0, -l.x, 0, 0, 0, 0, l.y]),
            over: l.y,
        };
    }
    Coefficients {
        b: Rotation::of(&[0, 0, 0, 0, 1, 0, 0, 0, 1]),
        over: 1,
    }
}

/// Those of a line, all multiples of v: the first coordinate in which v is not 0 is free. Of nothing, where v is 0.
fn line(v: &Vector) -> Coefficients
    requires { AreWithin MAX_MATRIX v.now.x v.now.y v.now.z }
    ensures matrix { (m : Matrix) → IsLine m (column_in v.now)
        → IsCoefficientMatrix m result.over (matrix_in result.b) }
    ensures small { IsSmall result.b result.over }
{
    if v.x != 0 {
        return Coefficients {
            b: Rotation::of(&[v.x, 0, 0, v.y, 0, 0, v.z, 0, 0]),
            over: v.x,
        };
    }
    if v.y != 0 {
        return Coefficients {
            b: Rotation::of(&[0, 0, 0, 0, v.y, 0, 0, v.z, 0]),
            over: v.y,
        };
    }
    if v.z != 0 {
        return Coefficients {
            b: Rotation::of(&[0, 0, 0, 0, 0, 0, 0, 0, 1]),
            over: 1,
        };
    }
    Coefficients {
        b: Rotation::of(&[0; 9]),
        over: 1,
    }
}

impl Coefficients {
    /// The same matrix over a positive number.
    pub(crate) fn over_positive(&self) -> Coefficients
        requires { IsSmall self.now.b self.now.over }
        ensures matrix { (m : Matrix) → IsCoefficientMatrix m self.now.over (matrix_in self.now.b)
            → IsCoefficientMatrix m result.over (matrix_in result.b) }
        ensures positive { pos 0 <ℤ result.over }
        ensures small { IsSmall result.b result.over }
    {
        self.times(self.over.signum())
    }

    /// The same matrix with k times its numbers.
    pub(crate) fn times(&self, k: i32) -> Coefficients
        requires few { unsigned_abs k ≤ MAX_NUMBER }
        requires small { IsSmall self.now.b self.now.over }
        ensures matrix { matrix_in result.b ≡ scaled k (matrix_in self.now.b) }
        ensures over { result.over ≡ k *ℤ self.now.over }
    {
        let b = &self.b;
        Coefficients {
            b: Rotation {
                xx: product(k, b.xx),
                xy: product(k, b.xy),
                xz: product(k, b.xz),
                yx: product(k, b.yx),
                yy: product(k, b.yy),
                yz: product(k, b.yz),
                zx: product(k, b.zx),
                zy: product(k, b.zy),
                zz: product(k, b.zz),
            },
            over: product(k, self.over),
        }
    }
}

fn product(k: i32, a: i32) -> i32
    requires few { unsigned_abs k ≤ MAX_NUMBER }
    requires small { unsigned_abs a ≤ MAX_MINOR }
    ensures { result ≡ k *ℤ a }
{
    k * a
}
