ghost use Rattle.std.specs.Prelude.{◌≡◌, ◌↔◌, IsTrue};
ghost use Rattle.lattice_algebra.specs.Operator.{HasEntriesWithin};
ghost use Rattle.exact_ops.specs.Fields.{matrix_in};
ghost use Rattle.op_types.specs.ProperPart.{IsProper, IsProperPart, opposite};

use exact_ops::Rotation;

/// Whether the handedness is +1.
pub fn is_proper(w: &Rotation) -> bool
    requires { HasEntriesWithin 2 (matrix_in w.now) }
    ensures { IsTrue result ↔ IsProper (matrix_in w.now) }
{
    w.determinant() > 0
}

/// W where its handedness is +1, else -W.
pub fn proper_part(w: &Rotation) -> Rotation
    requires { HasEntriesWithin 2 (matrix_in w.now) }
    ensures { IsProperPart (matrix_in w.now) (matrix_in result) }
{
    if is_proper(w) { *w } else { opposite_of(w) }
}

fn opposite_of(w: &Rotation) -> Rotation
    requires { HasEntriesWithin 2 (matrix_in w.now) }
    ensures { matrix_in result ≡ opposite (matrix_in w.now) }
{
    Rotation {
        xx: -w.xx,
        xy: -w.xy,
        xz: -w.xz,
        yx: -w.yx,
        yy: -w.yy,
        yz: -w.yz,
        zx: -w.zx,
        zy: -w.zy,
        zz: -w.zz,
    }
}
