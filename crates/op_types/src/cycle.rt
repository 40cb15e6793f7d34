ghost use Rattle.std.specs.Prelude.{◌≡◌, ◌≤◌, ◌*◌, ◌+◌};
ghost use Rattle.lattice_algebra.specs.Matrix.{◌+ᵐ◌};
ghost use Rattle.lattice_algebra.specs.Operator.{HasEntriesWithin};
ghost use Rattle.lattice_algebra.specs.Powers.{IsOrder, sum_of_powers};
ghost use Rattle.exact_ops.specs.Fields.{matrix_in};
ghost use Rattle.group_closure.specs.declared.TheConstants.{MAX_OPERATORS};
ghost use Rattle.op_types.specs.SmallPowers.{HasSmallPowers};

use exact_ops::Rotation;

/// The order of a matrix, and the sum of its powers from the identity up to the last below the order.
#[derive(Clone, Copy, Drop)]
pub struct Cycle {
    pub order: u16,
    pub sum: Rotation,
}

/// Multiplies by the matrix until the identity comes back.
pub fn cycle_of(p: &Rotation) -> Cycle
    requires { HasSmallPowers (matrix_in p.now) }
    ensures order { IsOrder (matrix_in p.now) result.order }
    ensures short { result.order ≤ MAX_OPERATORS }
    ensures sum { matrix_in result.sum ≡ sum_of_powers (matrix_in p.now) result.order }
    ensures size { HasEntriesWithin (2 * MAX_OPERATORS) (matrix_in result.sum) }
{
    let mut order = 0;
    let mut power = Rotation::IDENTITY;
    let mut sum = NO_MATRIX;
    loop {
        sum = plus(&sum, &power);
        power = p.after(&power);
        order += 1;
        if power == Rotation::IDENTITY {
            return Cycle { order, sum };
        }
    }
}

const NO_MATRIX: Rotation = Rotation {
    xx: 0,
    xy: 0,
    xz: 0,
    yx: 0,
    yy: 0,
    yz: 0,
    zx: 0,
    zy: 0,
    zz: 0,
};

fn plus(a: &Rotation, b: &Rotation) -> Rotation
    requires left { HasEntriesWithin (2 * MAX_OPERATORS) (matrix_in a.now) }
    requires right { HasEntriesWithin 2 (matrix_in b.now) }
    ensures { matrix_in result ≡ matrix_in a.now +ᵐ matrix_in b.now }
{
    Rotation {
        xx: a.xx + b.xx,
        xy: a.xy + b.xy,
        xz: a.xz + b.xz,
        yx: a.yx + b.yx,
        yy: a.yy + b.yy,
        yz: a.yz + b.yz,
        zx: a.zx + b.zx,
        zy: a.zy + b.zy,
        zz: a.zz + b.zz,
    }
}
