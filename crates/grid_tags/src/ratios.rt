ghost use Rattle.std.specs.Prelude.{◌≡◌};
ghost use Rattle.grid_tags.specs.Grids.{IsSide};
ghost use Rattle.grid_tags.specs.Steps.{ratio, ratios_of};

use crate::grid_size::GridSize;

/// Twice the ratios of the sides of a grid, each rounded down. They are made once, so that a step of a walk divides by no side.
#[derive(Clone, Copy, PartialEq, Eq, Debug, Drop)]
pub struct Ratios {
    pub ab: u16,
    pub ac: u16,
    pub ba: u16,
    pub bc: u16,
    pub ca: u16,
    pub cb: u16,
}

impl Ratios {
    pub fn of(size: &GridSize) -> Ratios
        ensures { result ≡ ratios_of size.now }
    {
        Ratios {
            ab: ratio(size.a, size.b),
            ac: ratio(size.a, size.c),
            ba: ratio(size.b, size.a),
            bc: ratio(size.b, size.c),
            ca: ratio(size.c, size.a),
            cb: ratio(size.c, size.b),
        }
    }
}

/// Twice n by m.
fn ratio(n: u16, m: u16) -> u16
    requires first { IsSide n }
    requires second { IsSide m }
    ensures { result ≡ ratio n m }
{
    2 * n / m
}
