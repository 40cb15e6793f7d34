ghost use Rattle.std.specs.Prelude.{◌≡◌, ◌<◌, ◌*◌, pos};
ghost use Rattle.lattice_algebra.specs.Point.{◌≈◌};
ghost use Rattle.exact_ops.specs.Numbers.{point_in};
ghost use Rattle.exact_ops.specs.declared.TheConstants.{UNIT as PARTS};
ghost use Rattle.samples.specs.Points.{next, drawn, after_point, point_from};

use exact_ops::{Point, UNIT};

/// A generator of numbers, by its state.
#[derive(Drop)]
pub struct Draws {
    pub state: u32,
}

impl Draws {
    /// The next point, with coordinates in twelfths from 0 to below 1.
    pub fn point(&mut self) -> Point
        ensures value { point_in result ≈ point_from self.old.state }
        ensures state { self.new.state ≡ after_point self.old.state }
    {
        let x = self.draw();
        let y = self.draw();
        let z = self.draw();
        twelfths(x, y, z)
    }

    /// The next number, from 0 to below 12.
    fn draw(&mut self) -> u32
        ensures state { self.new.state ≡ next self.old.state }
        ensures value { result ≡ drawn self.new.state }
        ensures below { result < 12 }
    {
        let state = (u64::from(self.state) * 1_664_525 + 1_013_904_223) % (1 << 32);
        self.state = state as u32;
        self.state / 65536 % 12
    }
}

fn twelfths(x: u32, y: u32, z: u32) -> Point
    requires x { x < 12 }
    requires y { y < 12 }
    requires z { z < 12 }
    ensures { point_in result ≈ record { n = record { x = pos x; y = pos y; z = pos z }; d = pos 12 } }
{
    Point {
        n: [units(x), units(y), units(z)],
        d: units(12),
    }
}

/// A number of whole cells in parts.
fn units(cells: u32) -> i128
    requires { cells < 13 }
    ensures { result ≡ pos (PARTS * cells) }
{
    i128::from(UNIT) * i128::from(cells)
}
