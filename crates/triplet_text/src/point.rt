ghost use Rattle.std.specs.Prelude.{IfSome, IfNone};
ghost use Rattle.lattice_algebra.specs.Point as rational;
ghost use Rattle.exact_ops.specs.Points.{point_with};
ghost use Rattle.triplet_text.specs.Points.{ArePointTexts};

use crate::coordinate::read_coord;
use exact_ops::Point;

/// The point with these coordinates. None exactly where one of the texts is no coordinate.
pub fn read_point(x: &[u8], y: &[u8], z: &[u8]) -> Option<Point>
    ensures some { IfSome result (λ p. ArePointTexts x.now y.now z.now (point_with p.n p.d)) }
    ensures none { IfNone result ((p : rational.Point) → ArePointTexts x.now y.now z.now p → ⊥) }
{
    let x = read_coord(x)?;
    let y = read_coord(y)?;
    let z = read_coord(z)?;
    Point::of_coords([x, y, z])
}
