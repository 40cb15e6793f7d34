ghost use Rattle.std.specs.Prelude.{IfSome, IfNone};
ghost use Rattle.lattice_algebra.specs.Point as rational;
ghost use Rattle.exact_ops.specs.Points.{point_with};
ghost use Rattle.triplet_text.specs.Points.{ArePointTexts};
ghost use Rattle.sg_cli.specs.Words.{AreThree, texts};

use exact_ops::Point;

/// The point whose coordinates are the arguments.
pub fn read_point(arguments: &[String]) -> Option<Point>
    ensures some { IfSome result
        (λ p. AreThree ArePointTexts (texts arguments.now) (point_with p.n p.d)) }
    ensures none { IfNone result ((p : rational.Point)
        → AreThree ArePointTexts (texts arguments.now) p → ⊥) }
{
    let [x, y, z] = arguments else {
        return None;
    };
    triplet_text::read_point(x.as_bytes(), y.as_bytes(), z.as_bytes())
}
