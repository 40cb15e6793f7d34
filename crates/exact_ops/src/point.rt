ghost use Rattle.std.specs.Prelude.{◌≡◌, ◌↔◌, ◌≤◌, ◌*◌, ◌^◌, ℤ, pos, ◌*ℤ◌, unsigned_abs, IsSome, IfSome, IsTrue};
ghost use Rattle.exact_ops.specs.Points.{point_with, IsPointInRange, IsCoordinateInRange, AreCoordinatesInRange, HasCoordinates};

use crate::{MAX_COORDINATE, MAX_DENOMINATOR, UNIT};

/// The rational point `n / d`, in fractions of the cell. The denominator is a positive multiple of `UNIT`, at most
/// `UNIT * MAX_DENOMINATOR ^ 3`, and each coordinate is at most `MAX_COORDINATE` in size. One point can be written in
/// many ways; `==` compares what is written.
#[derive(Clone, Copy, PartialEq, Eq, Debug, Drop)]
pub struct Point {
    pub n: [i128; 3],
    pub d: i128,
    pub ghost in_range: { IsPointInRange (point_with n d) },
}

impl Point {
    /// The point with these coordinates, each a numerator and a denominator, over `UNIT` times the product of the three
    /// denominators. None exactly where a numerator is beyond `MAX_COORDINATE` in size, or a denominator is not from 1 to
    /// `MAX_DENOMINATOR`.
    pub fn of_coords(c: [(i64, i64); 3]) -> Option<Point>
        ensures some { IsSome result ↔ AreCoordinatesInRange c }
        ensures value { IfSome result (λ p. HasCoordinates c (point_with p.n p.d)) }
    {
        let (x, x_over) = c[0];
        let (y, y_over) = c[1];
        let (z, z_over) = c[2];
        if !is_in_range(x, x_over) {
            return None;
        }
        if !is_in_range(y, y_over) {
            return None;
        }
        if !is_in_range(z, z_over) {
            return None;
        }
        Some(Point {
            n: [
                units(x, y_over, z_over),
                units(y, x_over, z_over),
                units(z, x_over, y_over),
            ],
            d: units(x_over, y_over, z_over),
        })
    }
}

fn is_in_range(numerator: i64, denominator: i64) -> bool
    ensures { IsTrue result ↔ IsCoordinateInRange (numerator, denominator) }
{
    numerator.unsigned_abs() <= u64::from(MAX_COORDINATE)
        && 1 <= denominator
        && denominator <= i64::from(MAX_DENOMINATOR)
}

/// `UNIT` times the product of a numerator and two denominators.
fn units(a: i64, b: i64, c: i64) -> i128
    requires numerator { unsigned_abs a ≤ MAX_COORDINATE }
    requires first { unsigned_abs b ≤ MAX_DENOMINATOR }
    requires second { unsigned_abs c ≤ MAX_DENOMINATOR }
    ensures { result ≡ pos UNIT *ℤ (a *ℤ b *ℤ c) }
{
    i128::from(UNIT) * (i128::from(a) * i128::from(b) * i128::from(c))
}
