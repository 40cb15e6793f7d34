ghost use Rattle.std.specs.Prelude.{◌≡◌, IfOk, pos, ◌<ℤ◌, ◌<◌, unsigned_abs, length};
ghost use Rattle.std.specs.Int.{IsNonNegative, int_rem_euclid};
ghost use Rattle.lattice_algebra.specs.Operator.{IsOperator};
ghost use Rattle.exact_ops.specs.declared.TheConstants.{UNIT};
ghost use Rattle.exact_ops.specs.Numbers.{point_in};
ghost use Rattle.orbit_map.specs.OrderedOrbit.{IsOrderedOrbit};
ghost use Rattle.orbit_map.specs.Placed.{IsPlaced};
ghost use Rattle.orbit_map.specs.Steps.{stored_cmp};

use crate::parts::Orbit;
use exact_ops::{NoMemory, Op, Point};
use group_closure::Group;
use std::alloc::Global;
use std::cmp::Ordering;

/// The points of the orbit of the point with coordinates from 0 to below 1, each once, ascending by their coordinates, over
/// the denominator of the point. All memory is taken first.
pub fn orbit(alloc: Global, group: &Group, point: &Point) -> Result<Orbit, NoMemory>
    ensures { IfOk result (λ orbit. IsOrderedOrbit group.now (point_in point.now) orbit) }
{
    let Ok(mut points) = Vec::with_capacity(alloc, usize::from(group.len())) else {
        return Err(NoMemory);
    };
    for i in 0..group.len() {
        points.push_reserved(image_in_cell(&group.op(i as u8), point));
    }
    points.sort_unstable_by(|a, b| compare(a, b));
    points.dedup();
    Ok(Orbit { points })
}

/// The image of the point under the operator, moved into the cell.
pub fn image_in_cell(op: &Op, point: &Point) -> Point
    requires { IsOperator UNIT op.now }
    ensures three { length result.n ≡ 3 }
    ensures placed { IsPlaced op.now (point_in point.now) (point_in result) }
{
    let [x, y, z] = op.image_of(point);
    let d = point.d;
    Point {
        n: [remainder(x, d), remainder(y, d), remainder(z, d)],
        d,
    }
}

/// The remainder of n by d. Most images lie in the cell or beside it, and are not divided.
fn remainder(n: i128, d: i128) -> i128
    requires { pos 0 <ℤ d }
    ensures value { result ≡ int_rem_euclid n d }
    ensures lower_bound { IsNonNegative result }
    ensures upper_bound { unsigned_abs result < unsigned_abs d }
{
    let near = nearer(n, d);
    if near >= 0 && near < d {
        return near;
    }
    near.rem_euclid(d)
}

/// A number with the same remainder by d, nearer to 0 where n is not in the cell.
fn nearer(n: i128, d: i128) -> i128
    requires { pos 0 <ℤ d }
    ensures { int_rem_euclid result d ≡ int_rem_euclid n d }
{
    if n < 0 {
        return n + d;
    }
    if n >= d {
        return n - d;
    }
    n
}

/// By the numerators, and by the denominators where they are alike.
fn compare(a: &Point, b: &Point) -> Ordering
    ensures { result ≡ stored_cmp a.now b.now }
{
    a.n.cmp(&b.n).then(a.d.cmp(&b.d))
}
