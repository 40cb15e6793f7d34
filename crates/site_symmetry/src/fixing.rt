ghost use Rattle.std.specs.Prelude.{◌≡◌, ◌<◌, ◌≤◌, ◌+◌, ◌*◌, ◌↔◌, List, ℤ, pos, ◌*ℤ◌, ◌<ℤ◌, unsigned_abs, Some, IsSome, IfSome, length, slice_get};
ghost use Rattle.lattice_algebra.specs.Operator.{Operator};
ghost use Rattle.lattice_algebra.specs.Map.{Map};
ghost use Rattle.exact_ops.specs.Numbers.{point_in};
ghost use Rattle.exact_ops.specs.Elements.{map_in};
ghost use Rattle.exact_ops.specs.declared.TheConstants.{UNIT, MAX_COORDINATE};
ghost use Rattle.space_groups.specs.Space.{IsInSite};
ghost use Rattle.space_groups.specs.Lists.{IsSiteList};
ghost use Rattle.site_symmetry.specs.OrderedSite.{SomeElementFixes};

use exact_ops::{Move, Point};
use group_closure::Group;

/// The operator (W, t) at place i, counted from 0, stands for the elements `x -> W x + t / UNIT + shift`, the shift three
/// whole numbers. This is the one that maps the point to itself; there is at most one. None exactly where no such shift does.
pub fn fixes(group: &Group, i: u8, point: &Point) -> Option<Move>
    requires { i < length group.now }
    ensures some { (f : Operator) → slice_get group.now i ≡ Some f
        → (IsSome result ↔ SomeElementFixes f (point_in point.now)) }
    ensures operator { IfSome result (λ m. slice_get group.now i ≡ Some m.op) }
    ensures value { IfSome result (λ m. IsInSite UNIT group.now (point_in point.now) (map_in m)) }
{
    let op = group.op(i);
    let [x, y, z] = op.image_of(point);
    let x = whole_cells(point.n[0] - x, point.d)?;
    let y = whole_cells(point.n[1] - y, point.d)?;
    let z = whole_cells(point.n[2] - z, point.d)?;
    Some(Move {
        op,
        shift: [x, y, z],
    })
}

/// The order of the site-symmetry group: how many elements of the space group map the point to itself.
pub fn order_at(group: &Group, point: &Point) -> u16
    ensures { (site : List Map) → IsSiteList UNIT group.now (point_in point.now) site
        → result ≡ length site }
{
    let mut order = 0;
    for i in 0..group.len() {
        if fixes(group, i as u8, point).is_some() {
            order += 1;
        }
    }
    order
}

/// n / d, where it is whole.
fn whole_cells(n: i128, d: i128) -> Option<i64>
    requires positive { pos 0 <ℤ d }
    requires near { unsigned_abs n ≤ (7 * MAX_COORDINATE + 1) * unsigned_abs d }
    ensures some { IsSome result ↔ ((k : ℤ) × (n ≡ k *ℤ d)) }
    ensures value { IfSome result (λ k. (n ≡ k *ℤ d) × (unsigned_abs k ≤ 7 * MAX_COORDINATE + 1)) }
{
    if n % d != 0 {
        return None;
    }
    Some((n / d) as i64)
}
