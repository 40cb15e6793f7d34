//! Averages over site-symmetry groups, by hand, points that are far out, and a group that grows by an element.
ghost use Rattle.std.specs.Prelude.{◌≤◌, ◌<◌, IfOk, IfSome, length, unsigned_abs};
ghost use Rattle.affine_sets.specs.declared.TheConstants.{MAX_NEAR_SHIFT};
ghost use Rattle.affine_sets.specs.Subs.{AreElements, AreShiftsWithin};

use crate::groups::{CUBIC, group_of};
use affine_sets::{Sub, average_at, full, holds, key, mean};
use exact_ops::{Move, NoMemory, Point};
use group_closure::Group;
use std::alloc::Global;
use std::test::Fail;

fn point_of(c: [(i64, i64); 3]) -> Result<Point, Fail> {
    Ok(Point::of_coords(c).ok_or("out of range")?)
}

/// Twice an inversion centre of P -1, and the translation of its average over the 2 operators.
const CENTRES: [([i64; 3], [i64; 3]); 8] = [
    ([0, 0, 0], [0, 0, 0]),
    ([0, 0, 1], [0, 0, 24]),
    ([0, 1, 0], [0, 24, 0]),
    ([0, 1, 1], [0, 24, 24]),
    ([1, 0, 0], [24, 0, 0]),
    ([1, 0, 1], [24, 0, 24]),
    ([1, 1, 0], [24, 24, 0]),
    ([1, 1, 1], [24, 24, 24]),
];

#[test]
fn inversion_centres(rt: HostRuntime) -> Result<(), Fail> {
    let g = group_of(rt.alloc(), &["-x,-y,-z"])?;
    for ([x, y, z], t) in CENTRES {
        let p = point_of([(x, 2), (y, 2), (z, 2)])?;
        let average = average_at(&g, &p);
        assert_eq!(rt; average.m(), [0; 9]);
        assert_eq!(rt; average.t(), t);
        assert_eq!(rt; average.over(), 2);
        assert_eq!(rt; holds(&g, &average, &p), true);
    }
    Ok(())
}

/// 1/3,2/3,z of P 3, in general and at 7/3,-1/3,z.
#[test]
fn threefold_axis(rt: HostRuntime) -> Result<(), Fail> {
    let g = group_of(rt.alloc(), &["-y,x-y,z"])?;
    let along = [0, 0, 0, 0, 0, 0, 0, 0, 3];
    let origin = average_at(&g, &point_of([(0, 1), (0, 1), (1, 5)])?);
    assert_eq!(rt; (origin.m(), origin.t()), (along, [0, 0, 0]));
    let axis = average_at(&g, &point_of([(1, 3), (2, 3), (1, 5)])?);
    assert_eq!(rt; (axis.m(), axis.t()), (along, [24, 48, 0]));
    let beside = average_at(&g, &point_of([(7, 3), (-1, 3), (1, 5)])?);
    assert_eq!(rt; (beside.m(), beside.t()), (along, [168, -24, 0]));
    Ok(())
}

/// x,x,x of F m -3 m: 64 of 192 in each place.
#[test]
fn cubic_diagonal(rt: HostRuntime) -> Result<(), Fail> {
    let g = group_of(rt.alloc(), &CUBIC)?;
    let diagonal = average_at(&g, &point_of([(1, 7), (1, 7), (1, 7)])?);
    assert_eq!(rt; diagonal.m(), [64; 9]);
    assert_eq!(rt; diagonal.t(), [0; 3]);
    let far = 1_000_000_000;
    assert_eq!(rt;
        holds(&g, &diagonal, &point_of([(far, 1), (far, 1), (far, 1)])?),
        true
    );
    assert_eq!(rt;
        holds(&g, &diagonal, &point_of([(far, 1), (far, 1), (-far, 1)])?),
        false
    );
    assert_eq!(rt;
        holds(&g, &diagonal, &point_of([(1, 7), (1, 7), (8, 7)])?),
        false
    );
    Ok(())
}

#[test]
fn group_of_the_identity(rt: HostRuntime) -> Result<(), Fail> {
    let g = group_of(rt.alloc(), &CUBIC)?;
    assert_eq!(rt; g.len(), 192);
    let trivial = Sub::trivial(rt.alloc())?;
    assert_eq!(rt; trivial.len(), 1);
    let average = mean(&g, &trivial);
    assert_eq!(rt; average.m(), [192, 0, 0, 0, 192, 0, 0, 0, 192]);
    assert_eq!(rt; full(rt.alloc(), &g, &average)?.len(), 1);
    assert_eq!(rt; trivial.near(rt.alloc(), &g)?.len(), 1);
    let first = key(&g, &average);
    assert_eq!(rt; (first.m(), first.t()), (average.m(), [0; 3]));
    assert_eq!(rt; first.over(), 192);
    assert_eq!(rt; first.is(&average.in_cell()), true);
    Ok(())
}

/// What s and the inversion at x/2,0,0 generate, where the second member of g is the inversion.
fn grown_by_inversion(alloc: Global, s: &Sub, g: &Group, x: i64) -> Result<Option<Sub>, NoMemory>
    requires near { unsigned_abs x ≤ MAX_NEAR_SHIFT }
    requires second { 1 < length g.now }
    requires elements { AreElements g.now s.now }
    requires shifts { AreShiftsWithin MAX_NEAR_SHIFT s.now }
    ensures { IfOk result (λ grown. IfSome grown (AreElements g.now)) }
{
    let op = g.op(1);
    let shift = [x, 0, 0];
    let inversion = Move { op, shift };
    s.grow(alloc, g, &inversion)
}

/// The inversion at 1/2,0,0 of P -1. With that at the origin it fixes no point.
#[test]
fn group_of_an_inversion(rt: HostRuntime) -> Result<(), Fail> {
    let g = group_of(rt.alloc(), &["-x,-y,-z"])?;
    if g.len() != 2 {
        return Err(Fail::new("not two members"));
    }
    let trivial = Sub::trivial(rt.alloc())?;
    let grown = grown_by_inversion(rt.alloc(), &trivial, &g, 1)?.ok_or("no point")?;
    assert_eq!(rt; grown.len(), 2);
    let average = mean(&g, &grown);
    assert_eq!(rt; average.m(), [0; 9]);
    assert_eq!(rt; average.t(), [24, 0, 0]);
    let near = grown.near(rt.alloc(), &g)?;
    let far = grown_by_inversion(rt.alloc(), &near, &g, 0)?;
    assert_eq!(rt; far.is_none(), true);
    let average = mean(&g, &near);
    assert_eq!(rt; average.t(), [24, 0, 0]);
    assert_eq!(rt; full(rt.alloc(), &g, &average)?.len(), 2);
    let first = key(&g, &average);
    assert_eq!(rt;
        (first.m(), first.t(), first.over()),
        ([0; 9], [24, 0, 0], 2)
    );
    let half = point_of([(1, 2), (0, 1), (0, 1)])?;
    let beyond = point_of([(3, 2), (0, 1), (0, 1)])?;
    assert_eq!(rt; holds(&g, &average, &half), true);
    assert_eq!(rt; holds(&g, &average, &beyond), false);
    Ok(())
}

/// That at 3/2,0,0 is moved to 1/2,0,0.
#[test]
fn group_of_a_far_inversion(rt: HostRuntime) -> Result<(), Fail> {
    let g = group_of(rt.alloc(), &["-x,-y,-z"])?;
    if g.len() != 2 {
        return Err(Fail::new("not two members"));
    }
    let trivial = Sub::trivial(rt.alloc())?;
    let grown = grown_by_inversion(rt.alloc(), &trivial, &g, 3)?.ok_or("no point")?;
    assert_eq!(rt; mean(&g, &grown).t(), [72, 0, 0]);
    let near = grown.near(rt.alloc(), &g)?;
    if near.len() != 2 {
        return Err(Fail::new("not two elements"));
    }
    assert_eq!(rt; near.get(0).shift, [0, 0, 0]);
    assert_eq!(rt; near.get(1).shift, [1, 0, 0]);
    assert_eq!(rt; near.get(1).op, g.op(1));
    Ok(())
}
