ghost use Rattle.lattice_algebra.specs.Matrix.{column_of};
ghost use Rattle.exact_ops.specs.Moves.{IsShiftInRange};

use crate::groups::{CUBIC, HEXAGONAL, group_of, op_of};
use exact_ops::{Move, Point, UNIT, inverse};
use group_closure::Group;
use orbit_map::multiplicity;
use site_symmetry::order_at;
use std::test::Fail;
use triplet_text::{print_affine, print_frac, print_move, print_triplet};

fn element(text: &str, shift: [i64; 3]) -> Result<Move, Fail>
    requires { IsShiftInRange (column_of shift) }
{
    Ok(Move {
        op: op_of(text)?,
        shift,
    })
}

/// 7/6 is a cell and four twenty-fourths, -1/4 is a cell back and eighteen, and an eighth is three.
#[test]
fn parts_of_a_cell(rt: HostRuntime) -> Result<(), Fail> {
    assert_eq!(rt; op_of("+x, y , z+7/6")?.t(), [0, 0, 4]);
    assert_eq!(rt; op_of("-x-1/4,y+.125,z-1/24")?.t(), [18, 3, 23]);
    Ok(())
}

#[test]
fn inverse_of_a_threefold_screw(rt: HostRuntime) -> Result<(), Fail> {
    let back = inverse(&op_of("-y,x-y,z+1/3")?).ok_or("beyond 2")?;
    assert_eq!(rt; print_triplet(&back).bytes(), b"-x+y,-x,z+2/3".as_slice());
    Ok(())
}

/// y,x,-z and the shift 1,0,-1 take 1/2,1/3,0 to 4/3,1/2,-1, both over 24 times 6.
#[test]
fn image_of_a_point(rt: HostRuntime) -> Result<(), Fail> {
    let p = Point::of_coords([(1, 2), (1, 3), (0, 1)]).ok_or("out of range")?;
    assert_eq!(rt; (p.n, p.d), ([72, 48, 0], 144));
    let image = element("y,x,-z", [1, 0, -1])?
        .apply(&p)
        .ok_or("out of range")?;
    assert_eq!(rt; (image.n, image.d), ([192, 72, -144], 144));
    Ok(())
}

/// The shift 1,2,3 is turned by the glide to 1,-2,3, and 10,20,30 and the whole cell along z are added.
#[test]
fn product_of_elements(rt: HostRuntime) -> Result<(), Fail> {
    let screw = element("-x,y+1/2,-z+1/2", [1, 2, 3])?;
    let glide = element("x,-y+1/2,z+1/2", [10, 20, 30])?;
    let product = screw.then(&glide).ok_or("out of range")?;
    assert_eq!(rt;
        print_move(&product).bytes(),
        b"-x+11,-y+18,-z+34".as_slice()
    );
    Ok(())
}

/// In F m -3 m -y,x,z after z,x,y is -x,z,y, and z,x,y after -y,x,z is z,-y,x. The inverse of -y,x,z is y,-x,z.
#[test]
fn places_of_members(rt: HostRuntime) -> Result<(), Fail> {
    let group = group_of(rt.alloc(), &CUBIC)?;
    let four = group.find(&op_of("-y,x,z")?).ok_or("no member")?;
    let three = group.find(&op_of("z,x,y")?).ok_or("no member")?;
    assert_eq!(rt;
        Some(group.product(four, three)),
        group.find(&op_of("-x,z,y")?)
    );
    assert_eq!(rt;
        Some(group.product(three, four)),
        group.find(&op_of("z,-y,x")?)
    );
    assert_eq!(rt; Some(group.inverse_of(four)), group.find(&op_of("y,-x,z")?));
    assert_eq!(rt; group.find(&op_of("-x+1/2,-y+1/2,-z")?), Some(191));
    assert_eq!(rt; group.find(&op_of("x,y,z+1/3")?), None);
    Ok(())
}

fn run_end_at(group: &Group, i: u8) -> Option<u8> {
    if u16::from(i) >= group.len() {
        return None;
    }
    Some(group.run_end(i))
}

fn opposite_at(group: &Group, i: u8) -> Option<u8> {
    if u16::from(i) >= group.len() {
        return None;
    }
    group.opposite_run(i)
}

/// The identity, x+2y,-y,-z with three translations, and two translations alone: no matrix has its opposite.
#[test]
fn runs_without_opposites(rt: HostRuntime) -> Result<(), Fail> {
    let group = group_of(rt.alloc(), &["x+2y,-y,-z", "x+1/3,y,z"])?;
    for (i, want) in [(0, 1), (1, 4), (2, 4), (3, 4), (4, 6), (5, 6)] {
        assert_eq!(rt; run_end_at(&group, i), Some(want), "{i}");
        assert_eq!(rt; opposite_at(&group, i), None, "{i}");
    }
    Ok(())
}

/// In P 2_1/c each matrix has one operator, and its opposite another.
#[test]
fn runs_with_opposites(rt: HostRuntime) -> Result<(), Fail> {
    let group = group_of(rt.alloc(), &["-x,y+1/2,-z+1/2", "-x,-y,-z"])?;
    for (i, want) in [(0, 3), (1, 2), (2, 1), (3, 0)] {
        assert_eq!(rt; run_end_at(&group, i), Some(i + 1), "{i}");
        assert_eq!(rt; opposite_at(&group, i), Some(want), "{i}");
    }
    Ok(())
}

/// P 6/m m m: a third of the cell.
#[test]
fn order_and_multiplicity(rt: HostRuntime) -> Result<(), Fail> {
    let group = group_of(rt.alloc(), &HEXAGONAL)?;
    let third = Point::of_coords([(1, 3), (2, 3), (0, 1)]).ok_or("out of range")?;
    assert_eq!(rt; order_at(&group, &third), 12);
    assert_eq!(rt; multiplicity(&group, &third), 2);
    Ok(())
}

/// Two cells over 2 are one.
#[test]
fn text_of_an_affine_map(rt: HostRuntime) {
    let halves = print_affine(&[1, 1, 0, 1, -1, 0, 0, 0, 2], 2, &[0, 0, 2 * UNIT as i64]);
    assert_eq!(rt; halves.bytes(), b"1/2*x+1/2*y,1/2*x-1/2*y,z+1".as_slice());
}

/// The greatest translation over the greatest denominator: 260,000,000,000 / 4,608.
#[test]
fn text_of_the_greatest_affine_map(rt: HostRuntime) {
    let greatest = 260_000_000_000;
    let map = print_affine(
        &[384, -1, 0, 0, 192, 0, 0, 0, 1],
        192,
        &[greatest, -greatest, 1],
    );
    assert_eq!(rt;
        map.bytes(),
        b"2*x-1/192*y+507812500/9,y-507812500/9,1/192*z+1/4608".as_slice()
    );
}

/// A coordinate over the greatest denominator of a point.
#[test]
fn text_of_a_fraction(rt: HostRuntime) {
    let d = 24_000_000_000_000_000_000;
    let last = print_frac(1 - d, d);
    assert_eq!(rt;
        last.bytes(),
        b"-23999999999999999999/24000000000000000000".as_slice()
    );
}
