use basis_change::parts::Change;
use exact_ops::Point;
use phase_rules::Index;
use std::test::Fail;
use triplet_text::read_triplet;

/// Under x - z + 1/8, y, z the point 1/2, 1/3, 1/4 becomes 3/8, 1/3, 1/4, over 24 times 24. The inverse of the matrix is
/// that of x + z, y, z: so the index 1, 2, 3 becomes 1, 2, 4.
#[test]
fn point_and_index_in_another_basis(rt: HostRuntime) -> Result<(), Fail> {
    let raw = read_triplet(b"x-z+1/8,y,z").ok_or("no triplet")?;
    let c = Change::of(&raw).ok_or("no change of basis")?;
    let p = Point::of_coords([(1, 2), (1, 3), (1, 4)]).ok_or("out of range")?;
    let there = c.point(&p).ok_or("out of range")?;
    let n = there.n;
    assert_eq!(rt; (n, there.d), ([216, 192, 144], 576));
    let h = Index::of(1, 2, 3).ok_or("out of range")?;
    assert_eq!(rt; c.index(&h), Index::of(1, 2, 4));
    Ok(())
}
