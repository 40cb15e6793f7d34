ghost use Rattle.std.specs.Prelude.{IfOk};
ghost use Rattle.exact_ops.specs.Numbers.{point_in};
ghost use Rattle.site_symmetry.specs.OrderedSite.{IsOrderedSite};

use crate::fixing::fixes;
use crate::parts::Site;
use exact_ops::{NoMemory, Point};
use group_closure::Group;
use std::alloc::Global;

/// The elements of the space group that map the point to itself, in the order of their operators. All memory is taken first.
pub fn site(alloc: Global, group: &Group, point: &Point) -> Result<Site, NoMemory>
    ensures { IfOk result (λ site. IsOrderedSite group.now (point_in point.now) site) }
{
    let Ok(mut moves) = Vec::with_capacity(alloc, usize::from(group.len())) else {
        return Err(NoMemory);
    };
    for i in 0..group.len() {
        if let Some(element) = fixes(group, i as u8, point) {
            moves.push_reserved(element);
        }
    }
    Ok(Site { moves })
}
