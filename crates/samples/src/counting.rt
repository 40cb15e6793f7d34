ghost use Rattle.std.specs.Prelude.{IfOk};
ghost use Rattle.exact_ops.specs.declared.TheConstants.{UNIT};
ghost use Rattle.space_groups.specs.Rows.{IsRowList};
ghost use Rattle.samples.specs.Counts.{AreCounts};
ghost use Rattle.samples.specs.declared.counting.TheConstants.{POINTS as MADE};

use crate::points::Draws;
use exact_ops::NoMemory;
use group_closure::Group;
use std::alloc::Global;
use wyckoff_rows::fit;
use wyckoff_rows::parts::Rows;

/// How many points are made from a seed.
pub const POINTS: u32 = 1000;

/// How many of the points that are made from a seed fit each row of the table of a group, in the order of the rows.
pub fn count_points(
    alloc: Global,
    group: &Group,
    rows: &Rows,
    seed: u32,
) -> Result<Vec<u16>, NoMemory>
    requires { IsRowList UNIT group.now rows.now }
    ensures { IfOk result (λ counts. AreCounts group.now rows.now seed MADE counts.items) }
{
    let Ok(mut counts) = vec![in alloc; 0u16; rows.len()] else {
        return Err(NoMemory);
    };
    let mut draws = Draws { state: seed };
    let mut made = 0;
    while made < POINTS {
        let point = draws.point();
        let k = fit(rows, group, &point);
        counts[k] += 1;
        made += 1;
    }
    Ok(counts)
}
