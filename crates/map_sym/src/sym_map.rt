ghost use Rattle.std.specs.Prelude.{◌≡◌, IfOk};
ghost use Rattle.grid_tags.specs.Grids.{IsInGrid, IsKept, triple_of};
ghost use Rattle.map_sym.specs.SummedMaps.{value_at, IsSummedMap, IsOneOnEachOrbit, IsSumOverList};

use crate::gathering::sum_by_firsts;
use crate::values::Values;
use exact_ops::NoMemory;
use grid_tags::{GridSize, first_points};
use group_closure::Group;
use std::alloc::Global;
use std::marker::Model;

/// A map: a sum for each grid point of a cell, and the total of what was summed.
#[derive(Drop)]
pub struct SymMap {
    size: GridSize,
    sums: Vec<i64>,
    total: i64,
}

impl Model for SymMap {
    ghost use Rattle.map_sym.specs.SummedMaps.{SummedMap, AreAllPoints};

    ghost Value = { SummedMap };

    ghost view = { λ m. record {
      sums = record { size = m.size; values = m.sums.items };
      total = m.total;
    } };

    ghost invariant = { λ m. AreAllPoints (record { size = m.size; values = m.sums.items }) };
}

impl SymMap {
    /// The sum at a grid point of the cell.
    pub fn value(&self, at: [u16; 3]) -> i64
        requires { IsInGrid self.now.sums.size (triple_of at) }
        ensures { result ≡ value_at self.now.sums (triple_of at) }
    {
        self.sums[self.size.place(&at)]
    }

    /// The sum of all values.
    pub fn total(&self) -> i64
        ensures { result ≡ self.now.total }
    {
        self.total
    }
}

/// The values summed over the orbits of the group, which keeps the grid: at each grid point of the cell the sum of the values at
/// the points of its orbit, each taken once. It takes twelve bytes for each grid point of a cell, and leaves eight in use.
pub fn symmetrize(
    alloc: Global,
    group: &Group,
    size: &GridSize,
    values: &Values,
) -> Result<SymMap, NoMemory>
    requires kept { IsKept group.now size.now }
    requires size { values.now.size ≡ size.now }
    ensures sums { IfOk result (λ map. IsSummedMap group.now values.now map) }
    // Points of one orbit have one sum.
    ensures one { IfOk result (λ map. IsOneOnEachOrbit group.now map.sums) }
    // The sums at the points of the grid list have the total as their sum.
    ensures total { IfOk result (λ map. IsSumOverList group.now map.sums map.total) }
{
    // Orbits are those of a group, and every group says that it is one where its length is asked.
    let _ = group.len();
    let firsts = first_points(alloc, group, size)?;
    let Ok(mut sums) = vec![in alloc; 0i64; size.points()] else {
        return Err(NoMemory);
    };
    let total = sum_by_firsts(&mut sums, &firsts, values.values());
    Ok(SymMap {
        size: *size,
        sums,
        total,
    })
}
