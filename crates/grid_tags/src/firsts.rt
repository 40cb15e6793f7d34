ghost use Rattle.std.specs.Prelude.{◌≡◌, IfOk, length};
ghost use Rattle.grid_tags.specs.Grids.{IsKept, points};
ghost use Rattle.grid_tags.specs.GridLists.{AreFirstPoints};
ghost use Rattle.grid_tags.specs.Steps.{AreOwnPlaces};

use crate::axes::Axes;
use crate::grid_size::GridSize;
use crate::ratios::Ratios;
use crate::tagging::tag_orbit;
use exact_ops::NoMemory;
use group_closure::Group;
use std::alloc::Global;

/// For each grid point of a cell, by its place, the place of the first point of its orbit: the tags of the grid. The group keeps
/// the grid. It takes four bytes for each grid point of a cell.
pub fn first_points(alloc: Global, group: &Group, size: &GridSize) -> Result<Vec<u32>, NoMemory>
    requires { IsKept group.now size.now }
    ensures { IfOk result (λ firsts. AreFirstPoints group.now size.now firsts.items) }
{
    // Orbits are those of a group, and every group says that it is one where its length is asked.
    let _ = group.len();
    let mut firsts = own_places(alloc, size)?;
    let ratios = Ratios::of(size);
    let axes = Axes::of(size);
    for place in 0..size.points() {
        // Only a point with no earlier one in its orbit is still its own first.
        if firsts[place] as usize == place {
            let at = size.point_at(place);
            tag_orbit(&mut firsts, place as u32, size, &ratios, &axes, group, &at);
        }
    }
    Ok(firsts)
}

/// The places of all grid points of a cell, ascending.
fn own_places(alloc: Global, size: &GridSize) -> Result<Vec<u32>, NoMemory>
    ensures len { IfOk result (λ places. length places.items ≡ points size.now) }
    ensures own { IfOk result (λ places. AreOwnPlaces places.items (points size.now)) }
{
    let Ok(mut places) = vec![in alloc; 0u32; size.points()] else {
        return Err(NoMemory);
    };
    for place in 0..places.len() {
        places[place] = place as u32;
    }
    Ok(places)
}
