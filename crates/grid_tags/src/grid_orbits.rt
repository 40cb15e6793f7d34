ghost use Rattle.std.specs.Prelude.{◌≡◌, ◌++◌, ◌∷◌, [], ◌<◌, ◌≤◌, ◌↔◌, List, IfOk, IfSome, IfNone, OnSome, IsErrOf};
ghost use Rattle.grid_tags.specs.declared.line.GridLine.{GridLine};
ghost use Rattle.grid_tags.specs.Grids.{IsKept, points};
ghost use Rattle.grid_tags.specs.GridLists.{IsGridList};
ghost use Rattle.grid_tags.specs.Walks.{IsWalk};

use crate::axes::Axes;
use crate::grid_size::GridSize;
use crate::keeping::accepts;
use crate::line::GridLine;
use crate::ratios::Ratios;
use crate::tagging::tag_orbit;
use group_closure::Group;
use std::alloc::Global;
use std::marker::Model;
use tag_walks::first_free;

/// Why there is no walk.
#[derive(Clone, Copy, PartialEq, Eq, Debug, Drop)]
pub enum GridFault {
    /// Some member maps a grid point beside the grid.
    NotKept,
    /// Want of memory, which may come for any grid that is kept.
    NoMemory,
}

/// A walk through the orbits of the points of a grid. It is seen as the grid, the place that it has come to, and a tag for each
/// place.
#[derive(Drop)]
pub struct GridOrbits {
    size: GridSize,
    ratios: Ratios,
    axes: Axes,
    place: usize,
    tags: Vec<bool>,
}

impl Model for GridOrbits {
    ghost use Rattle.std.specs.Prelude.{◌≡◌, length};
    ghost use Rattle.grid_tags.specs.Grids.{points};
    ghost use Rattle.grid_tags.specs.Walks.{Walk};
    ghost use Rattle.grid_tags.specs.Steps.{ratios_of};
    ghost use Rattle.grid_tags.specs.Axes.{AreAxes};

    ghost Value = { Walk };

    ghost view = { λ o. record { size = o.size; place = o.place; tags = o.tags.items } };

    ghost invariant = { λ o. (length o.tags.items ≡ points o.size)
        × (o.ratios ≡ ratios_of o.size) × AreAxes o.size o.axes };
}

impl GridOrbits {
    /// The walk through the orbits of the group in this grid, before its first line. `NotKept` comes exactly where the group does
    /// not keep the grid; that is tested before memory is taken. All memory is taken here: a byte for each grid point of a cell.
    pub fn begin(alloc: Global, group: &Group, size: &GridSize) -> Result<GridOrbits, GridFault>
        ensures walk { IfOk result (λ orbits. IsWalk group.now orbits []) }
        ensures size { IfOk result (λ orbits. orbits.size ≡ size.now) }
        ensures not_kept { IsErrOf result GridFault.NotKept ↔ (¬ IsKept group.now size.now) }
    {
        // A walk is one of a group, and every group says that it is one where its length is asked.
        let _ = group.len();
        if !accepts(group, size) {
            return Err(GridFault::NotKept);
        }
        let Ok(tags) = vec![in alloc; false; size.points()] else {
            return Err(GridFault::NoMemory);
        };
        Ok(GridOrbits {
            size: *size,
            ratios: Ratios::of(size),
            axes: Axes::of(size),
            place: 0,
            tags,
        })
    }

    /// The next line, of a walk through the orbits of this group. None exactly where each line has been given, and then it stays
    /// None. It takes no memory.
    pub fn next(&mut self, group: &Group) -> Option<GridLine>
        ensures some { (taken : List GridLine) → IsWalk group.now self.old taken
            → IfSome result (λ line. IsWalk group.now self.new (taken ++ line ∷ [])) }
        ensures none { (taken : List GridLine) → IsWalk group.now self.old taken
            → IfNone result (IsGridList group.now self.old.size taken) }
        ensures stays { (taken : List GridLine) → IsWalk group.now self.old taken
            → IfNone result (IsWalk group.now self.new taken) }

        // Each line brings the walk on, so that a loop over the lines ends.
        ensures later { OnSome result (self.old.place < self.new.place) }
        ensures within { OnSome result (self.new.place ≤ points self.new.size) }

        ensures size { self.new.size ≡ self.old.size }
    {
        let place = first_free(&self.tags, self.place)?;
        let at = self.size.point_at(place);
        let fixing = tag_orbit(
            &mut self.tags,
            true,
            &self.size,
            &self.ratios,
            &self.axes,
            group,
            &at,
        );
        self.place = place + 1;
        Some(GridLine {
            at,
            size: group.len() / fixing,
        })
    }
}
