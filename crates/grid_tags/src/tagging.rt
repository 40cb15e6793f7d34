ghost use Rattle.std.specs.Prelude.{◌≡◌, ◌+◌, ◌<◌, ◌≤◌, ℕ, Some, List, length, slice_get};
ghost use Rattle.lattice_algebra.specs.Operator.{Operator};
ghost use Rattle.grid_tags.specs.Grids.{IsInGrid, points, triple_of};
ghost use Rattle.grid_tags.specs.Steps.{ratios_of, turned, fixing_count, AreTagged};
ghost use Rattle.grid_tags.specs.Axes.{AreAxes};

use crate::axes::Axes;
use crate::grid_size::GridSize;
use crate::image::turned;
use crate::ratios::Ratios;
use group_closure::Group;

/// Gives the images of a grid point this tag, and counts the members that take it to itself. A rotation part is asked once for
/// its run.
pub fn tag_orbit<T: Copy>(
    tags: &mut [T],
    tag: T,
    size: &GridSize,
    ratios: &Ratios,
    axes: &Axes,
    group: &Group,
    at: &[u16; 3],
) -> u16
    requires len { length tags.old ≡ points size.now }
    requires ratios { ratios.now ≡ ratios_of size.now }
    requires axes { AreAxes size.now axes.now }
    requires within { IsInGrid size.now (triple_of at.now) }
    ensures some { 0 < result }
    ensures count { result
        ≡ fixing_count group.now size.now (triple_of at.now) (length group.now) }
    ensures tags { AreTagged group.now size.now (triple_of at.now) tag tags.old tags.new
        (length group.now) }
{
    let order = group.len() as u8;
    tags[size.place(at)] = tag;
    let mut fixing = 1;
    let mut i = 1;
    while i < order {
        let image = turned(size, ratios, &group.op(i).w(), at);
        let end = group.run_end(i);
        fixing += tag_run(tags, tag, size, axes, group, at, &image, i, end);
        i = end;
    }
    fixing
}

/// The same for the members of a run, all of which have the rotation part that makes this image of the point.
fn tag_run<T: Copy>(
    tags: &mut [T],
    tag: T,
    size: &GridSize,
    axes: &Axes,
    group: &Group,
    at: &[u16; 3],
    image: &[u16; 3],
    start: u8,
    end: u8,
) -> u16
    requires len { length tags.old ≡ points size.now }
    requires axes { AreAxes size.now axes.now }
    requires within { IsInGrid size.now (triple_of at.now) }
    requires image_within { IsInGrid size.now (triple_of image.now) }
    requires bounds { (start ≤ end) × (end ≤ length group.now) }
    requires run { (k : ℕ) (f : Operator) → start ≤ k → k < end → slice_get group.now k ≡ Some f
        → triple_of image.now ≡ turned size.now f.w (triple_of at.now) }
    ensures count { fixing_count group.now size.now (triple_of at.now) start + result
        ≡ fixing_count group.now size.now (triple_of at.now) end }
    ensures tags { (old : List T)
        → AreTagged group.now size.now (triple_of at.now) tag old tags.old start
        → AreTagged group.now size.now (triple_of at.now) tag old tags.new end }
{
    let place = size.place(at);
    let x = axes.x.part(image[0]);
    let y = axes.y.part(image[1]);
    let z = axes.z.part(image[2]);
    let mut fixing = 0;
    for i in start..end {
        let there = axes.place_after(x, y, z, &group.op(i).t());
        tags[there] = tag;
        if there == place {
            fixing += 1;
        }
    }
    fixing
}
