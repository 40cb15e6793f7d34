ghost use Rattle.std.specs.Prelude.{◌≡◌, ◌↔◌, length};
ghost use Rattle.lattice_algebra.specs.Point.{Point};
ghost use Rattle.exact_ops.specs.declared.TheConstants.{UNIT as PARTS};
ghost use Rattle.space_groups.specs.Rows.{Lies};
ghost use Rattle.parameter_forms.specs.Forms.{IsParameterForm, pair_of};
ghost use Rattle.group_closure.specs.GroupList.{IsGroup};
ghost use Rattle.affine_sets.specs.Averages.{IsKeyInCell, key_over};

use crate::parts::{Key, Param};
use group_closure::Group;
use parameter_forms::form_of;

/// The parameter form of a key, the numbers of which stand over the number of members of the group: the points M z + t + n of
/// its row, for a rational z and a whole n, as B u + s + n in free coordinates, such as `x,x,0`. Whether a point lies on the row
/// may be read on either. Each key that `key` gives for the group meets the condition.
pub fn param(g: &Group, k: &Key) -> Param
    requires { IsKeyInCell (key_over (length g.now) k.now.key) }
    ensures form { IsParameterForm PARTS (length g.now) k.now.key result }
    ensures same_points { (y : Point) → Lies PARTS (length g.now) k.now.key y
        ↔ Lies PARTS result.over (pair_of result) y }
    // What is true of every group.
    ensures group { IsGroup g.now }
{
    form_of(&k.m, &k.t, g.len())
}
