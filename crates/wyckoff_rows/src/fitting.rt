ghost use Rattle.std.specs.Prelude.{◌≡◌, ◌<◌, ℕ, Some, length, map, slice_get};
ghost use Rattle.std.specs.List.{Contains, position};
ghost use Rattle.std.specs.Ordering.{is_eq};
ghost use Rattle.exact_ops.specs.Numbers.{point_in};
ghost use Rattle.exact_ops.specs.declared.TheConstants.{UNIT};
ghost use Rattle.space_groups.specs.Rows as shown;
ghost use Rattle.space_groups.specs.Rows.{Fits, IsAt, IsRowList};
ghost use Rattle.wyckoff_rows.specs.Shown.{row_in, row_cmp};

use crate::parts::{Row, Rows};
use crate::table::compare;
use affine_sets::{average_at, key};
use exact_ops::{Op, Point};
use group_closure::Group;
use orbit_map::{image_in_cell, multiplicity};

/// The place of the one row of the table that a point fits, counted from 0.
pub fn fit(r: &Rows, g: &Group, p: &Point) -> usize
    requires { IsRowList UNIT g.now r.now }
    ensures fits { (k : ℕ) (row : shown.Row) → IsAt r.now k row
        → (k ≡ result → Fits UNIT g.now row (point_in p.now))
        × (Fits UNIT g.now row (point_in p.now) → k ≡ result) }
    ensures within { result < length r.now }
{
    let near = image_in_cell(&Op::identity(), p);
    let mult = multiplicity(g, &near);
    let key = key(g, &average_at(g, &near));
    place_in(&r.rows, &Row { mult, key })
}

/// The place of a row in a list that has it.
fn place_in(rows: &[Row], row: &Row) -> usize
    requires { Contains (map row_in rows.now) (row_in row.now) }
    ensures { slice_get (map row_in rows.now) result ≡ Some (row_in row.now) }
{
    first_equal(rows, row).unwrap()
}

fn first_equal(rows: &[Row], row: &Row) -> Option<usize>
    ensures { result ≡ position (λ other. is_eq (row_cmp other row.now)) rows.now }
{
    rows.iter().position(|other| compare(other, row).is_eq())
}
