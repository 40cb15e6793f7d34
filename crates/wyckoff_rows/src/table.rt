ghost use Rattle.std.specs.Prelude.{◌≡◌, ◌<◌, IfOk, OnOk, length, map};
ghost use Rattle.exact_ops.specs.Elements.{map_in};
ghost use Rattle.exact_ops.specs.declared.TheConstants.{UNIT};
ghost use Rattle.space_groups.specs.Rows.{IsTable, IsRowList};
ghost use Rattle.wyckoff_rows.specs.Table.{IsTableOf};
ghost use Rattle.wyckoff_rows.specs.Shown.{row_in, row_cmp};
ghost use Rattle.wyckoff_rows.specs.Steps.{AreKept, AreMet, IsVisited, row_shown};

use crate::candidates::candidates;
use crate::entry::Entry;
use crate::keeping::{first, keep};
use crate::parts::{Row, Rows};
use affine_sets::parts::Key;
use exact_ops::NoMemory;
use group_closure::Group;
use std::alloc::Global;
use std::cmp::Ordering;

/// The rows of the table of Wyckoff positions of the space group: those of more points in a cell first, then by their keys.
pub fn rows(alloc: Global, g: &Group) -> Result<Rows, NoMemory>
    ensures table { IfOk result (λ rows. IsTableOf g.now rows) }
    ensures list { IfOk result (λ rows. IsRowList UNIT g.now rows) }
{
    let mut kept = first(alloc, g)?;
    let mut met = Vec::new(alloc);
    visit(alloc, g, &mut kept, &mut met)?;
    let mut rows = shown(alloc, &kept)?;
    rows.sort_unstable_by(|a, b| compare(a, b));
    Ok(Rows { rows })
}

/// Goes on from the last kept group: keeps all that it grows to, and all that these grow to.
fn visit(
    alloc: Global,
    g: &Group,
    kept: &mut Vec<Entry>,
    met: &mut Vec<Key>,
) -> Result<(), NoMemory>
    requires some { 0 < length kept.old.items }
    requires kept { AreKept g.now kept.old.items }
    requires met { AreMet g.now kept.old.items met.old.items }
    ensures visited { OnOk result (IsVisited g.now kept.old.items kept.new.items) }
    ensures met { OnOk result (AreMet g.now kept.new.items met.new.items) }
{
    let k = kept.len() - 1;
    let elements = candidates(alloc, g, &kept[k])?;
    for e in &elements {
        if keep(alloc, g, kept, met, k, e)? {
            visit(alloc, g, kept, met)?;
        }
    }
    Ok(())
}

/// The rows of the kept groups.
fn shown(alloc: Global, kept: &[Entry]) -> Result<Vec<Row>, NoMemory>
    ensures { IfOk result (λ rows. rows.items ≡ map row_shown kept.now) }
{
    let Ok(mut rows) = Vec::with_capacity(alloc, kept.len()) else {
        return Err(NoMemory);
    };
    for entry in kept {
        rows.push_reserved(Row {
            mult: entry.mult,
            key: entry.key,
        });
    }
    Ok(rows)
}

/// More points first, then the greater matrix, then the lesser translation.
pub fn compare(a: &Row, b: &Row) -> Ordering
    ensures { result ≡ row_cmp a.now b.now }
{
    b.mult
        .cmp(&a.mult)
        .then(b.key.m().cmp(&a.key.m()))
        .then(a.key.t().cmp(&b.key.t()))
}
