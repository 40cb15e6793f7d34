ghost use Rattle.std.specs.Prelude.{◌≡◌, ◌<◌, ◌^◌, IfOk, length};
ghost use Rattle.refl_merge.specs.Steps.{AreKeyed, IsKeyRun, entry_cmp};

use crate::class_keys::class_key;
use crate::measured::{Measured, MeasuredList};
use crate::rows::compare_rows;
use exact_ops::NoMemory;
use group_closure::Group;
use phase_rules::Pairs;
use std::alloc::Global;
use std::cmp::Ordering;

/// A measured line with the key of its class.
#[derive(Clone, Copy, PartialEq, Eq, Debug, Drop)]
pub struct Keyed {
    pub key: [i32; 3],
    pub line: Measured,
}

/// The lines with the keys of their classes, in their order.
pub fn keyed_lines(
    alloc: Global,
    group: &Group,
    list: &MeasuredList,
    pairs: Pairs,
) -> Result<Vec<Keyed>, NoMemory>
    ensures keyed { IfOk result (λ entries. AreKeyed pairs group.now list.now entries.items) }
    ensures few { IfOk result (λ entries. length entries.items < 2 ^ 32) }
{
    let Ok(mut entries) = Vec::with_capacity(alloc, list.len() as usize) else {
        return Err(NoMemory);
    };
    for k in 0..list.len() {
        let line = list.get(k);
        let key = class_key(group, &line.index, pairs);
        entries.push_reserved(Keyed { key, line });
    }
    Ok(entries)
}

/// By the keys, descending.
pub fn compare(a: &Keyed, b: &Keyed) -> Ordering
    ensures { result ≡ entry_cmp a.now b.now }
{
    compare_rows(&b.key, &a.key)
}

/// Where the entries end that have the key of that at `start`.
pub fn run_end(entries: &[Keyed], start: usize) -> usize
    requires { start < length entries.now }
    ensures { IsKeyRun entries.now start result }
{
    let mut end = start + 1;
    while end < entries.len() && entries[end].key == entries[start].key {
        end += 1;
    }
    end
}
