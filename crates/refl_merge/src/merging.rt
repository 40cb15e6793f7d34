ghost use Rattle.std.specs.Prelude.{◌≡◌, ◌<◌, ◌^◌, ◌↔◌, IfOk, IsTrue, IsSorted, length};
ghost use Rattle.std.specs.List.{All};
ghost use Rattle.group_closure.specs.GroupList.{IsGroup};
ghost use Rattle.phase_rules.specs.declared.pairs.Pairs.{Pairs};
ghost use Rattle.phase_rules.specs.Marks.{IsAbsent};
ghost use Rattle.refl_merge.specs.Merged.{IsMergedList, sum_of_values, HasValue};
ghost use Rattle.refl_merge.specs.Steps.{IsKeyed, measured_lines, entry_cmp, IsLineOfRun, AreGathered};

use crate::entries::{Keyed, compare, keyed_lines, run_end};
use crate::measured::MeasuredList;
use crate::merged::{Merged, MergedLine};
use exact_ops::NoMemory;
use group_closure::Group;
use phase_rules::parts::Mark;
use phase_rules::{Index, Pairs, mark};
use std::alloc::Global;

/// The merged list of the measured lines: each class with a line in it once, by its greatest index, in descending order.
pub fn merge(
    alloc: Global,
    group: &Group,
    list: &MeasuredList,
    pairs: Pairs,
) -> Result<Merged, NoMemory>
    ensures { IfOk result (λ merged. IsMergedList pairs group.now list.now merged) }
{
    // Every group says that it is one where its length is asked.
    let _ = group.len();
    let mut entries = keyed_lines(alloc, group, list, pairs)?;
    entries.sort_unstable_by(|a, b| compare(a, b));
    let lines = gather(alloc, group, &entries)?;
    Ok(Merged { lines })
}

/// The merged lines of entries that are in order.
fn gather(alloc: Global, group: &Group, entries: &[Keyed]) -> Result<Vec<MergedLine>, NoMemory>
    requires group { IsGroup group.now }
    requires few { length entries.now < 2 ^ 32 }
    requires sorted { IsSorted entry_cmp entries.now }
    requires keyed { (pairs : Pairs) × All (IsKeyed pairs group.now) entries.now }
    ensures gathered { IfOk result (λ lines. AreGathered group.now entries.now lines.items) }
    ensures few { IfOk result (λ lines. length lines.items < 2 ^ 32) }
{
    let Ok(mut lines) = Vec::with_capacity(alloc, entries.len()) else {
        return Err(NoMemory);
    };
    let mut start = 0;
    while start < entries.len() {
        let end = run_end(entries, start);
        lines.push_reserved(merged_line(group, &entries[start..end]));
        start = end;
    }
    Ok(lines)
}

/// The merged line of entries with one key.
fn merged_line(group: &Group, run: &[Keyed]) -> MergedLine
    requires some { 0 < length run.now }
    requires few { length run.now < 2 ^ 32 }
    ensures { IsLineOfRun group.now run.now result }
{
    let absent = is_absent(group, &run[0].line.index);
    MergedLine {
        key: run[0].key,
        count: run.len() as u32,
        sum: sum_of(run),
        absent,
        observed: absent && has_value(run),
    }
}

fn is_absent(group: &Group, index: &Index) -> bool
    ensures { IsTrue result ↔ IsAbsent group.now index.now }
{
    match mark(group, index, Pairs::Apart) {
        Mark::Absent => true,
        _ => false,
    }
}

/// The sum of the values.
fn sum_of(run: &[Keyed]) -> i64
    requires { length run.now < 2 ^ 32 }
    ensures { result ≡ sum_of_values (measured_lines run.now) }
{
    let mut sum = 0;
    for entry in run {
        sum += i64::from(entry.line.value);
    }
    sum
}

/// Whether a value is not 0.
fn has_value(run: &[Keyed]) -> bool
    ensures { IsTrue result ↔ HasValue (measured_lines run.now) }
{
    for entry in run {
        if entry.line.value != 0 {
            return true;
        }
    }
    false
}
