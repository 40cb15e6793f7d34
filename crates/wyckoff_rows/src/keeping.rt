ghost use Rattle.std.specs.Prelude.{◌≡◌, ◌≢◌, ◌<◌, ◌↔◌, ◌∷◌, [], pos, Some, IfOk, OnOk, IsTrue, length, slice_get, false};
ghost use Rattle.std.specs.List.{Contains};
ghost use Rattle.lattice_algebra.specs.Map.{identity_map};
ghost use Rattle.exact_ops.specs.Elements.{map_in};
ghost use Rattle.exact_ops.specs.declared.TheConstants.{UNIT};
ghost use Rattle.space_groups.specs.Keys.{IsKey};
ghost use Rattle.wyckoff_rows.specs.declared.entry.Entry.{Entry};
ghost use Rattle.wyckoff_rows.specs.Steps.{IsEntry, IsAverageNearOrigin, AreKept, AreMet, HasGrown, HasKeyOf, IsCandidate, IsKeptMore, IsAdded};

use crate::entry::Entry;
use affine_sets::parts::Key;
use affine_sets::{Special, Sub, full, key, mean};
use exact_ops::{Move, NoMemory};
use group_closure::Group;
use std::alloc::Global;

/// The list that has the group of the identity alone.
pub fn first(alloc: Global, g: &Group) -> Result<Vec<Entry>, NoMemory>
    ensures kept { IfOk result (λ kept. AreKept g.now kept.items) }
    ensures trivial { IfOk result (λ kept. (t : Entry) × (kept.items ≡ t ∷ [])
        × (t.set ≡ identity_map ∷ [])) }
{
    let Ok(mut kept) = Vec::with_capacity(alloc, usize::from(g.len())) else {
        return Err(NoMemory);
    };
    let trivial = Sub::trivial(alloc)?;
    let average = mean(g, &trivial);
    let key = key(g, &average);
    let entry = entry(alloc, g, average, key)?;
    kept.push_reserved(entry);
    Ok(kept)
}

/// Grows the kept group at place k by an element. Where the key of what it grows to is new, that is kept, and the answer is
/// true.
pub fn keep(
    alloc: Global,
    g: &Group,
    kept: &mut Vec<Entry>,
    met: &mut Vec<Key>,
    k: usize,
    e: &Move,
) -> Result<bool, NoMemory>
    requires place { k < length kept.old.items }
    requires kept { AreKept g.now kept.old.items }
    requires met { AreMet g.now kept.old.items met.old.items }
    requires candidate { IsCandidate g.now (map_in e.now) }
    ensures more { IfOk result (λ more. (t : Entry) → slice_get kept.old.items k ≡ Some t
        → IsKeptMore more kept.old.items t kept.new.items) }
    ensures kept { OnOk result (AreKept g.now kept.new.items) }
    ensures met { OnOk result (AreMet g.now kept.new.items met.new.items) }
    ensures grown { OnOk result ((t : Entry) → slice_get kept.old.items k ≡ Some t
        → HasGrown g.now kept.new.items t (map_in e.now)) }
{
    let set = &kept[k].set;
    let Some(grown) = set.grow(alloc, g, e)? else {
        return Ok(false);
    };
    if grown.len() == set.len() {
        return Ok(false);
    }
    let near = grown.near(alloc, g)?;
    let average = mean(g, &near);
    let more = keep_average(alloc, g, kept, met, average)?;
    Ok(more)
}

/// Keeps what an average has, where it was not met before and its key is new.
fn keep_average(
    alloc: Global,
    g: &Group,
    kept: &mut Vec<Entry>,
    met: &mut Vec<Key>,
    average: Special,
) -> Result<bool, NoMemory>
    requires kept { AreKept g.now kept.old.items }
    requires met { AreMet g.now kept.old.items met.old.items }
    requires near { IsAverageNearOrigin g.now average }
    requires over { average.n ≡ pos (length g.now) }
    ensures more { IfOk result (λ more. IsAdded more kept.old.items average kept.new.items) }
    ensures kept { OnOk result (AreKept g.now kept.new.items) }
    ensures met { OnOk result (AreMet g.now kept.new.items met.new.items) }
    ensures key { OnOk result (HasKeyOf g.now kept.new.items average) }
{
    let place = average.in_cell();
    if holds(met, &place) {
        return Ok(false);
    }
    let Ok(()) = met.push(place) else {
        return Err(NoMemory);
    };
    let key = key(g, &average);
    if has_key(kept, &key) {
        return Ok(false);
    }
    let entry = entry(alloc, g, average, key)?;
    let Ok(()) = kept.push(entry) else {
        return Err(NoMemory);
    };
    Ok(true)
}

fn holds(met: &[Key], key: &Key) -> bool
    ensures { IsTrue result ↔ Contains met.now key.now }
{
    for place in met {
        if place.is(key) {
            return true;
        }
    }
    false
}

fn has_key(kept: &[Entry], key: &Key) -> bool
    ensures some { IsTrue result → (t : Entry) × Contains kept.now t × (t.key ≡ key.now) }
    ensures none { result ≡ false → (t : Entry) → Contains kept.now t → t.key ≢ key.now }
{
    for entry in kept {
        if entry.key.is(key) {
            return true;
        }
    }
    false
}

/// What is kept of an average.
fn entry(alloc: Global, g: &Group, average: Special, key: Key) -> Result<Entry, NoMemory>
    requires near { IsAverageNearOrigin g.now average }
    requires key { IsKey UNIT g.now (length g.now) average key.key }
    requires over { key.over ≡ length g.now }
    ensures entry { IfOk result (λ t. IsEntry g.now t) }
    ensures average { IfOk result (λ t. t.average ≡ average) }
    ensures key { IfOk result (λ t. t.key ≡ key) }
{
    let set = full(alloc, g, &average)?;
    let mult = g.len() / set.len();
    Ok(Entry {
        set,
        average,
        key,
        mult,
    })
}
