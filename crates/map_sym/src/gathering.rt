//! Sums over all places that have one first place: gathered there, and then spread to each of them.
ghost use Rattle.std.specs.Prelude.{◌≡◌, ◌≤◌, ◌<◌, ℕ, pos, length, slice_index, slice_index_or};
ghost use Rattle.grid_tags.specs.declared.TheConstants.{MAX_POINTS};
ghost use Rattle.map_sym.specs.SummedMaps.{sum_over};
ghost use Rattle.map_sym.specs.Steps.{AreGathered, AreSpread, AreSummed, AreWithin, IsItsOwn};

/// Gives each place the sum of the values at all places that have its first place; a first place has itself. The result is the
/// sum of all values.
pub fn sum_by_firsts(sums: &mut [i64], firsts: &[u32], values: &[i32]) -> i64
    requires few { length values.now ≤ MAX_POINTS }
    requires firsts { length firsts.now ≡ length values.now }
    requires sums { length sums.old ≡ length values.now }
    requires within { AreWithin (length values.now) firsts.now }
    requires own { IsItsOwn firsts.now }
    requires none { (k : ℕ) → slice_index_or sums.old k (pos 0) ≡ pos 0 }
    ensures sums { AreSummed firsts.now values.now sums.new }
    ensures total { result ≡ sum_over (λ v. v) values.now }
{
    let total = gather(sums, firsts, values);
    spread(sums, firsts);
    total
}

/// Adds each value to the sum at its first place, and gives the sum of all values.
fn gather(sums: &mut [i64], firsts: &[u32], values: &[i32]) -> i64
    requires few { length values.now ≤ MAX_POINTS }
    requires len { length firsts.now ≡ length values.now }
    requires within { AreWithin (length sums.old) firsts.now }
    requires none { (k : ℕ) → slice_index_or sums.old k (pos 0) ≡ pos 0 }
    ensures sums { AreGathered firsts.now values.now sums.new (length values.now) }
    ensures total { result ≡ sum_over (λ v. v) values.now }
{
    let mut total = 0;
    for (place, value) in values.iter().enumerate() {
        let value = i64::from(*value);
        sums[firsts[place] as usize] += value;
        total += value;
    }
    total
}

/// Writes the sum at each first place to all places that have it.
fn spread(sums: &mut [i64], firsts: &[u32])
    requires len { length firsts.now ≡ length sums.old }
    requires within { AreWithin (length sums.old) firsts.now }
    requires own { IsItsOwn firsts.now }
    ensures { AreSpread firsts.now sums.old sums.new (length sums.old) }
{
    for place in 0..firsts.len() {
        sums[place] = sums[firsts[place] as usize];
    }
}
