ghost use Rattle.std.specs.Prelude.{◌≡◌, List, length, count_by};
ghost use Rattle.phase_rules.specs.Rows.{Row};
ghost use Rattle.phase_rules.specs.Equivalent.{IsClass, fixes};
ghost use Rattle.phase_rules.specs.Marks.{IsMark};

use crate::index::Index;
use crate::pairs::Pairs;
use crate::parts::Mark;
use crate::tallies::Tally;
use group_closure::Group;

/// Whether the reflection is systematically absent, and if not, to which phase it is restricted.
pub fn mark(group: &Group, index: &Index, pairs: Pairs) -> Mark
    ensures { IsMark pairs group.now index.now result }
{
    Tally::of(group, index).mark(pairs)
}

/// How many members (W, t) have h W = h, at the index h.
pub fn fixers(group: &Group, index: &Index) -> u16
    ensures { result ≡ count_by (fixes index.now) group.now }
{
    Tally::of(group, index).fixers
}

/// How many different indices are equivalent to the index, itself and those out of range too.
pub fn class_size(group: &Group, index: &Index, pairs: Pairs) -> u16
    ensures { (class : List Row) → IsClass pairs group.now index.now class
        → result ≡ length class }
{
    Tally::of(group, index).class_size(group, pairs)
}
