ghost use Rattle.std.specs.Prelude.{◌≡◌, ◌≤◌, ◌<◌, ℕ, true, false, length, slice_index_or, IfSome, IfNone};
ghost use Rattle.tag_walks.specs.Regions.{IsFirstFree};

/// The first place from this one on that has no tag.
pub fn first_free(tags: &[bool], from: usize) -> Option<usize>
    ensures some { IfSome result (IsFirstFree tags.now from) }
    ensures none { IfNone result ((k : ℕ) → from ≤ k → k < length tags.now
        → slice_index_or tags.now k false ≡ true) }
{
    for place in from..tags.len() {
        if !tags[place] {
            return Some(place);
        }
    }
    None
}
