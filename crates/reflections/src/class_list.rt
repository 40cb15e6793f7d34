ghost use Rattle.std.specs.Prelude.{◌≡◌, ◌++◌, ◌∷◌, [], ◌<◌, ◌≤◌, List, IfOk, IfSome, IfNone, OnSome};
ghost use Rattle.reflections.specs.declared.line.ClassLine.{ClassLine};
ghost use Rattle.reflections.specs.Boxes.{places};
ghost use Rattle.reflections.specs.ClassLists.{IsClassList};
ghost use Rattle.reflections.specs.Walks.{IsWalk};

use crate::box_size::BoxSize;
use crate::line::ClassLine;
use crate::tagging::tag_class;
use exact_ops::NoMemory;
use group_closure::Group;
use phase_rules::Pairs;
use std::alloc::Global;
use std::marker::Model;
use tag_walks::first_free;

/// A walk through the class list of a box. It is seen as the box, the pairs, the place that it has come to, and a tag for each
/// place.
#[derive(Drop)]
pub struct ClassList {
    size: BoxSize,
    pairs: Pairs,
    place: usize,
    tags: Vec<bool>,
}

impl Model for ClassList {
    ghost use Rattle.std.specs.Prelude.{◌≡◌, length};
    ghost use Rattle.reflections.specs.Boxes.{places};
    ghost use Rattle.reflections.specs.Walks.{Walk};

    ghost Value = { Walk };

    ghost view = { λ a.
        record { size = a.size; pairs = a.pairs; place = a.place; tags = a.tags.items } };

    ghost invariant = { λ a. length a.tags.items ≡ places a.size };
}

impl ClassList {
    /// The walk through the classes of the group in this box, before its first line. All memory is taken here: a byte for each
    /// index of the box.
    pub fn begin(
        alloc: Global,
        group: &Group,
        size: &BoxSize,
        pairs: Pairs,
    ) -> Result<ClassList, NoMemory>
        ensures walk { IfOk result (λ list. IsWalk group.now list []) }
        ensures size { IfOk result (λ list. list.size ≡ size.now) }
        ensures same_pairs { IfOk result (λ list. list.pairs ≡ pairs) }
    {
        // A walk is one of a group, and every group says that it is one where its length is asked.
        let _ = group.len();
        let Ok(tags) = vec![in alloc; false; size.places()] else {
            return Err(NoMemory);
        };
        Ok(ClassList {
            size: *size,
            pairs,
            place: 0,
            tags,
        })
    }

    /// The next line, of a walk through the classes of this group. None exactly where each line has been given, and then it stays
    /// None. It takes no memory.
    pub fn next(&mut self, group: &Group) -> Option<ClassLine>
        ensures some { (taken : List ClassLine) → IsWalk group.now self.old taken
            → IfSome result (λ line. IsWalk group.now self.new (taken ++ line ∷ [])) }
        ensures none { (taken : List ClassLine) → IsWalk group.now self.old taken
            → IfNone result (IsClassList self.old.pairs group.now self.old.size taken) }
        ensures stays { (taken : List ClassLine) → IsWalk group.now self.old taken
            → IfNone result (IsWalk group.now self.new taken) }

        // Each line brings the walk on, so that a loop over the lines ends.
        ensures later { OnSome result (self.old.place < self.new.place) }
        ensures within { OnSome result (self.new.place ≤ places self.new.size) }

        ensures size { self.new.size ≡ self.old.size }
        ensures same_pairs { self.new.pairs ≡ self.old.pairs }
    {
        let place = first_free(&self.tags, self.place)?;
        let index = self.size.index_at(place);
        let tally = tag_class(&mut self.tags, &self.size, group, &index, self.pairs);
        self.place = place + 1;
        Some(ClassLine {
            index,
            size: tally.class_size(group, self.pairs),
            fixers: tally.fixers,
            mark: tally.mark(self.pairs),
        })
    }
}
