ghost use Rattle.std.specs.Prelude.{◌≡◌, ◌++◌, List};
ghost use Rattle.std.specs.List.{Contains};
ghost use Rattle.lattice_algebra.specs.Operator.{Operator};
ghost use Rattle.group_closure.specs.GroupList.{IsGroup};
ghost use Rattle.phase_rules.specs.declared.pairs.Pairs.{Pairs};
ghost use Rattle.phase_rules.specs.Rows.{Row};
ghost use Rattle.reflections.specs.declared.line.ClassLine.{ClassLine};
ghost use Rattle.reflections.specs.Boxes.{Box, IsInBox, IsNoLarger};
ghost use Rattle.reflections.specs.ClassLists.{IsClassList, IsOnlyLineOf};
ghost use Rattle.reflections.specs.Walks.{Walk, IsWalk};

/// A box has a class list.
pub fn some_class_list()
    ensures { (pairs : Pairs) (members : List Operator) (box : Box) → IsGroup members
        → (lines : List ClassLine) × IsClassList pairs members box lines }
{}

/// A box has one class list only.
pub fn one_class_list()
    ensures { (pairs : Pairs) (members : List Operator) (box : Box) (a b : List ClassLine)
        → IsGroup members → IsClassList pairs members box a → IsClassList pairs members box b
        → a ≡ b }
{}

/// For each index of the box exactly one listed index is equivalent to it.
pub fn one_line_of_each_class()
    ensures { (pairs : Pairs) (members : List Operator) (box : Box) (lines : List ClassLine)
        (h : Row) → IsGroup members → IsClassList pairs members box lines → IsInBox box h
        → (line : ClassLine) × IsOnlyLineOf pairs members box lines h line }
{}

/// The lines that were taken from a walk are the first of the class list.
pub fn lines_taken_are_first()
    ensures { (members : List Operator) (walk : Walk) (taken lines : List ClassLine)
        → IsWalk members walk taken → IsClassList walk.pairs members walk.size lines
        → (rest : List ClassLine) × (lines ≡ taken ++ rest) }
{}

/// A line of a box whose index is in a box that is no larger is a line of that box too.
pub fn lines_of_a_smaller_box()
    ensures { (pairs : Pairs) (members : List Operator) (small big : Box) (a b : List ClassLine)
        (line : ClassLine) → IsGroup members → IsNoLarger small big
        → IsClassList pairs members small a → IsClassList pairs members big b
        → Contains b line → IsInBox small line.index → Contains a line }
{}
