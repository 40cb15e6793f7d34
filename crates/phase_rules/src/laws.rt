ghost use Rattle.std.specs.Prelude.{◌≡◌, ◌+◌, ◌*◌, List, length, count_by};
ghost use Rattle.std.specs.List.{Contains};
ghost use Rattle.lattice_algebra.specs.Operator.{Operator};
ghost use Rattle.group_closure.specs.GroupList.{IsGroup};
ghost use Rattle.phase_rules.specs.declared.pairs.Pairs.{Pairs};
ghost use Rattle.phase_rules.specs.declared.pairs.Pairs.TheVariants.{Friedel, Apart};
ghost use Rattle.phase_rules.specs.declared.parts.Mark.{Mark};
ghost use Rattle.phase_rules.specs.declared.parts.Mark.TheVariants.{Phase};
ghost use Rattle.phase_rules.specs.Rows.{Row, origin_row, neg_row, ◌·ʳ◌};
ghost use Rattle.phase_rules.specs.Equivalent.{AreEquivalent, IsClass, fixes, reverses};
ghost use Rattle.phase_rules.specs.Marks.{IsAbsent, IsMark, carried_mark, opposite_mark};

/// Each row has a mark.
pub fn mark_of_index()
    ensures { (pairs : Pairs) (members : List Operator) (h : Row)
        → (mark : Mark) × IsMark pairs members h mark }
{}

/// A row has one mark at most: all members that restrict the phase of a present reflection agree.
pub fn one_mark()
    ensures { (pairs : Pairs) (members : List Operator) (h : Row) (a b : Mark) → IsGroup members
        → IsMark pairs members h a → IsMark pairs members h b → a ≡ b }
{}

/// Each row has a class: a list of the rows that are equivalent to it.
pub fn class_of_index()
    ensures { (pairs : Pairs) (members : List Operator) (h : Row)
        → (class : List Row) × IsClass pairs members h class }
{}

/// The size of a class, times the number of members with h W = h, is the number of members where the pairs are apart. With
/// Friedel's law the size, times the number of members with h W = h and of those with h W = -h, is twice that number.
pub fn class_size_by_members()
    ensures apart { (members : List Operator) (h : Row) (class : List Row) → IsGroup members
        → IsClass Apart members h class
        → length class * count_by (fixes h) members ≡ length members }
    ensures friedel { (members : List Operator) (h : Row) (class : List Row) → IsGroup members
        → IsClass Friedel members h class
        → length class * (count_by (fixes h) members + count_by (reverses h) members)
        ≡ 2 * length members }
{}

/// Equivalent reflections have one class, are fixed by as many members, and are absent together.
pub fn equivalent_reflections()
    ensures class { (pairs : Pairs) (members : List Operator) (h g : Row) (class : List Row)
        → IsGroup members → AreEquivalent pairs members h g → IsClass pairs members h class
        → IsClass pairs members g class }
    ensures fixers { (pairs : Pairs) (members : List Operator) (h g : Row) → IsGroup members
        → AreEquivalent pairs members h g
        → count_by (fixes h) members ≡ count_by (fixes g) members }
    ensures absent { (pairs : Pairs) (members : List Operator) (h g : Row) → IsGroup members
        → AreEquivalent pairs members h g → IsAbsent members h → IsAbsent members g }
{}

/// The mark is carried over to h W for each member (W, t), and to -h: where the phase of h is restricted to s, that of h W is to
/// s - 2 h.t, and that of -h to the opposite, modulo a cell.
pub fn mark_of_equivalent_reflection()
    ensures member { (pairs : Pairs) (members : List Operator) (h : Row) (f : Operator) (mark : Mark)
        → IsGroup members → Contains members f → IsMark pairs members h mark
        → IsMark pairs members (h ·ʳ f.w) (carried_mark h f mark) }
    ensures opposite { (pairs : Pairs) (members : List Operator) (h : Row) (mark : Mark)
        → IsMark pairs members h mark → IsMark pairs members (neg_row h) (opposite_mark mark) }
{}

/// The reflection 0 0 0 is never absent, and with Friedel's law its phase is 0.
pub fn mark_of_origin()
    ensures present { (members : List Operator) → ¬ IsAbsent members origin_row }
    ensures phase { (members : List Operator) → IsGroup members
        → IsMark Friedel members origin_row (Phase 0) }
{}
