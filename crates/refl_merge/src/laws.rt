ghost use Rattle.std.specs.Prelude.{◌≡◌, ◌↔◌, ◌⊎◌, IsTrue, ℕ, List, length, sum_by};
ghost use Rattle.std.specs.List.{Contains};
ghost use Rattle.lattice_algebra.specs.Operator.{Operator};
ghost use Rattle.group_closure.specs.GroupList.{IsGroup};
ghost use Rattle.phase_rules.specs.declared.pairs.Pairs.{Pairs};
ghost use Rattle.phase_rules.specs.Rows.{Row};
ghost use Rattle.phase_rules.specs.Equivalent.{AreEquivalent};
ghost use Rattle.data_lines.specs.DataLines.{IsFirstSuch, IsBadLine};
ghost use Rattle.refl_merge.specs.declared.measured.Measured.{Measured};
ghost use Rattle.refl_merge.specs.declared.merged.MergedLine.{MergedLine};
ghost use Rattle.refl_merge.specs.Keys.{IsClassKey};
ghost use Rattle.refl_merge.specs.MeasuredLines.{IsMeasuredLine, AreMeasuredLines};
ghost use Rattle.refl_merge.specs.Merged.{are_equivalent, IsMergedList, IsOnlyLineOf};
ghost use Rattle.refl_merge.specs.Texts.{IsMergedText};

/// The test of equivalence, by which the lines of a class are chosen, tells which indices are equivalent.
pub fn test_of_equivalence()
    ensures { (pairs : Pairs) (members : List Operator) (h g : Row)
        → (IsTrue (are_equivalent pairs members h g) ↔ AreEquivalent pairs members h g) }
{}

/// Each class has a key.
pub fn some_class_key()
    ensures { (pairs : Pairs) (members : List Operator) (h : Row) → IsGroup members
        → (key : Row) × IsClassKey pairs members h key }
{}

/// Equivalent indices have one key.
pub fn one_class_key()
    ensures { (pairs : Pairs) (members : List Operator) (h g a b : Row) → IsGroup members
        → AreEquivalent pairs members h g → IsClassKey pairs members h a
        → IsClassKey pairs members g b → a ≡ b }
{}

/// Every list of measured lines has a merged list.
pub fn some_merged_list()
    ensures { (pairs : Pairs) (members : List Operator) (lines : List Measured) → IsGroup members
        → (merged : List MergedLine) × IsMergedList pairs members lines merged }
{}

/// It has one merged list only.
pub fn one_merged_list()
    ensures { (pairs : Pairs) (members : List Operator) (lines : List Measured)
        (a b : List MergedLine) → IsGroup members → IsMergedList pairs members lines a
        → IsMergedList pairs members lines b → a ≡ b }
{}

/// Each measured line is counted in one class.
pub fn one_class_of_each_line()
    ensures { (pairs : Pairs) (members : List Operator) (lines : List Measured)
        (merged : List MergedLine) (m : Measured) → IsGroup members
        → IsMergedList pairs members lines merged → Contains lines m
        → (line : MergedLine) × IsOnlyLineOf pairs members merged m.index line }
{}

/// A line writes one index and value at most.
pub fn measured_line_is_unique()
    ensures { (line : List ℕ) (a b : Measured) → IsMeasuredLine line a → IsMeasuredLine line b
        → a ≡ b }
{}

/// Lines are all read, or one is the first bad one.
pub fn measured_lines_are_read_or_bad()
    ensures { (first : ℕ) (lines : List (List ℕ))
        → ((list : List Measured) × AreMeasuredLines lines list)
        ⊎ ((k : ℕ) × IsFirstSuch IsMeasuredLine (IsBadLine IsMeasuredLine) first lines k) }
{}

/// The merged list of some lines has one text, and one only.
pub fn one_text_of_merged_lines()
    ensures some { (pairs : Pairs) (members : List Operator) (lines : List Measured)
        → IsGroup members → (text : List ℕ) × IsMergedText pairs members lines text }
    ensures one { (pairs : Pairs) (members : List Operator) (lines : List Measured)
        (a b : List ℕ) → IsGroup members → IsMergedText pairs members lines a
        → IsMergedText pairs members lines b → a ≡ b }
{}

/// The counts of the classes have the number of the measured lines as their sum.
pub fn counts_of_all_lines()
    ensures { (pairs : Pairs) (members : List Operator) (lines : List Measured)
        (merged : List MergedLine) → IsGroup members → IsMergedList pairs members lines merged
        → sum_by (λ (line : MergedLine). line.count) merged ≡ length lines }
{}
