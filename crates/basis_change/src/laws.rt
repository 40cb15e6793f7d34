ghost use Rattle.std.specs.Prelude.{◌≡◌, ◌≢◌, ◌⊎◌, List};
ghost use Rattle.lattice_algebra.specs.Operator.{Operator};
ghost use Rattle.exact_ops.specs.declared.TheConstants.{UNIT};
ghost use Rattle.group_closure.specs.GroupList.{IsGroup};
ghost use Rattle.space_groups.specs.Bases.{CoordinateChange, IsChange, IsBasisChange, IsChangedGroup, AreNarrow};
ghost use Rattle.basis_change.specs.declared.cell.RecellFault as recell;
ghost use Rattle.basis_change.specs.declared.cell.RecellFault.TheVariants as faults;
ghost use Rattle.basis_change.specs.Changes.{IsRecelled, IsRefusedAs};
ghost use Rattle.phase_rules.specs.declared.pairs.Pairs.{Pairs};
ghost use Rattle.phase_rules.specs.declared.parts.Mark.{Mark};
ghost use Rattle.phase_rules.specs.Rows.{Row};
ghost use Rattle.phase_rules.specs.Marks.{IsMark};
ghost use Rattle.basis_change.specs.Laws.{changed_row, changed_mark};

/// A space group has one group at most after a change of coordinates.
pub fn one_changed_group()
    ensures { (members a b : List Operator) (c : CoordinateChange) → IsChange c → IsGroup a
        → IsGroup b → IsChangedGroup UNIT members c a → IsChangedGroup UNIT members c b → a ≡ b }
{}

/// A group has one in another basis, where no changed operator has an entry beyond 2.
pub fn some_changed_group()
    ensures { (members : List Operator) (c : CoordinateChange) → IsBasisChange c → IsGroup members
        → AreNarrow UNIT members c
        → (changed : List Operator) × IsGroup changed × IsChangedGroup UNIT members c changed }
{}

/// A group has one in another cell, or a refusal other than want of memory.
pub fn some_recelled_group()
    ensures { (members : List Operator) (c : CoordinateChange) → IsChange c → IsGroup members
        → ((changed : List Operator) × IsRecelled members c changed)
        ⊎ ((fault : recell.RecellFault) × IsRefusedAs members c fault × (fault ≢ faults.NoMemory)) }
{}

/// The mark of a reflection in another basis: where the phase of h is restricted to s, that of h P is to s + 2 (h P).t, modulo a
/// cell, for the translation t of the change. The other marks stay.
pub fn mark_in_another_basis()
    ensures { (pairs : Pairs) (members changed : List Operator) (c : CoordinateChange) (h : Row)
        (mark : Mark) → IsGroup members → IsGroup changed → IsBasisChange c
        → IsChangedGroup UNIT members c changed → IsMark pairs members h mark
        → IsMark pairs changed (changed_row c h) (changed_mark c h mark) }
{}
