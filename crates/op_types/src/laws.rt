ghost use Rattle.std.specs.Prelude.{◌≡◌, ◌↔◌, ◌*◌, ℕ, ℤ, pos, ◌<ℤ◌, List, length};
ghost use Rattle.std.specs.Int.{◌∣◌};
ghost use Rattle.std.specs.List.{Contains};
ghost use Rattle.lattice_algebra.specs.Matrix.{Matrix, Column, ◌·ᶜ◌, times, identity};
ghost use Rattle.lattice_algebra.specs.Operator.{Operator};
ghost use Rattle.lattice_algebra.specs.Map.{map_of};
ghost use Rattle.lattice_algebra.specs.Powers.{IsOrder};
ghost use Rattle.exact_ops.specs.declared.TheConstants.{UNIT};
ghost use Rattle.group_closure.specs.GroupList.{IsGroup};
ghost use Rattle.op_types.specs.IntrinsicPart.{IsIntrinsicPart, repeated};
ghost use Rattle.op_types.specs.ProperPart.{IsProperPart};
ghost use Rattle.op_types.specs.Types.{OperationType, IsTypeOf, AgreeInType};

/// The order of the rotation part W of a member divides the order of the group: its number of members.
pub fn order_divides_length()
    ensures { (members : List Operator) (f : Operator) (k : ℕ) → IsGroup members
        → Contains members f → IsOrder f.w k → k ∣ length members }
{}

/// The order of the proper part of a member, W or -W, divides the number of members too.
pub fn proper_order_divides_length()
    ensures { (members : List Operator) (f : Operator) (p : Matrix) (k : ℕ) → IsGroup members
        → Contains members f → IsProperPart f.w p → IsOrder p k → k ∣ length members }
{}

/// An operation (W, t), as often as the order k of W says, is a translation, and n / d is its intrinsic part exactly where this
/// translation is k n / d. W leaves the intrinsic part as it is: so that of a rotation lies along its axis, and that of a
/// reflection in its plane.
pub fn intrinsic_part_of_a_power()
    ensures turned { (f : Operator) (k : ℕ) → IsOrder f.w k → (repeated (map_of f) k).w ≡ identity }
    ensures translation { (f : Operator) (n : Column) (d : ℤ) (k : ℕ) → pos 0 <ℤ d → IsOrder f.w k
        → IsIntrinsicPart f n d ↔ (times d (repeated (map_of f) k).s ≡ times (pos (UNIT * k)) n) }
    ensures fixed { (f : Operator) (n : Column) (d : ℤ) → IsIntrinsicPart f n d → f.w ·ᶜ n ≡ n }
{}

/// Each member of a group has a type, and no operator has two: the fractions agree as values.
pub fn one_type()
    ensures some { (members : List Operator) (f : Operator) → IsGroup members → Contains members f
        → (t : OperationType) × IsTypeOf f t }
    ensures one { (f : Operator) (s t : OperationType) → IsTypeOf f s → IsTypeOf f t
        → AgreeInType s t }
{}
