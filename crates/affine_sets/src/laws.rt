ghost use Rattle.std.specs.Prelude.{◌≡◌, ◌↔◌, List, length};
ghost use Rattle.lattice_algebra.specs.Operator.{Operator};
ghost use Rattle.exact_ops.specs.declared.TheConstants.{UNIT};
ghost use Rattle.group_closure.specs.GroupList.{IsGroup};
ghost use Rattle.space_groups.specs.Space.{ScaledPoint, point_of};
ghost use Rattle.space_groups.specs.Averages.{Block, IsInImage};
ghost use Rattle.space_groups.specs.Keys.{Key, IsKey};
ghost use Rattle.affine_sets.specs.Conditions.{
  IsAverage,
  IsOfFullGroup,
  HaveConjugateImages,
  IsMade,
};

/// Averages over full groups have one key exactly where an element of the space group carries the image of the one onto that of
/// the other.
pub fn one_key_of_conjugate_images()
    ensures { (members : List Operator) (a b : Block) (p q : Key) → IsGroup members
        → IsOfFullGroup members a → IsOfFullGroup members b
        → IsKey UNIT members (length members) a p → IsKey UNIT members (length members) b q
        → ((p ≡ q) ↔ HaveConjugateImages members a b) }
{}

/// The image of an average, the points that it leaves where they are, is all M z + t, for rational points z.
pub fn image_of_average()
    ensures { (members : List Operator) (a : Block) (y : ScaledPoint) → IsGroup members
        → IsAverage members a → (IsInImage a y ↔ IsMade members a (point_of UNIT y)) }
{}
