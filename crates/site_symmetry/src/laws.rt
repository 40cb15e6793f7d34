ghost use Rattle.std.specs.Prelude.{◌≡◌, ◌↔◌, List};
ghost use Rattle.std.specs.List.{Contains};
ghost use Rattle.lattice_algebra.specs.Operator.{Operator};
ghost use Rattle.lattice_algebra.specs.Map.{Map, ◌∘◌, AreInverse};
ghost use Rattle.lattice_algebra.specs.Point.{Point, IsPoint, image};
ghost use Rattle.exact_ops.specs.declared.TheConstants.{UNIT};
ghost use Rattle.group_closure.specs.GroupList.{IsGroup};
ghost use Rattle.space_groups.specs.Space.{
  IsElement,
  IsInSite,
  IsInOrbit,
  AreConjugate,
  HaveSameElement,
};
ghost use Rattle.site_symmetry.specs.OrderedSite.{IsOrderedSite};

/// No two elements of a site-symmetry group have the same rotation part.
pub fn one_element_of_a_rotation()
    ensures { (members : List Operator) (x : Point) (a b : Map) → IsGroup members → IsPoint x
        → IsInSite UNIT members x a → IsInSite UNIT members x b → a.w ≡ b.w → a ≡ b }
{}

/// The elements of the site-symmetry group of the image g x are g r g^-1, for r in that of x.
pub fn site_of_image()
    ensures { (members : List Operator) (x : Point) (g back s : Map) → IsGroup members → IsPoint x
        → IsElement UNIT members g → AreInverse g back
        → (IsInSite UNIT members (image UNIT g x) s
        ↔ ((r : Map) × IsInSite UNIT members x r × (s ≡ g ∘ r ∘ back))) }
{}

/// x and y are conjugate exactly where some element g of the space group makes an image g x with the site-symmetry group of
/// y, compared member by member: each member of the group has the same element in both of them, or none in both.
pub fn conjugate_by_members()
    ensures { (members : List Operator) (x y : Point) → IsGroup members → IsPoint x → IsPoint y
        → (AreConjugate UNIT members x y ↔ ((g : Map) × IsElement UNIT members g
        × ((f : Operator) → Contains members f
        → HaveSameElement UNIT members f (image UNIT g x) y))) }
{}

/// Being conjugate is an equivalence relation.
pub fn conjugate_points()
    ensures itself { (members : List Operator) (x : Point) → IsGroup members
        → AreConjugate UNIT members x x }
    ensures back { (members : List Operator) (x y : Point) → IsGroup members
        → AreConjugate UNIT members x y → AreConjugate UNIT members y x }
    ensures on { (members : List Operator) (x y z : Point) → IsGroup members
        → AreConjugate UNIT members x y → AreConjugate UNIT members y z
        → AreConjugate UNIT members x z }
{}

/// A point and each point of its orbit are conjugate.
pub fn conjugate_points_of_an_orbit()
    ensures { (members : List Operator) (x p : Point) → IsGroup members → IsPoint x → IsPoint p
        → IsInOrbit UNIT members x p → AreConjugate UNIT members x p }
{}

/// Each rational point has a list of its site-symmetry group, in the order of the operators.
pub fn site_of_point()
    ensures { (members : List Operator) (x : Point) → IsGroup members → IsPoint x
        → (site : List Map) × IsOrderedSite members x site }
{}

/// A rational point has one ordered list of its site-symmetry group only.
pub fn one_ordered_site()
    ensures { (members : List Operator) (x : Point) (a b : List Map) → IsGroup members → IsPoint x
        → IsOrderedSite members x a → IsOrderedSite members x b → a ≡ b }
{}
