ghost use Rattle.std.specs.Prelude.{◌≡◌, ◌⊎◌, ℕ, List, Some, slice_get};
ghost use Rattle.lattice_algebra.specs.Operator.{Operator};
ghost use Rattle.lattice_algebra.specs.Point.{Point, IsPoint};
ghost use Rattle.exact_ops.specs.declared.TheConstants.{UNIT};
ghost use Rattle.group_closure.specs.GroupList.{IsGroup};
ghost use Rattle.space_groups.specs.Lists.{IsOrbitList};
ghost use Rattle.space_groups.specs.Space.{IsInOrbit};
ghost use Rattle.data_lines.specs.DataLines.{IsFirstSuch, IsBadLine};
ghost use Rattle.atom_expand.specs.declared.expansion.Expanded.{Expanded};
ghost use Rattle.atom_expand.specs.Sites.{AtomSite, IsAtomLine, AreAtomLines};
ghost use Rattle.atom_expand.specs.Printing.{IsAtomsText};
ghost use Rattle.atom_expand.specs.Expansions.{IsExpansion, HasOrbit, StandsOnce, IsFirstThrough, AreAtPoints, AreAtScaledPoints};

/// A line writes one site at most.
pub fn site_is_unique()
    ensures { (line : List ℕ) (a b : AtomSite) → IsAtomLine line a → IsAtomLine line b → a ≡ b }
{}

/// The lines that are not skipped write one list of sites, or one of them is the first bad one.
pub fn sites_are_written_or_bad()
    ensures some { (first : ℕ) (lines : List (List ℕ))
        → ((sites : List AtomSite) × AreAtomLines lines sites)
        ⊎ ((k : ℕ) × IsFirstSuch IsAtomLine (IsBadLine IsAtomLine) first lines k) }
    ensures one { (lines : List (List ℕ)) (a b : List AtomSite)
        → AreAtomLines lines a → AreAtomLines lines b → a ≡ b }
    ensures scaled { (lines : List (List ℕ)) (sites : List AtomSite)
        → AreAtomLines lines sites → AreAtScaledPoints sites }
{}

/// Sites have an expansion, and one only.
pub fn one_expansion()
    ensures some { (members : List Operator) (sites : List AtomSite) → IsGroup members
        → AreAtScaledPoints sites
        → (entries : List Expanded) × IsExpansion members sites entries }
    ensures one { (members : List Operator) (sites : List AtomSite) (a b : List Expanded)
        → IsGroup members → AreAtPoints sites
        → IsExpansion members sites a → IsExpansion members sites b → a ≡ b }
{}

/// The orbit that an expansion gives for a site is that of the site.
pub fn orbits_are_those_of_the_sites()
    ensures { (members : List Operator) (sites : List AtomSite) (entries : List Expanded)
        → IsExpansion members sites entries
        → (k : ℕ) (site : AtomSite) (points : List Point) → slice_get sites k ≡ Some site
        → HasOrbit entries k points → IsOrbitList UNIT members site.at points }
{}

/// Every point of every orbit in the cell stands under exactly one site, the first that has it.
pub fn each_point_stands_once()
    ensures { (members : List Operator) (sites : List AtomSite) (entries : List Expanded)
        → IsGroup members → AreAtPoints sites → IsExpansion members sites entries
        → (k : ℕ) (site : AtomSite) (p : Point) → slice_get sites k ≡ Some site
        → IsPoint p → IsInOrbit UNIT members site.at p
        → (j : ℕ) × IsFirstThrough members sites p j × StandsOnce entries p j }
{}

/// An expansion has a text, and one only.
pub fn one_atoms_text()
    ensures some { (sites : List AtomSite) (entries : List Expanded)
        → (text : List ℕ) × IsAtomsText sites entries text }
    ensures one { (sites : List AtomSite) (entries : List Expanded) (s t : List ℕ)
        → IsAtomsText sites entries s → IsAtomsText sites entries t → s ≡ t }
{}
