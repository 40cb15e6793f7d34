ghost use Rattle.std.specs.Prelude.{◌≡◌, ◌<◌, ◌^◌, ◌⊎◌, List, ℕ, ℤ, pos, ◌<ℤ◌, ◌*ℤ◌};
ghost use Rattle.lattice_algebra.specs.Operator.{Operator};
ghost use Rattle.triplet_text.specs.Grammar.{IsTriplet};
ghost use Rattle.triplet_text.specs.Lines.{AreRead, IsFirstBad, IsUnreadable, IsNotUnimodular};
ghost use Rattle.triplet_text.specs.Dividers.{AreDivided};
ghost use Rattle.triplet_text.specs.Coordinates.{IsCoordinate};
ghost use Rattle.triplet_text.specs.Fractions.{fraction_text, frac_text};
ghost use Rattle.triplet_text.specs.Printing.{affine_text, HasPrintableComponents, IsSameMap};
ghost use Rattle.triplet_text.specs.AffineTexts.{HasValue, IsAffineText};

/// A line is a triplet of one operator at most.
pub fn triplet_is_unique()
    ensures { (line : List ℕ) (f g : Operator) → IsTriplet line f → IsTriplet line g → f ≡ g }
{}

/// The lines of an input are all read, or one of them is the first bad one: it is no triplet, or its matrix has no whole
/// inverse.
pub fn lines_are_read_or_bad()
    ensures { (lines : List (List ℕ)) → ((list : List Operator) × AreRead lines list)
        ⊎ (((k : ℕ) × IsFirstBad IsUnreadable lines k)
        ⊎ ((k : ℕ) × IsFirstBad IsNotUnimodular lines k)) }
{}

/// A text is a coordinate with one numerator and one denominator at most.
pub fn coordinate_is_unique()
    ensures { (text : List ℕ) (n d m e : ℤ) → IsCoordinate text n d
        → IsCoordinate text m e → (n ≡ m) × (d ≡ e) }
{}

/// The text of a fraction has its value: a whole number, or two numbers in lowest terms. Every fraction in the machine is in
/// this range.
pub fn fraction_text_has_value()
    ensures { (n d : ℕ) → 0 < d → n < 10 ^ 64 → d < 10 ^ 64 → HasValue n d (fraction_text n d) }
{}

/// Fractions with one value have one text.
pub fn equal_fractions_have_one_text()
    ensures { (n m d e : ℤ) → pos 0 <ℤ d → pos 0 <ℤ e
        → n *ℤ e ≡ m *ℤ d → frac_text n d ≡ frac_text m e }
{}

/// Affine maps with one text have equal numbers.
pub fn affine_text_has_one_map()
    ensures { (d e : ℕ) (f g : Operator) → HasPrintableComponents d f
        → HasPrintableComponents e g → affine_text d f ≡ affine_text e g → IsSameMap d f e g }
{}

/// The text of an affine map has the map's numbers: n / d before each letter, and n / (`UNIT` d) as a constant, in lowest
/// terms.
pub fn affine_text_has_values()
    ensures { (d : ℕ) (f : Operator) → HasPrintableComponents d f
        → IsAffineText d (affine_text d f) f }
{}

/// A text has the values of one affine map at most.
pub fn affine_text_is_unique()
    ensures { (d e : ℕ) (text : List ℕ) (f g : Operator)
        → IsAffineText d text f → IsAffineText e text g → IsSameMap d f e g }
{}

/// An affine map has one text, whatever number it is written over.
pub fn affine_map_has_one_text()
    ensures { (d e : ℕ) (f g : Operator) → 0 < d → 0 < e
        → IsSameMap d f e g → affine_text d f ≡ affine_text e g }
{}

/// The lines of an input are divided in one way: those before the first divider and those after it, or all before it.
pub fn lines_are_divided()
    ensures { (lines : List (List ℕ)) → (head : List (List ℕ)) × (tail : List (List ℕ))
        × (first : ℕ) × AreDivided lines head tail first }
{}

/// There is one such way.
pub fn division_is_unique()
    ensures { (lines head other tail rest : List (List ℕ)) (first second : ℕ)
        → AreDivided lines head tail first → AreDivided lines other rest second
        → (head ≡ other) × (tail ≡ rest) × (first ≡ second) }
{}
