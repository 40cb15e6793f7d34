ghost use Rattle.std.specs.Prelude.{◌≡◌, ◌+◌, ◌<◌, ◌^◌, ◌↔◌, ℕ, List, length};
ghost use Rattle.std.specs.List.{Contains};
ghost use Rattle.lattice_algebra.specs.Operator.{Operator};
ghost use Rattle.lattice_algebra.specs.Map.{Map};
ghost use Rattle.lattice_algebra.specs.Point.{Point};
ghost use Rattle.exact_ops.specs.declared.TheConstants.{UNIT};
ghost use Rattle.group_closure.specs.GroupList.{IsGroup};
ghost use Rattle.phase_rules.specs.declared.pairs.Pairs.{Pairs};
ghost use Rattle.phase_rules.specs.Rows as indices;
ghost use Rattle.space_groups.specs.Keys.{Key};
ghost use Rattle.space_groups.specs.Rows.{Row, Lies, IsRowList};
ghost use Rattle.parameter_forms.specs.Forms.{Form, IsParameterForm, IsSameForm, pair_of};
ghost use Rattle.parameter_forms.specs.Finding.{IsKeptForm};
ghost use Rattle.reflections.specs.declared.line.ClassLine.{ClassLine};
ghost use Rattle.reflections.specs.Boxes.{Box};
ghost use Rattle.reflections.specs.ClassLists.{IsClassList};
ghost use Rattle.grid_tags.specs.Grids.{Grid, IsGridInRange, IsKept};
ghost use Rattle.triplet_text.specs.Printing.{affine_text, IsPrintable, IsSameMap};
ghost use Rattle.table_print.specs.Types.{IsTypeLine};
ghost use Rattle.table_print.specs.Sites.{IsSiteText};
ghost use Rattle.table_print.specs.Classes.{IsClassText, IsIndexText, IsBoxText};
ghost use Rattle.table_print.specs.Grids.{IsGridText};
ghost use Rattle.table_print.specs.Rows.{numbers_of_key, row_line};
ghost use Rattle.table_print.specs.Params.{form_text, GivesForms, IsParamsText, LiesOnText};
ghost use Rattle.table_print.specs.Table.{IsTableText};

use parameter_forms::form_has_the_points;
use triplet_text::{affine_text_has_one_map, affine_text_has_values, affine_text_is_unique};

/// Each member of a group has a line of its type, and no operator has two.
pub fn one_type_line()
    ensures some { (members : List Operator) (f : Operator) → IsGroup members
        → Contains members f → (line : List ℕ) × IsTypeLine f line }
    ensures one { (f : Operator) (l m : List ℕ) → IsTypeLine f l → IsTypeLine f m → l ≡ m }
{}

/// A site-symmetry group and an orbit have a text, and one only.
pub fn one_site_text()
    ensures some { (site : List Map) (orbit : List Point)
        → (text : List ℕ) × IsSiteText site orbit text }
    ensures one { (site : List Map) (orbit : List Point) (s t : List ℕ)
        → IsSiteText site orbit s → IsSiteText site orbit t → s ≡ t }
{}

/// An index has a line, and one only.
pub fn one_index_text()
    ensures some { (pairs : Pairs) (members : List Operator) (h : indices.Row)
        → (text : List ℕ) × IsIndexText pairs members h text }
    ensures one { (pairs : Pairs) (members : List Operator) (h : indices.Row) (s t : List ℕ)
        → IsGroup members → IsIndexText pairs members h s → IsIndexText pairs members h t
        → s ≡ t }
{}

/// The line of an index in the text of a box is the text of that index alone.
pub fn box_lines_are_index_texts()
    ensures { (pairs : Pairs) (members : List Operator) (box : Box) (lines : List ClassLine)
        (line : ClassLine) (text : List ℕ) → IsClassList pairs members box lines
        → Contains lines line → IsClassText line text
        → IsIndexText pairs members line.index text }
{}

/// A box has a text of its class list, and one only.
pub fn one_box_text()
    ensures some { (pairs : Pairs) (members : List Operator) (box : Box) → IsGroup members
        → (text : List ℕ) × IsBoxText pairs members box text }
    ensures one { (pairs : Pairs) (members : List Operator) (box : Box) (s t : List ℕ)
        → IsGroup members → IsBoxText pairs members box s → IsBoxText pairs members box t
        → s ≡ t }
{}

/// A grid that a group keeps has a text of its grid list, and one only.
pub fn one_grid_text()
    ensures some { (members : List Operator) (grid : Grid) → IsGroup members
        → IsGridInRange grid → IsKept members grid
        → (text : List ℕ) × IsGridText members grid text }
    ensures one { (members : List Operator) (grid : Grid) (s t : List ℕ) → IsGroup members
        → IsGridInRange grid → IsKept members grid → IsGridText members grid s
        → IsGridText members grid t → s ≡ t }
{}

/// The line of a row has the row's numbers: rows with one line stand at one place, have one number of points, and their keys
/// are one map.
pub fn one_row_of_line()
    ensures { (n m j k : ℕ) (r s : Row) → j + 1 < 2 ^ 64 → k + 1 < 2 ^ 64 → r.mult < 2 ^ 64
        → s.mult < 2 ^ 64 → IsPrintable n (numbers_of_key r.key)
        → IsPrintable m (numbers_of_key s.key)
        → row_line n j r ≡ row_line m k s → (j ≡ k) × (r.mult ≡ s.mult)
        × IsSameMap n (numbers_of_key r.key) m (numbers_of_key s.key) }
{
    affine_text_has_one_map();
}

/// Rows have a text of the command `params`, and one only.
pub fn one_params_text()
    ensures some { (members : List Operator) (rows : List Row) → IsGroup members
        → (text : List ℕ) × IsParamsText members rows text }
    ensures one { (members : List Operator) (rows : List Row) (s t : List ℕ) → IsGroup members
        → IsParamsText members rows s → IsParamsText members rows t → s ≡ t }
{}

/// The text of a parameter form determines its numbers: forms with one text have the same coefficients and shifts. They are kept
/// as the form of each row is, which `param` gives.
pub fn one_form_of_text()
    ensures { (f g : Form) → IsKeptForm f → IsKeptForm g → form_text f ≡ form_text g
        → IsSameForm f g }
{
    affine_text_has_one_map();
}

/// A point lies on a row, the line of which `wyckoff` prints, exactly where it lies on the row's parameter form, which `params`
/// prints.
pub fn row_and_form_have_the_same_points()
    ensures { (members : List Operator) (form : Key → Form) → IsGroup members
        → GivesForms (length members) form → (row : Row) (y : Point)
        → Lies UNIT (length members) row.key y
        ↔ Lies UNIT (form row.key).over (pair_of (form row.key)) y }
{
    form_has_the_points();
}

/// A point lies on the map that the line of `wyckoff` writes for a row of a group exactly where it lies on the form that its line
/// of `params` writes. The form is kept, as `param` gives it.
pub fn row_texts_have_the_same_points()
    ensures { (members : List Operator) (rows : List Row) (row : Row) (f : Form) → IsGroup members
        → IsRowList UNIT members rows → Contains rows row
        → IsParameterForm UNIT (length members) row.key f → IsKeptForm f → (y : Point)
        → LiesOnText (affine_text (length members) (numbers_of_key row.key)) y
        ↔ LiesOnText (form_text f) y }
{
    affine_text_has_values();
    affine_text_is_unique();
    form_has_the_points();
}

/// Rows and a box have a text of the command `table`, and one only.
pub fn one_table_text()
    ensures some { (pairs : Pairs) (members : List Operator) → IsGroup members
        → (rows : List Row) (box : Box) → (text : List ℕ)
        × IsTableText pairs members rows box text }
    ensures one { (pairs : Pairs) (members : List Operator) → IsGroup members
        → (rows : List Row) (box : Box) (s t : List ℕ) → IsTableText pairs members rows box s
        → IsTableText pairs members rows box t → s ≡ t }
{}
