ghost use Rattle.std.specs.Prelude.{◌<◌, ◌↔◌, ℕ};
ghost use Rattle.lattice_algebra.specs.Point.{Point};
ghost use Rattle.space_groups.specs.Keys.{Key};
ghost use Rattle.space_groups.specs.Rows.{Lies};
ghost use Rattle.parameter_forms.specs.Forms.{Form, IsParameterForm, IsSameForm, pair_of};

/// A pair of a matrix and a translation has a parameter form, and one only.
pub fn one_form()
    ensures some { (unit n : ℕ) (p : Key) → 0 < unit → 0 < n
        → (f : Form) × IsParameterForm unit n p f }
    ensures one { (unit n : ℕ) (p : Key) (f g : Form) → 0 < unit → 0 < n
        → IsParameterForm unit n p f → IsParameterForm unit n p g → IsSameForm f g }
{}

/// A parameter form has exactly the points of its pair: B u + s + k for a rational u and a whole k is M z + t + j for a rational z
/// and a whole j, and the other way round.
pub fn form_has_the_points()
    ensures { (unit n : ℕ) (p : Key) (f : Form) → 0 < unit → 0 < n
        → IsParameterForm unit n p f → (y : Point) → Lies unit n p y
        ↔ Lies unit f.over (pair_of f) y }
{}
