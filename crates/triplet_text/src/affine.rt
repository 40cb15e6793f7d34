ghost use Rattle.std.specs.Prelude.{◌≡◌, ◌≤ℤ◌, pos, unsigned_abs};
ghost use Rattle.exact_ops.specs.Raw.{numbers_of};
ghost use Rattle.triplet_text.specs.Printing.{affine_text, IsPrintable};

use crate::printing::{component, with_commas};
use crate::text::Text;

/// The affine map with the matrix m / `over`, row by row, and the translation t / (`UNIT` `over`), such as
/// `1/2*x+1/2*y,-z,1/4`. Each number is a reduced fraction. `over` is from 1 to `OVER_LIMIT`, each entry within 2 `over`, and
/// each number of t within `PARTS_LIMIT`.
pub fn print_affine(m: &[i32; 9], over: i32, t: &[i64; 3]) -> Text
    requires positive { pos 1 ≤ℤ over }
    requires printable { IsPrintable (unsigned_abs over) (numbers_of m.now t.now) }
    ensures { result ≡ affine_text (unsigned_abs over) (numbers_of m.now t.now) }
{
    let d = over.unsigned_abs();
    let x = component(d, m[0], m[1], m[2], t[0]);
    let y = component(d, m[3], m[4], m[5], t[1]);
    let z = component(d, m[6], m[7], m[8], t[2]);
    with_commas(&x, &y, &z)
}
