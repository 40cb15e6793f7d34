ghost use Rattle.std.specs.Prelude.{◌≡◌, ◌+◌, ◌≤◌, ◌^◌, length, IfSome, IfNone};
ghost use Rattle.std.specs.Option.{option_map};
ghost use Rattle.lattice_algebra.specs.Operator.{Operator, IsPart};
ghost use Rattle.exact_ops.specs.Numbers.{numbers};
ghost use Rattle.triplet_text.specs.Components.{IsSumOf, Within};
ghost use Rattle.triplet_text.specs.Triplets.{modulo_cell, operator_by, three_sums, components_of};
ghost use Rattle.triplet_text.specs.Grammar.{IsTriplet};

use crate::component::Component;
use crate::pieces::{cut_at, without_blanks, without_quotes};
use crate::sum::read_sum;
use exact_ops::{Raw, UNIT};

/// A triplet has at most so many bytes, with its blanks and quotes.
pub const LINE_LENGTH: usize = 255;

/// What the line says, such as `-x, y+1/2, 2*z`: None exactly where it is no triplet. A triplet has at most
/// `LINE_LENGTH` bytes: three sums with commas between them, in two like quotes or none. A term of a sum is a letter, a digit and a letter
/// with a star or none between them, a whole number of cells, a fraction whose denominator divides `UNIT`, or a decimal
/// that is a whole number of parts of a cell. The sums are the rows of the matrix, and their constants modulo the cell
/// the translation. docs/formats.md has the whole grammar.
pub fn read_triplet(line: &[u8]) -> Option<Raw>
    ensures some { IfSome result (λ raw. IsTriplet line.now (numbers raw)) }
    ensures none { IfNone result ((f : Operator) → ¬ IsTriplet line.now f) }
{
    if line.len() > LINE_LENGTH {
        return None;
    }
    read_components(without_blanks(without_quotes(without_blanks(line))))
}

fn read_components(text: &[u8]) -> Option<Raw>
    requires { length text.now ≤ LINE_LENGTH }
    ensures { option_map numbers result ≡ components_of text.now }
{
    let (first, rest) = cut_at(text, b',')?;
    let (second, third) = cut_at(rest, b',')?;
    read_sums(first, second, third)
}

fn read_sums(first: &[u8], second: &[u8], third: &[u8]) -> Option<Raw>
    requires first { length first.now ≤ LINE_LENGTH }
    requires second { length second.now ≤ LINE_LENGTH }
    requires third { length third.now ≤ LINE_LENGTH }
    ensures { option_map numbers result ≡ three_sums first.now second.now third.now }
{
    let a = read_sum(first)?;
    let b = read_sum(second)?;
    let c = read_sum(third)?;
    Some(with_rows(&a, &b, &c))
}

fn with_rows(a: &Component, b: &Component, c: &Component) -> Raw
    requires a { IsSumOf (LINE_LENGTH + 1) a.now }
    requires b { IsSumOf (LINE_LENGTH + 1) b.now }
    requires c { IsSumOf (LINE_LENGTH + 1) c.now }
    ensures { numbers result ≡ operator_by a.now b.now c.now }
{
    let w = [a.x, a.y, a.z, b.x, b.y, b.z, c.x, c.y, c.z];
    let t = [in_cell(a.parts), in_cell(b.parts), in_cell(c.parts)];
    Raw { w, t }
}

/// The parts modulo the cell.
fn in_cell(parts: i64) -> i32
    requires { Within (10 ^ 17) parts }
    ensures value { result ≡ modulo_cell parts }
    ensures part { IsPart UNIT result }
{
    parts.rem_euclid(i64::from(UNIT)) as i32
}
