ghost use Rattle.std.specs.Prelude.{◌≡◌, ◌<◌, ◌≤◌, ◌+◌, ◌*◌, ◌^◌, ℕ, pos, ◌+ℤ◌, ◌*ℤ◌, length, unsigned_abs};
ghost use Rattle.lattice_algebra.specs.Operator.{IsPart, AreWithin};
ghost use Rattle.exact_ops.specs.Elements.{map_in};
ghost use Rattle.exact_ops.specs.declared.TheConstants.{UNIT as PARTS, MAX_SHIFT};
ghost use Rattle.triplet_text.specs.declared.printing.TheConstants.{COMPONENT_LIMIT, COMPONENT_ROOM};
ghost use Rattle.triplet_text.specs.Printing.{AreBelow, coefficient_text, constant_text, terms_text, component_text, with_commas as commas_between, operator_text, map_text};
ghost use Rattle.triplet_text.specs.Grammar.{IsTriplet};

use crate::fraction::{lowest_terms, print_frac};
use crate::text::Text;
use exact_ops::{MAX_SHIFT, Move, Op, UNIT};

/// The numbers of an affine map are printed over at most this: as many as a group has members at most, since the key of an
/// average stands over their number.
pub const OVER_LIMIT: u32 = 192;

/// A constant of so many parts can be printed, on both sides of 0. That of a `Move` has at most `UNIT * MAX_SHIFT + UNIT - 1`.
pub const PARTS_LIMIT: u64 = (UNIT as u64 + 2) * MAX_SHIFT;

/// The coefficients of a component are printed over at most this.
pub const COMPONENT_LIMIT: u32 = 100_000_000;

/// The most bytes that a component has: three coefficients of at most 24 bytes, a constant of at most 31, and signs.
pub const COMPONENT_ROOM: usize = 3 * 24 + 31 + 4;

/// The triplet of an operator, with a reduced fraction for each number of its translation that is not 0.
pub fn print_triplet(op: &Op) -> Text
    ensures text { result ≡ operator_text op.now }
    // What is printed is read back.
    ensures reads { IsTriplet result op.now }
{
    let w = op.w();
    let t = op.t();
    let x = component(1, w[0], w[1], w[2], i64::from(t[0]));
    let y = component(1, w[3], w[4], w[5], i64::from(t[1]));
    let z = component(1, w[6], w[7], w[8], i64::from(t[2]));
    with_commas(&x, &y, &z)
}

/// The map of an element of the space group, such as `-x+1,y+1/2,-z`: its translation is that of the operator and the
/// whole shifts.
pub fn print_move(m: &Move) -> Text
    ensures { result ≡ map_text (map_in m.now) }
{
    let w = m.op.w();
    let t = m.op.t();
    let x = component(1, w[0], w[1], w[2], parts(t[0], m.shift[0]));
    let y = component(1, w[3], w[4], w[5], parts(t[1], m.shift[1]));
    let z = component(1, w[6], w[7], w[8], parts(t[2], m.shift[2]));
    with_commas(&x, &y, &z)
}

/// Parts of a cell, and whole cells.
fn parts(t: i32, shift: i64) -> i64
    requires part { IsPart PARTS t }
    requires shift { unsigned_abs shift ≤ MAX_SHIFT }
    ensures value { result ≡ t +ℤ pos PARTS *ℤ shift }
    ensures size { unsigned_abs result ≤ PARTS_LIMIT }
{
    i64::from(t) + i64::from(UNIT) * shift
}

pub fn with_commas(x: &Text, y: &Text, z: &Text) -> Text
    requires { length x.now + length y.now + length z.now ≤ 158 }
    ensures { result ≡ commas_between x.now y.now z.now }
{
    let mut text = Text::new();
    text.push(x.bytes());
    text.push(b",");
    text.push(y.bytes());
    text.push(b",");
    text.push(z.bytes());
    text
}

/// Coefficients over `over`, and a constant over `UNIT` times `over`: a row of an affine map that `print_affine` prints.
pub fn component(over: u32, x: i32, y: i32, z: i32, parts: i64) -> Text
    requires positive { 0 < over }
    requires over { over ≤ OVER_LIMIT }
    requires narrow { AreWithin (2 * over) x y z }
    requires parts { unsigned_abs parts ≤ PARTS_LIMIT }
    ensures text { result ≡ component_text over x y z parts }
    ensures short { length result ≤ 52 }
{
    print_component(over, x, y, z, parts)
}

/// The row of an affine map with the coefficients x, y and z over `over`, and the constant `parts` over `UNIT` times `over`, such
/// as `1/2*x-y+1/4`. Each number is a reduced fraction.
pub fn print_component(over: u32, x: i32, y: i32, z: i32, parts: i64) -> Text
    requires positive { 0 < over }
    requires over { over ≤ COMPONENT_LIMIT }
    ensures text { result ≡ component_text over x y z parts }
    ensures short { length result ≤ COMPONENT_ROOM }
    ensures small { (k l m n : ℕ) → 0 < k → 0 < l → 0 < m → 0 < n
        → AreBelow (10 ^ k) x y z → over < 10 ^ l
        → unsigned_abs parts < 10 ^ m → PARTS * over < 10 ^ n
        → length result ≤ 3 * (k + l + 4) + (m + n + 2) + 4 }
{
    let mut text = terms(over, x, y, z, parts);
    if text.bytes().is_empty() {
        text.push(b"0");
    }
    text
}

fn terms(over: u32, x: i32, y: i32, z: i32, parts: i64) -> Text
    requires positive { 0 < over }
    requires over { over ≤ COMPONENT_LIMIT }
    ensures text { result ≡ terms_text over x y z parts }
    ensures short { length result ≤ COMPONENT_ROOM }
    ensures small { (k l m n : ℕ) → 0 < k → 0 < l → 0 < m → 0 < n
        → AreBelow (10 ^ k) x y z → over < 10 ^ l
        → unsigned_abs parts < 10 ^ m → PARTS * over < 10 ^ n
        → length result ≤ 3 * (k + l + 4) + (m + n + 2) + 4 }
{
    let mut text = Text::new();
    text.join(coefficient(over, x, b'x').bytes());
    text.join(coefficient(over, y, b'y').bytes());
    text.join(coefficient(over, z, b'z').bytes());
    text.join(constant(UNIT * over, parts).bytes());
    text
}

/// n / `over` times a letter; nothing for none.
fn coefficient(over: u32, n: i32, letter: u8) -> Text
    requires { 0 < over }
    ensures text { result ≡ coefficient_text over n letter }
    ensures short { length result ≤ 24 }
    ensures small { (k l : ℕ) → 0 < k → 0 < l → unsigned_abs n < 10 ^ k
        → over < 10 ^ l → length result ≤ k + l + 4 }
{
    let mut text = Text::new();
    if n == 0 {
        return text;
    }
    if n < 0 {
        text.push(b"-");
    }
    let size = n.unsigned_abs();
    if size != over {
        text.push(lowest_terms(u128::from(size), u128::from(over)).bytes());
        text.push(b"*");
    }
    text.push(&[letter]);
    text
}

/// The fraction n / d; nothing for none.
fn constant(d: u32, n: i64) -> Text
    requires { 0 < d }
    ensures text { result ≡ constant_text d n }
    ensures short { length result ≤ 31 }
    ensures small { (k l : ℕ) → 0 < k → 0 < l → unsigned_abs n < 10 ^ k
        → d < 10 ^ l → length result ≤ k + l + 2 }
{
    if n == 0 {
        return Text::new();
    }
    print_frac(i128::from(n), i128::from(d))
}
