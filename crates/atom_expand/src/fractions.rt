ghost use Rattle.std.specs.Prelude.{◌≡◌, ◌<◌, ◌≤◌, ◌+◌, ◌++◌, pos, ◌<ℤ◌, length};
ghost use Rattle.triplet_text.specs.declared.text.TheConstants.{TEXT_ROOM};
ghost use Rattle.triplet_text.specs.Fractions.{frac_text};
ghost use Rattle.page_print.specs.declared.page.TheConstants.{PAGE_ROOM};
ghost use Rattle.atom_expand.specs.declared.fractions.TheConstants.{PLACES};

use page_print::Page;
use std::array;
use triplet_text::{Text, print_frac};

/// How many fractions are kept.
const PLACES: usize = 256;

/// A number whose products with numerators differ in the bits that choose a place.
const MIXER: i128 = 0x1e37_79b9_7f4a_7c15_f39c_c060_5ced_c835;

/// A fraction and its text in lowest terms.
#[derive(Drop)]
struct Fraction {
    n: i128,
    d: i128,
    text: Text,
    ghost written: { text ≡ frac_text n d },
}

/// Fractions that were printed, so that the next ones, which are mostly among them, are not divided again.
#[derive(Drop)]
pub struct Fractions {
    kept: [Fraction; PLACES],
}

impl Fractions {
    /// None was asked yet.
    pub fn new() -> Fractions {
        Fractions {
            kept: array::from_fn(|_| Fraction::of(0, 1)),
        }
    }

    /// Adds n / d in lowest terms to the page.
    pub fn push(&mut self, n: i128, d: i128, page: &mut Page)
        requires positive { pos 0 <ℤ d }
        requires room { length page.old + TEXT_ROOM ≤ PAGE_ROOM }
        ensures text { page.new ≡ page.old ++ frac_text n d }
        ensures short { length page.new ≤ length page.old + TEXT_ROOM }
    {
        let fraction = &mut self.kept[place_of(n)];
        fraction.turn_to(n, d);
        page.push(fraction.text.bytes());
    }
}

/// The place of the fractions with this numerator.
fn place_of(n: i128) -> usize
    ensures { result < PLACES }
{
    let mixed = n.wrapping_mul(MIXER).unsigned_abs() >> 64;
    (mixed % PLACES as u128) as usize
}

impl Fraction {
    fn of(n: i128, d: i128) -> Fraction
        requires { pos 0 <ℤ d }
        ensures { result.text ≡ frac_text n d }
    {
        Fraction {
            n,
            d,
            text: print_frac(n, d),
        }
    }

    /// Makes it n / d, where it is not.
    fn turn_to(&mut self, n: i128, d: i128)
        requires { pos 0 <ℤ d }
        ensures { self.new.text ≡ frac_text n d }
    {
        if self.n != n || self.d != d {
            *self = Fraction::of(n, d);
        }
    }
}
