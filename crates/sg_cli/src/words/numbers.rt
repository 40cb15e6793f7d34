ghost use Rattle.std.specs.Prelude.{◌≡◌, ◌<◌, ◌≤◌, ◌^◌, Bool, List, ℕ, unsigned_abs, IfSome, IfNone};
ghost use Rattle.std.specs.String.{string_bytes};
ghost use Rattle.triplet_text.specs.Integers.{IsNatural, IsInteger};
ghost use Rattle.phase_rules.specs.declared.TheConstants.{MAX_INDEX as INDEX_LIMIT};
ghost use Rattle.phase_rules.specs.Rows.{Row};
ghost use Rattle.reflections.specs.Boxes.{Box};
ghost use Rattle.grid_tags.specs.Grids as grids;
ghost use Rattle.data_lines.specs.declared.number.TheConstants.{NUMBER_DIGITS as NUMBER_LENGTH};
ghost use Rattle.sg_cli.specs.Words.{Given, HasArguments, OfIndex, OfBox, IsOne, AreThree, IsSeedText, AreIndexTexts, AreBoxTexts, AreGridTexts, are_apart, three_with, texts};

use crate::SEED_DIGITS;
use data_lines::NUMBER_DIGITS;
use grid_tags::GridSize;
use phase_rules::{Index, MAX_INDEX, Pairs};
use reflections::BoxSize;
use triplet_text::{read_integer, read_natural};

/// A number that a word can be.
pub trait Number: Copy {
    ghost is: { List ℕ → Self → Type 0 };

    /// The number that is written so. None exactly where the text is none in range.
    fn of_text(text: &[u8]) -> Option<Self>
        ensures some { IfSome result (is text.now) }
        ensures none { IfNone result ((n : Self) → is text.now n → ⊥) };
}

/// A number of an index.
impl Number for i32 {
    ghost is = { λ text n. IsInteger NUMBER_LENGTH text n × (unsigned_abs n ≤ INDEX_LIMIT) };

    fn of_text(text: &[u8]) -> Option<i32> {
        let n = read_integer(text, NUMBER_DIGITS)?;
        if n.unsigned_abs() > u64::from(MAX_INDEX) {
            return None;
        }
        Some(n as i32)
    }
}

/// A number of a box or of a grid.
impl Number for u16 {
    ghost is = { λ text n. IsNatural NUMBER_LENGTH text n × (n < 2 ^ 16) };

    fn of_text(text: &[u8]) -> Option<u16> {
        u16::try_from(read_natural(text, NUMBER_DIGITS)?).ok()
    }
}

/// The numbers that three texts are. None exactly where one of them is none in range.
pub fn three_numbers<N: Number>(x: &[u8], y: &[u8], z: &[u8]) -> Option<(N, N, N)>
    ensures some { IfSome result (λ n. N.is x.now n.0 × N.is y.now n.1 × N.is z.now n.2) }
    ensures none { IfNone result ((a b c : N) → N.is x.now a → N.is y.now b → N.is z.now c → ⊥) }
{
    let a = N::of_text(x)?;
    let b = N::of_text(y)?;
    let c = N::of_text(z)?;
    Some((a, b, c))
}

/// The index that the arguments are, and how Friedel pairs are taken.
pub fn read_index(arguments: &[String]) -> Option<(Index, Pairs)>
    ensures some { IfSome result (λ found.
        HasArguments OfIndex (found.0, found.1) (texts arguments.now)) }
    ensures none { IfNone result ((given : Given OfIndex)
        → HasArguments OfIndex given (texts arguments.now) → ⊥) }
{
    let (x, y, z, pairs) = three_and_pairs(arguments)?;
    let index = index_of(x.as_bytes(), y.as_bytes(), z.as_bytes())?;
    Some((index, pairs))
}

/// The box that the arguments are, and how Friedel pairs are taken.
pub fn read_box(arguments: &[String]) -> Option<(BoxSize, Pairs)>
    ensures some { IfSome result (λ found.
        HasArguments OfBox (found.0, found.1) (texts arguments.now)) }
    ensures none { IfNone result ((given : Given OfBox)
        → HasArguments OfBox given (texts arguments.now) → ⊥) }
{
    let (x, y, z, pairs) = three_and_pairs(arguments)?;
    let size = box_of(x.as_bytes(), y.as_bytes(), z.as_bytes())?;
    Some((size, pairs))
}

/// Three words, behind which a further one takes Friedel pairs apart.
fn three_and_pairs(arguments: &[String]) -> Option<(&String, &String, &String, Pairs)>
    ensures some { IfSome result (λ found. texts arguments.now
        ≡ three_with (string_bytes found.0.now)
        (string_bytes found.1.now) (string_bytes found.2.now) (are_apart found.3)) }
    ensures none { IfNone result ((x y z : List ℕ) (apart : Bool)
        → texts arguments.now ≡ three_with x y z apart → ⊥) }
{
    match arguments {
        [x, y, z] => Some((x, y, z, Pairs::Friedel)),
        [x, y, z, last] if last.as_str() == "anomalous" => Some((x, y, z, Pairs::Apart)),
        _ => None,
    }
}

/// The index with these numbers. None exactly where one of them is no whole number in range.
fn index_of(x: &[u8], y: &[u8], z: &[u8]) -> Option<Index>
    ensures some { IfSome result (AreIndexTexts x.now y.now z.now) }
    ensures none { IfNone result ((h : Row) → AreIndexTexts x.now y.now z.now h → ⊥) }
{
    let (h, k, l) = three_numbers::<i32>(x, y, z)?;
    Some(Index { h, k, l })
}

/// The box with these numbers. None exactly where one of them is no whole number, or the box is out of range.
fn box_of(x: &[u8], y: &[u8], z: &[u8]) -> Option<BoxSize>
    ensures some { IfSome result (AreBoxTexts x.now y.now z.now) }
    ensures none { IfNone result ((b : Box) → AreBoxTexts x.now y.now z.now b → ⊥) }
{
    let (h, k, l) = three_numbers::<u16>(x, y, z)?;
    BoxSize::of(h, k, l)
}

/// The grid whose numbers are the arguments.
pub fn read_grid(arguments: &[String]) -> Option<GridSize>
    ensures some { IfSome result (AreThree AreGridTexts (texts arguments.now)) }
    ensures none { IfNone result ((s : grids.Grid)
        → AreThree AreGridTexts (texts arguments.now) s → ⊥) }
{
    let [x, y, z] = arguments else {
        return None;
    };
    grid_of(x.as_bytes(), y.as_bytes(), z.as_bytes())
}

/// The grid with these numbers. None exactly where one of them is no whole number, or the grid is out of range.
fn grid_of(x: &[u8], y: &[u8], z: &[u8]) -> Option<GridSize>
    ensures some { IfSome result (AreGridTexts x.now y.now z.now) }
    ensures none { IfNone result ((s : grids.Grid) → AreGridTexts x.now y.now z.now s → ⊥) }
{
    let (a, b, c) = three_numbers::<u16>(x, y, z)?;
    GridSize::of(a, b, c)
}

/// The seed that the argument is.
pub fn read_seed(arguments: &[String]) -> Option<u32>
    ensures some { IfSome result (IsOne IsSeedText (texts arguments.now)) }
    ensures none { IfNone result ((seed : ℕ) → IsOne IsSeedText (texts arguments.now) seed → ⊥) }
{
    let [seed] = arguments else {
        return None;
    };
    seed_of(seed.as_bytes())
}

/// The seed that is written so. None exactly where the text is no whole number in range.
fn seed_of(text: &[u8]) -> Option<u32>
    ensures some { IfSome result (IsSeedText text.now) }
    ensures none { IfNone result ((seed : ℕ) → IsSeedText text.now seed → ⊥) }
{
    u32::try_from(read_natural(text, SEED_DIGITS)?).ok()
}
