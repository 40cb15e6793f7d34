ghost use Rattle.std.specs.Prelude.{ℤ, IfSome, IfNone};
ghost use Rattle.triplet_text.specs.Integers.{IsInteger};
ghost use Rattle.data_lines.specs.declared.number.TheConstants.{NUMBER_DIGITS as NUMBER_LENGTH};

use triplet_text::read_integer;

/// The most digits that a whole number has, in a data line or among words.
pub const NUMBER_DIGITS: usize = 9;

/// The whole number that is written with at most `NUMBER_DIGITS` digits, with a sign before them or none. None exactly where the
/// text is no such number.
pub fn read_number(text: &[u8]) -> Option<i32>
    ensures some { IfSome result (IsInteger NUMBER_LENGTH text.now) }
    ensures none { IfNone result ((n : ℤ) → IsInteger NUMBER_LENGTH text.now n → ⊥) }
{
    Some(read_integer(text, NUMBER_DIGITS)? as i32)
}
