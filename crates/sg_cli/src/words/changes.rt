ghost use Rattle.std.specs.Prelude.{IfSome, IfNone};
ghost use Rattle.space_groups.specs.Bases.{CoordinateChange};
ghost use Rattle.sg_cli.specs.Words.{IsOne, AreTwo, IsBasisText, AreCellTexts, texts};

use crate::CELL_DIGITS;
use basis_change::cell::CellChange;
use basis_change::parts::Change;
use triplet_text::{read_natural, read_triplet};

/// The change of basis whose triplet is the argument.
pub fn read_basis(arguments: &[String]) -> Option<Change>
    ensures some { IfSome result (IsOne IsBasisText (texts arguments.now)) }
    ensures none { IfNone result ((c : CoordinateChange)
        → IsOne IsBasisText (texts arguments.now) c → ⊥) }
{
    let [triplet] = arguments else {
        return None;
    };
    basis_of(triplet.as_bytes())
}

/// The change of basis with this triplet. None exactly where it is no triplet, or its matrix has no whole inverse.
fn basis_of(text: &[u8]) -> Option<Change>
    ensures some { IfSome result (IsBasisText text.now) }
    ensures none { IfNone result ((c : CoordinateChange) → IsBasisText text.now c → ⊥) }
{
    let raw = read_triplet(text)?;
    Change::of(&raw)
}

/// The change of the cell whose denominator and triplet are the arguments.
pub fn read_cell(arguments: &[String]) -> Option<CellChange>
    ensures some { IfSome result (AreTwo AreCellTexts (texts arguments.now)) }
    ensures none { IfNone result ((c : CoordinateChange)
        → AreTwo AreCellTexts (texts arguments.now) c → ⊥) }
{
    let [over, triplet] = arguments else {
        return None;
    };
    cell_of(over.as_bytes(), triplet.as_bytes())
}

/// The change of the cell with this denominator and triplet. None exactly where they are no number or no triplet, or the
/// change is out of range or cannot be undone.
fn cell_of(over: &[u8], text: &[u8]) -> Option<CellChange>
    ensures some { IfSome result (AreCellTexts over.now text.now) }
    ensures none { IfNone result ((c : CoordinateChange) → AreCellTexts over.now text.now c → ⊥) }
{
    let d = read_natural(over, CELL_DIGITS)?;
    let d = u8::try_from(d).ok()?;
    let raw = read_triplet(text)?;
    CellChange::of(&raw, d)
}
