ghost use Rattle.std.specs.Prelude.{◌≡◌, ◌≤◌, List, ℕ, length};
ghost use Rattle.lattice_algebra.specs.Point.{Point, IsPoint};
ghost use Rattle.phase_rules.specs.declared.pairs.Pairs.{Pairs};
ghost use Rattle.reflections.specs.Boxes.{Box};
ghost use Rattle.table_print.specs.Rows.{IsRowsText};
ghost use Rattle.table_print.specs.Table.{IsTableText};
ghost use Rattle.sg_cli.specs.Answer.{Answer, IsAnswer};
ghost use Rattle.sg_cli.specs.Words.{Asked, IsAsked};
ghost use Rattle.sg_cli.specs.Inputs.{input_for};
ghost use Rattle.sg_cli.specs.Laws.{HaveOneGroup, HaveOneText};
ghost use Rattle.sg_cli.specs.Wyckoff.{IsTextOfRows, IsFitText};

use crate::MAX_INPUT;

/// Words and bytes have one answer at most.
pub fn answer_is_unique()
    ensures { (words : List (List ℕ)) (bytes : List ℕ) (a b : Answer)
        → IsAnswer words bytes a → IsAnswer words bytes b → a ≡ b }
{}

/// Words and bytes have an answer, whatever they are.
pub fn some_answer()
    ensures { (words : List (List ℕ)) (bytes : List ℕ)
        → (answer : Answer) × IsAnswer words bytes answer }
{}

/// The answer is a function of the group and the data lines: inputs whose operators generate one group, and which have the same
/// data lines where the words ask for some, have one answer to the same words.
pub fn answer_of_one_group()
    ensures { (words : List (List ℕ)) (bytes others : List ℕ) (a b : Answer)
        → length bytes ≤ MAX_INPUT → length others ≤ MAX_INPUT
        → ((asked : Asked) → IsAsked words asked → HaveOneGroup (input_for asked) bytes others)
        → IsAnswer words bytes a → IsAnswer words others b → a ≡ b }
{}

/// The rows are a function of the group: lists of operators that generate one group have one text of the rows, one line of the row
/// that a rational point fits, and one text of the table with a box.
pub fn rows_of_one_group()
    ensures wyckoff { HaveOneText (λ members. IsTextOfRows members (IsRowsText members)) }
    ensures fit { (x : Point) → IsPoint x
        → HaveOneText (λ members. IsTextOfRows members (IsFitText members x)) }
    ensures table { (pairs : Pairs) (box : Box)
        → HaveOneText (λ members. IsTextOfRows members
        (λ rows. IsTableText pairs members rows box)) }
{}
