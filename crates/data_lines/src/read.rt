ghost use Rattle.std.specs.Prelude.{ℕ, List, [], ◌∷◌, ◌+◌, ◌<◌, ◌^◌, IfSome, IfNone, OnOk, IfOk, IfErr, length};
ghost use Rattle.triplet_text.specs.Lines.{lines_of};
ghost use Rattle.data_lines.specs.DataLines.{AreWritten, AddsWritten, IsDataFaultOf, IsDataFaultAt};

use std::alloc::Global;
use triplet_text::{cut_line, is_skipped_line};

/// A value that a data line writes.
pub trait Datum: Copy {
    /// The line writes the value.
    ghost is: { List ℕ → Self → Type 0 };

    /// The value that the line writes. None exactly where it writes none.
    fn read(line: &[u8]) -> Option<Self>
        ensures some { IfSome result (is line.now) }
        ensures none { IfNone result ((value : Self) → is line.now value → ⊥) };
}

/// Why data lines could not be read. A line is bad where it is not skipped and writes no value.
#[derive(Clone, Copy, Debug, PartialEq, Eq, Drop)]
pub enum DataFault {
    /// The first bad line.
    Bad(u32),
    /// There is no memory for one more value. The lines before it are good.
    NoMemory,
}

/// The values of all lines that are not skipped, in order; or the first bad line. The lines are counted from `first` on. Each
/// line feed ends a line; what follows the last one is a line too.
pub fn read_data<D: Datum>(alloc: Global, bytes: &[u8], first: u32) -> Result<Vec<D>, DataFault>
    requires { length bytes.now + first + 1 < 2 ^ 32 }
    ensures ok { IfOk result (λ values. AreWritten D.is (lines_of bytes.now) values.items) }
    ensures fault { IfErr result (IsDataFaultOf D.is first (lines_of bytes.now)) }
{
    let mut values = Vec::new(alloc);
    let mut number = first;
    let mut rest = Some(bytes);
    while let Some(text) = rest {
        let (line, more) = cut_line(text);
        if let Err(fault) = take_line::<D>(&mut values, number, line) {
            return Err(fault);
        }
        number += 1;
        rest = more;
    }
    Ok(values)
}

/// Adds the value that the line of this number writes.
fn take_line<D: Datum>(values: &mut Vec<D>, number: u32, line: &[u8]) -> Result<(), DataFault>
    ensures written { OnOk result (AddsWritten D.is (line.now ∷ []) values.old.items values.new.items) }
    ensures fault { IfErr result (IsDataFaultAt D.is number line.now) }
{
    if is_skipped_line(line) {
        return Ok(());
    }
    let Some(value) = D::read(line) else {
        return Err(DataFault::Bad(number));
    };
    match values.push(value) {
        Ok(()) => Ok(()),
        Err(_) => Err(DataFault::NoMemory),
    }
}
