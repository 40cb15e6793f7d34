ghost use Rattle.std.specs.Prelude.{◌≡◌, ◌+◌, ◌<◌, ◌^◌, ◌++◌, ◌∷◌, [], ℤ, IfSome, IfNone, OnOk, IfOk, IfErr, length};
ghost use Rattle.triplet_text.specs.Lines.{lines_of};
ghost use Rattle.data_lines.specs.DataLines.{AreWritten};
ghost use Rattle.map_sym.specs.declared.reading.ValueFault.TheVariants.{NoMemory};
ghost use Rattle.map_sym.specs.ValueLines.{IsValueLine, AreValuesOf, IsValueFaultOf};
ghost use Rattle.map_sym.specs.PlainLines.{IsTaken, IsLineFaultAt, IsLineFaultOf};

use crate::plain_lines::plain_line;
use crate::values::Values;
use data_lines::{one_field, read_number};
use grid_tags::GridSize;
use std::alloc::Global;
use triplet_text::{cut_line, is_skipped_line};

/// Why values could not be read.
#[derive(Clone, Copy, PartialEq, Eq, Debug, Drop)]
pub enum ValueFault {
    /// The first line that is not skipped and writes no value.
    Bad(u32),
    /// No line is bad, and there are so many values, which is not the number of grid points of a cell.
    Count(u32),
    /// Want of memory, which may come for any lines.
    NoMemory,
}

/// The value that a line writes: one field of at most `NUMBER_DIGITS` digits with a sign before them or none. None exactly where
/// it writes none.
pub fn read_value(line: &[u8]) -> Option<i32>
    ensures some { IfSome result (IsValueLine line.now) }
    ensures none { IfNone result ((value : ℤ) → IsValueLine line.now value → ⊥) }
{
    let field = one_field(line)?;
    let value = read_number(field)?;
    Some(value)
}

/// The values that the lines write that are not skipped, one for each grid point of a cell, in ascending order of the points. The
/// lines are counted from `line` on.
pub fn read_values(
    alloc: Global,
    bytes: &[u8],
    line: u32,
    size: &GridSize,
) -> Result<Values, ValueFault>
    requires { length bytes.now + line + 1 < 2 ^ 32 }
    ensures ok { IfOk result (AreValuesOf (lines_of bytes.now) size.now) }
    ensures fault { IfErr result (IsValueFaultOf line (lines_of bytes.now) size.now) }
{
    let values = read_lines(alloc, bytes, line)?;
    if values.len() != size.points() {
        return Err(ValueFault::Count(values.len() as u32));
    }
    Ok(Values::of(size, values))
}

/// The values that the lines write that are not skipped, in order.
fn read_lines(alloc: Global, bytes: &[u8], first: u32) -> Result<Vec<i32>, ValueFault>
    requires { length bytes.now + first + 1 < 2 ^ 32 }
    ensures ok { IfOk result (λ values. AreWritten IsValueLine (lines_of bytes.now) values.items) }
    ensures fault { IfErr result (IsLineFaultOf first (lines_of bytes.now)) }
{
    let mut values = Vec::new(alloc);
    let mut number = first;
    let mut rest = Some(bytes);
    while let Some(text) = rest {
        match take_line(&mut values, number, text) {
            Err(fault) => return Err(fault),
            Ok(more) => rest = more,
        }
        number += 1;
    }
    Ok(values)
}

/// Adds the value that the first line of the text writes, which has this number, and gives what follows its line feed.
fn take_line<'a>(
    values: &mut Vec<i32>,
    number: u32,
    text: &'a [u8],
) -> Result<Option<&'a [u8]>, ValueFault>
    ensures taken { IfOk result (λ more. IsTaken text.now more values.old.items values.new.items) }
    ensures fault { IfErr result (IsLineFaultAt number (lines_of text.now)) }
{
    if let Some((value, rest)) = plain_line(text) {
        push(values, value)?;
        return Ok(Some(rest));
    }
    let (line, more) = cut_line(text);
    if is_skipped_line(line) {
        return Ok(more);
    }
    let Some(value) = read_value(line) else {
        return Err(ValueFault::Bad(number));
    };
    push(values, value)?;
    Ok(more)
}

fn push(values: &mut Vec<i32>, value: i32) -> Result<(), ValueFault>
    ensures value { OnOk result (values.new.items ≡ values.old.items ++ value ∷ []) }
    ensures fault { IfErr result (λ fault. fault ≡ NoMemory) }
{
    match values.push(value) {
        Ok(()) => Ok(()),
        Err(_) => Err(ValueFault::NoMemory),
    }
}
