ghost use Rattle.std.specs.Prelude.{◌+◌, ◌<◌, ◌^◌, IfSome, IfNone, IfOk, IfErr, length};
ghost use Rattle.triplet_text.specs.Lines.{lines_of};
ghost use Rattle.data_lines.specs.DataLines.{IsDataFaultOf};
ghost use Rattle.refl_merge.specs.declared.measured.Measured.{Measured as Line};
ghost use Rattle.refl_merge.specs.MeasuredLines.{IsMeasuredLine, AreMeasuredLines};

use crate::measured::{Measured, MeasuredList};
use data_lines::{DataFault, Datum, four_fields, read_data, read_number};
use phase_rules::Index;
use std::alloc::Global;

/// Why measured lines could not be read. A line is bad where it is not skipped and writes no index with a value.
pub type MeasuredFault = DataFault;

/// What a data line writes: the three numbers of an index and a value, separated by blanks. None exactly where it is no such line.
pub fn read_measured(line: &[u8]) -> Option<Measured>
    ensures some { IfSome result (IsMeasuredLine line.now) }
    ensures none { IfNone result ((m : Line) → IsMeasuredLine line.now m → ⊥) }
{
    let (h, k, l, value) = four_fields(line)?;
    let h = read_number(h)?;
    let k = read_number(k)?;
    let l = read_number(l)?;
    let index = Index::of(h, k, l)?;
    let value = read_number(value)?;
    Some(Measured { index, value })
}

impl Datum for Measured {
    ghost is = { IsMeasuredLine };

    fn read(line: &[u8]) -> Option<Measured> {
        read_measured(line)
    }
}

/// What all lines write that are not skipped, in order; or the first bad line, counted from `line` on.
pub fn read_list(alloc: Global, bytes: &[u8], line: u32) -> Result<MeasuredList, MeasuredFault>
    requires { length bytes.now + line + 1 < 2 ^ 32 }
    ensures ok { IfOk result (AreMeasuredLines (lines_of bytes.now)) }
    ensures fault { IfErr result (IsDataFaultOf IsMeasuredLine line (lines_of bytes.now)) }
{
    let lines = read_data::<Measured>(alloc, bytes, line)?;
    Ok(MeasuredList { lines })
}
