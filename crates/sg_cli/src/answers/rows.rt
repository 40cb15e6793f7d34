//! The commands that show rows of the table of Wyckoff positions.

ghost use Rattle.exact_ops.specs.Numbers.{point_in};
ghost use Rattle.page_print.specs.Parts.{Is};
ghost use Rattle.page_print.specs.Printing.{Prints};
ghost use Rattle.json_report.specs.Report.{IsReportText};
ghost use Rattle.table_print.specs.Rows.{IsRowsText};
ghost use Rattle.table_print.specs.Params.{IsParamsText};
ghost use Rattle.table_print.specs.Table.{IsTableText};
ghost use Rattle.sg_cli.specs.Answering.{Printing};
ghost use Rattle.sg_cli.specs.Steps.{Answers, Counted};
ghost use Rattle.sg_cli.specs.Wyckoff.{IsTextOfRows, IsFitText, IsCountedText};

use crate::fault::Fault;
use exact_ops::Point;
use group_closure::Group;
use json_report::report_text;
use phase_rules::Pairs;
use reflections::{BoxSize, ClassList};
use samples::{count_points, number_of};
use sg_io::{Sink, SinkStop, put_all};
use std::alloc::Global;
use table_print::{print_params, print_row, print_rows, print_sample, print_table};
use wyckoff_rows::{fit, rows};

/// Prints the rows. All memory is taken before the first byte is written.
pub fn answer_wyckoff<K: Sink>(alloc: Global, group: &Group, out: &mut K) -> Result<(), Fault>
    ensures answers { Answers K.seen
        (Printing (IsTextOfRows group.now (IsRowsText group.now))) out.old out.new result }
    ensures counted { Counted K.seen out.old out.new result }
{
    let rows = rows(alloc, group)?;
    Ok(print_rows(group, &rows, out)?)
}

/// Prints the rows in free parameters. All memory is taken before the first byte is written.
pub fn answer_params<K: Sink>(alloc: Global, group: &Group, out: &mut K) -> Result<(), Fault>
    ensures answers { Answers K.seen
        (Printing (IsTextOfRows group.now (IsParamsText group.now))) out.old out.new result }
    ensures counted { Counted K.seen out.old out.new result }
{
    let rows = rows(alloc, group)?;
    Ok(print_params(group, &rows, out)?)
}

/// Prints the operators and the rows as JSON. All memory is taken before the first byte is written.
pub fn answer_report<K: Sink>(alloc: Global, group: &Group, out: &mut K) -> Result<(), Fault>
    ensures answers { Answers K.seen
        (Printing (IsTextOfRows group.now (IsReportText group.now))) out.old out.new result }
    ensures counted { Counted K.seen out.old out.new result }
{
    let rows = rows(alloc, group)?;
    let text = report_text(alloc, group, &rows)?;
    Ok(put_text(&text, out)?)
}

fn put_text<K: Sink>(text: &[u8], out: &mut K) -> Result<(), SinkStop>
    ensures { Prints K.seen (Is text.now) out.old out.new result }
{
    put_all(out, text)
}

/// Prints the row that the point fits. All memory is taken before the first byte is written.
pub fn answer_fit<K: Sink>(
    alloc: Global,
    group: &Group,
    point: &Point,
    out: &mut K,
) -> Result<(), Fault>
    ensures answers { Answers K.seen
        (Printing (IsTextOfRows group.now (IsFitText group.now (point_in point.now))))
        out.old out.new result }
    ensures counted { Counted K.seen out.old out.new result }
{
    let rows = rows(alloc, group)?;
    let place = fit(&rows, group, point);
    Ok(print_row(group, &rows, place, out)?)
}

/// Prints the operators, their types, the rows, and the classes of a box. All memory is taken before the first byte is written.
pub fn answer_table<K: Sink>(
    alloc: Global,
    group: &Group,
    size: &BoxSize,
    pairs: Pairs,
    out: &mut K,
) -> Result<(), Fault>
    ensures answers { Answers K.seen
        (Printing (IsTextOfRows group.now (λ rows. IsTableText pairs group.now rows size.now)))
        out.old out.new result }
    ensures counted { Counted K.seen out.old out.new result }
{
    let rows = rows(alloc, group)?;
    let mut list = ClassList::begin(alloc, group, size, pairs)?;
    Ok(print_table(group, &rows, &mut list, out)?)
}

/// Prints the rows of the group that the seed asks for, each with how many of the points that are made from the seed fit it.
/// All memory is taken before the first byte is written.
pub fn answer_sample<K: Sink>(
    alloc: Global,
    group: &Group,
    seed: u32,
    out: &mut K,
) -> Result<(), Fault>
    ensures answers { Answers K.seen
        (Printing (IsTextOfRows group.now (IsCountedText group.now seed))) out.old out.new result }
    ensures counted { Counted K.seen out.old out.new result }
{
    let rows = rows(alloc, group)?;
    let counts = count_points(alloc, group, &rows, seed)?;
    Ok(print_sample(number_of(seed), group, &rows, &counts, out)?)
}
