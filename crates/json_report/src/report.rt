ghost use Rattle.std.specs.Prelude.{◌≡◌, IfOk};
ghost use Rattle.exact_ops.specs.declared.TheConstants.{UNIT};
ghost use Rattle.space_groups.specs.Rows.{IsRowList};
ghost use Rattle.serde_json.specs.Data.{array};
ghost use Rattle.serde_json.specs.View.{view, items_view};
ghost use Rattle.json_report.specs.Report.{IsReportText};
ghost use Rattle.json_report.specs.Values.{report_data};

use crate::entries::{operator_values, row_values};
use exact_ops::NoMemory;
use group_closure::Group;
use serde_json::{Value, json};
use std::alloc::{AllocError, Global};
use wyckoff_rows::parts::Rows;

/// The report of the group and the rows of its table, as JSON with no blank and a line feed.
pub fn report_text(alloc: Global, g: &Group, r: &Rows) -> Result<Vec<u8>, NoMemory>
    requires { IsRowList UNIT g.now r.now }
    ensures { IfOk result (λ text. IsReportText g.now r.now text.items) }
{
    match written(alloc, g, r) {
        Ok(text) => Ok(text),
        Err(_) => Err(NoMemory),
    }
}

fn written(alloc: Global, group: &Group, rows: &Rows) -> Result<Vec<u8>, AllocError>
    requires { IsRowList UNIT group.now rows.now }
    ensures { IfOk result (λ text. IsReportText group.now rows.now text.items) }
{
    // By this call it is known that the members are a group.
    let _ = group.len();
    let operators = operator_values(alloc, group)?;
    let shown = row_values(alloc, group, rows)?;
    let report = report_object(alloc, operators, shown)?;
    let mut text = report.to_vec(alloc)?;
    text.push(b'\n')?;
    Ok(text)
}

fn report_object(
    alloc: Global,
    operators: Vec<Value>,
    rows: Vec<Value>,
) -> Result<Value, AllocError>
    ensures { IfOk result (λ v. view v
        ≡ report_data (array (items_view operators.items)) (array (items_view rows.items))) }
{
    json!(in alloc; {"operators": operators, "rows": rows})
}
