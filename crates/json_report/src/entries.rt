ghost use Rattle.std.specs.Prelude.{◌≡◌, ◌<◌, IfOk, IsAscii, Some, length, map, slice_get};
ghost use Rattle.exact_ops.specs.declared.TheConstants.{UNIT};
ghost use Rattle.space_groups.specs.Keys as keys;
ghost use Rattle.space_groups.specs.Rows as shown;
ghost use Rattle.space_groups.specs.Rows.{IsRowList};
ghost use Rattle.parameter_forms.specs.Forms.{Form};
ghost use Rattle.table_print.specs.Params.{GivesForms};
ghost use Rattle.serde_json.specs.Data.{string};
ghost use Rattle.serde_json.specs.View.{view};
ghost use Rattle.json_report.specs.Report.{operator_entry, row_entry};
ghost use Rattle.json_report.specs.Values.{row_data, IsWrittenAs, AreWrittenAs};

use exact_ops::Op;
use group_closure::Group;
use page_print::Page;
use serde_json::{Value, json};
use std::alloc::{AllocError, Global};
use table_print::{push_row_form, row_text};
use triplet_text::print_triplet;
use wyckoff_rows::parts::Rows;

/// The texts of the operators of the group, in its order.
pub fn operator_values(alloc: Global, group: &Group) -> Result<Vec<Value>, AllocError>
    ensures { IfOk result (λ v. AreWrittenAs operator_entry group.now (map view v.items)) }
{
    let mut values = Vec::new(alloc);
    for i in 0..group.len() {
        prove!(i < group.len());
        let value = operator_value(alloc, &group.op(i as u8))?;
        serde_json::push(&mut values, value)?;
    }
    Ok(values)
}

fn operator_value(alloc: Global, op: &Op) -> Result<Value, AllocError>
    ensures { IfOk result (λ v. IsWrittenAs (operator_entry op.now) (view v)) }
{
    // By this call it is known that the numbers are small.
    let _ = op.w();
    text_value(alloc, print_triplet(op).bytes())
}

/// The rows, in their order.
pub fn row_values(alloc: Global, group: &Group, rows: &Rows) -> Result<Vec<Value>, AllocError>
    requires { IsRowList UNIT group.now rows.now }
    ensures { IfOk result (λ v. (form : keys.Key → Form) → GivesForms (length group.now) form
        → AreWrittenAs (row_entry (length group.now) form) rows.now (map view v.items)) }
{
    let mut values = Vec::new(alloc);
    for k in 0..rows.len() {
        let value = row_value(alloc, group, rows, k)?;
        serde_json::push(&mut values, value)?;
    }
    Ok(values)
}

/// The row at place k, counted from 0.
fn row_value(alloc: Global, group: &Group, rows: &Rows, k: usize) -> Result<Value, AllocError>
    requires list { IsRowList UNIT group.now rows.now }
    requires within { k < length rows.now }
    ensures { IfOk result (λ v. (form : keys.Key → Form) (row : shown.Row)
        → GivesForms (length group.now) form → slice_get rows.now k ≡ Some row
        → IsWrittenAs (row_entry (length group.now) form row) (view v)) }
{
    // By this call it is known that the members are a group.
    let _ = group.len();
    let mut page = Page::new();
    push_row_form(group, rows, k, &mut page);
    let form = text_value(alloc, page.bytes())?;
    let text = text_value(alloc, row_text(group, rows, k).bytes())?;
    row_object(alloc, rows.get(k).mult, form, text)
}

fn row_object(alloc: Global, mult: u16, form: Value, text: Value) -> Result<Value, AllocError>
    ensures { IfOk result (λ v. view v ≡ row_data mult (view form) (view text)) }
{
    json!(in alloc; {"mult": mult, "param": form, "text": text})
}

/// A text of ASCII.
fn text_value(alloc: Global, text: &[u8]) -> Result<Value, AllocError>
    ensures { IfOk result (λ v. IsAscii text.now → view v ≡ string text.now) }
{
    Ok(Value::from(String::from_utf8_lossy(alloc, text)?))
}
