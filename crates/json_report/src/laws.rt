ghost use Rattle.std.specs.Prelude.{◌≡◌, ℕ, List};
ghost use Rattle.lattice_algebra.specs.Operator.{Operator};
ghost use Rattle.group_closure.specs.GroupList.{IsGroup};
ghost use Rattle.space_groups.specs.Rows.{Row};
ghost use Rattle.json_report.specs.Report.{IsReportText};

/// A group and rows have a report, and one only.
pub fn one_report_text()
    ensures some { (members : List Operator) (rows : List Row) → IsGroup members
        → (text : List ℕ) × IsReportText members rows text }
    ensures one { (members : List Operator) (rows : List Row) (s t : List ℕ) → IsGroup members
        → IsReportText members rows s → IsReportText members rows t → s ≡ t }
{}
