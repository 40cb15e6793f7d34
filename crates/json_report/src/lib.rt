//! The report of a group and its rows as JSON, for programs that read it. Which keys it has is this project's own.
//!
//! Proved: the report that `report_text` gives is that of the group and the rows, and only want of memory keeps it from one. Each
//! group and list of rows has one report (`one_report_text`). No byte of an operator's or a row's text needs an escape.
#![tactic(auto)]

mod entries;
mod laws;
mod report;

pub use laws::one_report_text;
pub use report::report_text;
