//! The text that each command prints of a group, line by line, written to a sink. The texts are this project's own.
//!
//! Proved: each `print_..` writes the text whole, or a prefix of it with its cause; the walk that `print_classes`, `print_orbits`
//! or `print_table` was lent stays one. Each member of a group has one line of its type (`one_type_line`); a site and an orbit
//! have one text (`one_site_text`), and so have an index (`one_index_text`), a box (`one_box_text`), a grid that a group keeps
//! (`one_grid_text`), rows in free coordinates (`one_params_text`), and rows with a box (`one_table_text`). Each line of a box is
//! the text of its index (`box_lines_are_index_texts`). The line of a row has the row's numbers (`one_row_of_line`), and the text
//! of its form the form's (`one_form_of_text`). A row and its form have the same points (`row_and_form_have_the_same_points`),
//! also as their texts write them (`row_texts_have_the_same_points`).
#![tactic(auto)]

mod classes;
mod grids;
mod laws;
mod operators;
mod params;
mod rows;
mod sample;
mod sites;
mod table;
mod types;

pub use classes::{print_classes, print_index};
pub use grids::print_orbits;
pub use laws::{
    box_lines_are_index_texts, one_box_text, one_form_of_text, one_grid_text, one_index_text,
    one_params_text, one_row_of_line, one_site_text, one_table_text, one_type_line,
    row_and_form_have_the_same_points, row_texts_have_the_same_points,
};
pub use operators::print_ops;
pub use params::{SHOWN_FORM, print_params, push_row_form};
pub use rows::{print_row, print_rows, row_text};
pub use sample::print_sample;
pub use sites::print_site;
pub use table::print_table;
pub use types::print_types;
