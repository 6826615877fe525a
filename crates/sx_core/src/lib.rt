//! Core files: a rule set and a goal as text, in core notation.
#![tactic(auto)]

mod core_lines;
mod error;
mod finish;
mod form_table;
mod found;
mod keyword;
mod laws;
mod line_read;
mod line_reading;
mod next_line;
mod problem;
mod read;
mod reader;
mod resolved;
mod row_reading;
mod rows;
mod sort_reading;
mod sort_table;
mod stage;
mod statements;
mod step_error;
mod terms_row;
mod words;

pub use error::CoreFileError;
pub use laws::{one_core_answer, one_problem_is_stated};
pub use problem::CoreProblem;
pub use read::read_core_file;
