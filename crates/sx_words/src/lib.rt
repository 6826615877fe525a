//! The words of the command line, and the lines that name a refusal.
#![tactic(auto)]

mod audit;
mod budget_defect;
mod closure_defect;
mod command;
mod extension_defect;
mod file_defect;
mod given;
mod goal_defect;
mod grammar_defect;
mod line;
mod list_defect;
mod options;
mod parts;
mod position;
mod premise_numbers;
mod print_defect;
mod reading;
mod refusal;
mod row;
mod rule_defect;
mod text_defect;
mod verb;
mod words_error;

pub use audit::Audit;
pub use budget_defect::BudgetDefect;
pub use closure_defect::{ClosureDefect, Kept};
pub use command::Command;
pub use extension_defect::ExtensionDefect;
pub use file_defect::FileDefect;
pub use goal_defect::GoalDefect;
pub use grammar_defect::GrammarDefect;
pub use line::write_line;
pub use list_defect::ListDefect;
pub use position::Position;
pub use premise_numbers::premise_number;
pub use print_defect::{PrintDefect, PrintedPart};
pub use reading::{one_command_is_due, read_words};
pub use refusal::{Defect, Refusal, write_refusal};
pub use rule_defect::RuleDefect;
pub use text_defect::TextDefect;
pub use words_error::WordsError;
