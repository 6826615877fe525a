//! The lines of language and extension files, read without a grammar.
//!
//! A line's parts are its maximal runs of bytes that are no blank. `read_row` reads a line of a
//! language file or of an extension file, `read_directive_row` one that declares a production or
//! metavariables. Each contract is a relation between the line and what it states
//! (`specs/Rows.antt`): what is read stands in it, and a line is refused exactly where nothing
//! does. Out of memory may come at any call.
#![tactic(auto)]

mod body;
mod directive;
mod file_kind;
mod keyword;
mod part_texts;
mod parts;
mod reading;
mod row;
mod row_error;
mod row_reading;
mod rows;
mod sorts;
mod spelled;
mod symbols;
mod variables;

pub use directive::Directive;
pub use file_kind::FileKind;
pub use parts::{is_blank, next_part};
pub use reading::{read_directive_row, read_row};
pub use row::Row;
pub use row_error::RowError;
pub use rows::{FormLine, MainLine, PlainLine, VarLine};
pub use sorts::lexical_kind;
pub use spelled::{FormSymbol, SpelledSort};
