//! What extension files add.
//!
//! `read_extension` reads an extension file after what stands before it: its outline, its grammars,
//! and what its texts are read by (`prepare`); its plain bodies and its rules (`read_texts`); its
//! rules are checked after those before it, and its plain table is made (`check_texts`); and the
//! bodies of its rules are checked (`check_bodies`).
//!
//! - `one_extension`: a text states one extension, or has one refusal, but for the two readings
//!   that a refusal may show of a line with more than two.
//! - `languages_begin`, `extensions_go_on`: after a language, and after each extension that is read
//!   and fits, the next one can be read.
#![tactic(auto)]

mod before;
mod bodied_rules;
mod bodies_of_rules;
mod body_checking;
mod body_defect;
mod checked_texts;
mod defect_naming;
mod extension;
mod extension_checking;
mod extension_error;
mod extension_reading;
mod grammars;
mod laws;
mod layers;
mod numbered_names;
mod own_syntax;
mod own_tables;
mod plain_body;
mod plain_defect;
mod plain_reading;
mod plain_table;
mod prepared;
mod preparing;
mod read_texts;
mod rule_set_checking;
mod table_error;
mod table_making;
mod table_naming;
mod texts_checking;
mod texts_reading;

pub use before::Before;
pub use extension::ReadExtension;
pub use extension_error::ExtensionError;
pub use extension_reading::read_extension;
pub use laws::{extensions_go_on, languages_begin, one_extension};
pub use plain_defect::PlainDefect;
