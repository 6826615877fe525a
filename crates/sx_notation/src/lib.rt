//! Texts in the notation of a language.
//!
//! - `print_goal` appends the text of a goal: the symbols of its form with the goal's inputs in
//!   their places, and its outputs as they were got or as `_`.
//! - `rule_grammar`: the grammar by which rules are read. `extended_rule_grammar`: that of an
//!   extension. `forms_of`: the forms that lines spell, with the sorts of a grammar.
//! - `rule_grammars_go_on`: productions keep their labels in the grammar of rules, and the forms
//!   follow them in order. `sorted_goals_fit`: a goal that is well sorted by the language's grammar
//!   meets the conditions of `print_goal`.
//! - `read_text`: the term of a line's only reading by a grammar, or why the line is refused.
//!   `LineReader`: the same for many lines, by tables that are made once, and for lines whose
//!   metavariables are to be among some names.
//!   `why_unread`: why tokens have not one reading, with places and texts in place of tokens and
//!   readings. `read_terms_are_usable`: lexemes and depth of what is read.
//! - `read_directive`: the production or the stem that a line states, by which it extends a
//!   language.
//! - `grammar_error`: the refusal of parts that make no grammar.
#![tactic(auto)]

mod content;
mod directive_reading;
mod goal_printing;
mod language;
mod laws;
mod line_reader;
mod named_tokens;
mod notation_error;
mod resolving;
mod rule_productions;
mod telling;
mod text_reading;
mod unread;
mod walk;

pub use directive_reading::read_directive;
pub use goal_printing::print_goal;
pub use language::Language;
pub use laws::{
    one_reason, read_among_is_read, read_terms_are_usable, rule_grammars_go_on, sorted_goals_fit,
};
pub use line_reader::LineReader;
pub use notation_error::{NotationError, grammar_error};
pub use resolving::{forms_of, sort_with};
pub use rule_productions::{extended_rule_grammar, rule_grammar};
pub use sx_directives::Directive;
pub use sx_lines::Kind;
pub use sx_outline::MainForm;
pub use telling::{place_in, why_unread};
pub use text_reading::read_text;
pub use unread::Unread;
