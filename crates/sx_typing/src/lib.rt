//! Bodies of modules that are read and typed, in a language with extensions in use.
//!
//! - `Dialect`: a language, the grammars with what extensions add, and what is accepted. A language
//!   without extensions is one too: nothing is added, and its own rules are accepted.
//! - `read_body_text`: a text becomes tokens, their only reading and its term, without
//!   metavariables.
//! - `read_source`: so does the body, by the grammar of the dialect. `type_source`: the first
//!   derivation of the main form's goal by the dialect's rules, as a list, with its output; or the
//!   type error, with its place and text.
//! - Laws: a body has one reading, and its goal one answer or one refusal; what is found is the
//!   first derivation; a type error comes only where there is none at all.
#![tactic(auto)]

mod body;
mod body_source;
mod dialect;
mod goal_laws;
mod laws;
mod module_error;
mod places;
mod reading;
mod searching;
mod spots;
mod text_reading;
mod type_error;
mod typed;
mod typing;
mod unread_text;

pub use body::Body;
pub use body_source::BodySource;
pub use dialect::Dialect;
pub use goal_laws::{main_goals_fit, outputs_fit, searches_fit, stuck_goals_fit};
pub use laws::{
    dialects_grow, one_typing, source_type_errors_are_final, typings_are_first, typings_are_good,
};
pub use module_error::ModuleError;
pub use places::{defect_place, unread_place};
pub use reading::{main_sort, read_source};
pub use searching::main_goal;
pub use text_reading::read_body_text;
pub use typed::Typed;
pub use typing::type_source;
pub use unread_text::UnreadText;
