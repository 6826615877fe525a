//! Terms: what every other crate of soundx speaks of.
//!
//! - Terms and what they are made of: `Term`, `LexKind`, `Text`, `Path`; the names of variables:
//!   `Vars`; names of any kind, found by their hash: `Names`.
//! - Sorts of terms: `Sort`, `Con`, `Shapes`. What the places of judgements are for: `Role`.
//! - Instances and matching: `Bindings`, `subst`, `match_term`, `Fit`.
//! - Core notation, in which a term is one line of text: `write_core`, `read_core`, and the laws
//!   that join them.
//! - Tokens: `Mark`, `literal_shape`, the runs of characters in `runs`, and the laws of cutting a
//!   text into tokens.
//! - `Steps` counts the tries of a search.
//!
//! Contracts see a term as a plain tree (`specs/Tree.antt`), a text as its bytes, bindings as a
//! list of variables with trees, names as a list of byte lists, and shapes as lists of sorts. What
//! a call that can refuse answers is one definition by cases on its result, in which `Memory` is
//! free.
#![tactic(auto)]

mod binding;
mod bindings;
mod build;
mod candidate;
mod con;
mod core_error;
mod core_text;
mod cutting_laws;
mod fit;
mod instance;
mod laws;
mod lex_kind;
mod limits;
mod literal;
mod mark;
mod matching;
mod names;
mod no_memory;
mod path;
mod read;
mod role;
pub mod runs;
mod scan;
mod shapes;
mod sort;
mod steps;
mod term;
mod term_error;
mod text;
mod text_error;
mod vars;

pub use bindings::Bindings;
pub use con::Con;
pub use core_error::CoreError;
pub use core_text::write_core;
pub use cutting_laws::{one_cutting, spaced_is_cut};
pub use fit::Fit;
pub use instance::subst;
pub use laws::{one_reading, read_again, written_core_is_read};
pub use lex_kind::LexKind;
pub use limits::{MOST_BUDGET, MOST_BYTES, MOST_DEPTH, MOST_SIZE, MOST_TOKENS, MOST_VARIABLES};
pub use literal::{LiteralShape, literal_shape};
pub use mark::Mark;
pub use matching::match_term;
pub use names::Names;
pub use no_memory::NoMemory;
pub use path::Path;
pub use read::read_core;
pub use role::Role;
pub use shapes::{Shapes, sort_at};
pub use sort::Sort;
pub use steps::Steps;
pub use term::Term;
pub use term_error::TermError;
pub use text::{Text, copy_texts};
pub use text_error::TextError;
pub use vars::Vars;
