//! Extensions that are read and accepted, one after the other.
//!
//! - `read_language_file`: the language in its file.
//! - `extend_language`: a language with extensions, which are read and accepted in order, each
//!   after all before it; or the first refusal. `Extended` is what the language becomes.
#![tactic(auto)]

mod acceptance_stops;
mod accepting_next;
mod extended;
mod extension_stops;
mod given;
mod growing;
mod language_stops;
mod laws;
mod own_grammars;
mod read_language;
mod reading_next;
mod refusing;
mod told_rules;

pub use acceptance_stops::bad_acceptance;
pub use extended::Extended;
pub use extension_stops::bad_extension;
pub use growing::extend_language;
pub use language_stops::bad_language;
pub use laws::{
    extended_is_accepted, extends_agree, kept, languages_agree, refused_extensions_can_be_told,
    refused_rules_stop_alike, rejected_goals_are_sorted, unsound_is_final,
};
pub use read_language::{LanguageFile, read_language_file};
pub use refusing::Refusing;
