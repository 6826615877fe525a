//! Dialects: languages with the extensions that they have by files.
//!
//! - `dialect`: the language, the grammars, the rules and the accepted set, as modules are typed
//!   in.
//! - A law: what a language that a text states becomes by extensions, each read and accepted after
//!   all before it, is a dialect.
#![tactic(auto)]

mod extended_dialect;
mod laws;

pub use extended_dialect::dialect;
pub use laws::extended_is_dialect;
