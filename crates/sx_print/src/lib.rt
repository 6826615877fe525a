//! Printing of terms by a grammar.
//!
//! - `print` appends the tokens of a term with one blank between them, with brackets exactly where
//!   they are needed. Its contract says that the text is cut into just these tokens, and that they
//!   are read back as the term.
//! - `put_term`, `put_literal`, `put_token`, `drop_last_blank`: the pieces of `print`, for texts
//!   that have terms in them. Each token that is put has a blank behind it; the last blank is
//!   dropped at the end.
//! - `sorted_terms_fit`: what is well sorted by the shapes of a grammar can be printed.
//!
//! Contracts see a grammar as its plain productions, a term as a plain tree, and the printed tokens
//! as those of the grammar (`print` of sx_grammar). How pieces of a text show as such tokens is in
//! `specs/Tokens.antt`.
#![tactic(auto)]

mod laws;
mod printing;
mod walk;
mod writing;

pub use laws::sorted_terms_fit;
pub use printing::print;
pub use walk::put_term;
pub use writing::{drop_last_blank, put_literal, put_token};
