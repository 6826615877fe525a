//! The steps of commands with auditors: which auditors the words name, how the derivation of a unit
//! is shown to them, and their texts.
//!
//! - `name_auditors`: the auditors that words name, as the words set them; all others are dropped.
//! - `show_unit`: the nodes of the derivation of a unit are shown to them.
//! - `put_texts`: their texts.
//! - `names_once`, `shows_once`: there is one answer. `words_are_kept`: what a word sets is kept.
//!   `denied_are_unlisted`, `denying_stays`, `denied_are_kept`: no list that is shown to
//!   an auditor of the kind `deny` without an objection has one of its rules.
#![tactic(auto)]

mod laws;
mod naming;
mod showing;
mod texts;

pub use laws::{
    denied_are_kept, denied_are_unlisted, denying_stays, names_once, shows_once, words_are_kept,
};
pub use naming::name_auditors;
pub use showing::show_unit;
pub use texts::put_texts;
