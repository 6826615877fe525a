//! Extensions are checked, rule by rule, and added to accepted sets.
//!
//! - `accept` adds an extension to an accepted set. Each of its rules is checked against the set:
//!   its flat terms are measured, and the first derivation of its flat conclusion from its flat
//!   premises is searched for. The first rule that is refused ends it.
//! - Where the typed syntax of a rule's body is base, the base rules alone are taken. Otherwise
//!   the plain rules of the set are taken too, and what is found is lowered to a derivation by
//!   the base rules, whose subject is the flat body. Both are lists of entries; of the lowered
//!   one the certificate is made in boxes.
#![tactic(auto)]

mod accept_error;
mod accepting;
mod base_syntax;
mod budgets;
mod check_error;
mod checking;
mod finding;
mod flat_checking;
mod flat_conclusion;
mod flat_goal;
mod flat_premises;
mod flat_terms;
mod laws;
mod refused;
mod rewrite_defect;
mod rule_checking;
mod rule_refusal;
mod storing;

pub use accept_error::AcceptError;
pub use accepting::accept;
pub use budgets::Budgets;
pub use laws::{
    added_rules_are_sound, checked_rules_are_stored, one_outcome_is_due, rejected_rules_are_unsound,
};
pub use refused::Refused;
pub use rule_refusal::RuleRefusal;
