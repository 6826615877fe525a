//! Rules and rule sets.
#![tactic(auto)]

mod admitting;
mod checking;
mod chosen;
mod copying;
mod derivation_laws;
mod discipline;
mod entry;
mod error;
mod extend;
mod fitting;
mod laws;
mod limits;
mod list_error;
mod list_reading;
mod list_writing;
mod look_up;
mod make;
mod modes;
mod nothing_given;
mod order;
mod proof;
mod proof_copy;
mod rule;
mod rule_set;
mod subject;
mod subject_places;

pub use chosen::places_of;
pub use derivation_laws::{
    derivations_are_sorted, discipline_suffices, first_derivation_is_unique,
    grafts_are_derivations, order_is_unique, outputs_have_texts, substitution_keeps_derivations,
};
pub use entry::Entry;
pub use error::RuleError;
pub use laws::{
    breach_is_unique, broken_part_is_first, fitting_is_sorted, good_has_no_breach,
    good_rules_are_moded, no_breach_is_good, none_broken_is_disciplined, none_unbound_is_moded,
    one_refusal_is_due, rule_sets_are_not_refused, unbound_is_first,
};
pub use limits::{MOST_LEVELS, MOST_RULES};
pub use list_error::ListError;
pub use list_reading::{read_list, written_list_is_read};
pub use list_writing::write_list;
pub use order::preorder;
pub use proof::Proof;
pub use proof_copy::copy_proof;
pub use rule::{Form, Goal, Hyps, Judgement, Place, Premise, Rule};
pub use rule_set::RuleSet;
pub use subject_places::{is_output, is_subject};
