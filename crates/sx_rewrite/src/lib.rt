//! Accepted sets, and derivations that are rewritten by them.
//!
//! - `Accepted` has base rules, extension rules after them, and the plain table. Each
//!   extension rule has a flat body, where its conclusion has a subject, and a certificate: a
//!   derivation of its flat conclusion from its flat premises by the base rules. The
//!   rules of each extension are sound after the extensions before it.
//! - `graft` puts derivations in the place of the givens of another, and only moves them.
//! - `rewrite` and `rewrite_open` lower a derivation by the extended rules or by the
//!   plain rules to one by the base rules alone. The nodes are counted before any
//!   term is made, and each term is measured before it is made.
//! - Laws: a derivation by the extended rules is lowered to one by the base rules, in one
//!   way alone; a rule is sound by what is stored of it where a search finds a
//!   derivation, and is not where none exists; a set stays accepted as it grows.
//!
//! Contracts see a set as plain data (`specs/Accepted.antt`), and rules without their names.
#![tactic(auto)]

mod accept_laws;
mod accepted;
mod adding;
mod basing;
mod beginning;
mod certificate_instance;
mod certificate_size;
mod certificates;
mod certifying;
mod check_laws;
mod count_laws;
mod ext_rule;
mod extension_data;
mod fit_laws;
mod flat;
mod given_use;
mod grafting;
mod grown;
mod image_terms;
mod instance_made;
mod instance_measuring;
mod joining;
mod laws;
mod limits;
mod lowered;
mod lowered_judgement;
mod lowered_node;
mod lowered_size;
mod lowered_subject;
mod lowered_tally;
mod lowering;
mod measured_laws;
mod node_instance;
mod own_size;
mod placed_kids;
mod plain_laws;
mod plain_rule;
mod put_subjects;
mod put_term;
mod put_terms;
mod putting;
mod rewrite_calls;
mod rewrite_error;
mod rewriting_laws;
mod rule_set_laws;
mod rule_sets;
mod samples;
mod size_laws;
mod size_look_up;
mod sizing;
mod source;
mod subject_variable;
mod tallying;
mod telling;
mod used_laws;

pub use accept_laws::{
    accepted_sets_grow, base_rules_are_accepted, certificates_hold, flat_forms_are_sorted,
    growth_goes_on, rejected_is_unsound, sound_rules_are_sorted, stored_is_sound,
};
pub use accepted::Accepted;
pub use basing::check_measures;
pub use certificate_size::CertificateSize;
pub use check_laws::{
    checks_are_rewritten_alike, checks_are_sound, checks_have_fit_terms, flat_goals_stay,
    flat_premises_are_base, found_checks_can_be_rewritten, longer_tables_are_accepted,
    longer_tables_rewrite_alike, plain_rules_stay, stored_extensions_are_sound,
};
pub use count_laws::{certificates_use_premises, height_is_greatest, nodes_are_summed};
pub use ext_rule::ExtRule;
pub use extension_data::ExtensionData;
pub use fit_laws::{derivations_have_fit_terms, found_can_be_rewritten};
pub use flat::Flat;
pub use given_use::GivenUse;
pub use grafting::graft;
pub use instance_measuring::instance_measure;
pub use laws::{lowered_are_derivations, lowered_are_sorted, lowering_exists, lowering_is_unique};
pub use limits::check_measure;
pub use lowered::Lowered;
pub use lowered_size::LoweredSize;
pub use lowered_tally::LoweredTally;
pub use measured_laws::{measured_are_all, measuring_is_unique, terms_are_measured};
pub use node_instance::check_conclusion;
pub use plain_laws::{plain_rules_are_accepted, plain_rules_lower_alike};
pub use plain_rule::{plain_judgement, plain_term};
pub use rewrite_calls::{rewrite, rewrite_open};
pub use rewrite_error::RewriteError;
pub use rewriting_laws::{rewriting_answers, rewriting_is_good, rewriting_is_unique};
pub use rule_set_laws::good_rules_are_disciplined;
pub use samples::sample_is_lowered;
pub use size_laws::{derivations_fit, plain_rules_count_alike};
pub use subject_variable::premise_variable;
pub use used_laws::{lowered_are_counted, typed_variables_are_used, unused_kids_are_free};
