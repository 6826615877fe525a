//! The search for derivations.
#![tactic(auto)]

mod ask;
mod blame;
mod bound_inputs;
mod bounds;
mod candidate;
mod candidate_descent;
mod candidates;
mod chains;
mod derivation;
mod derive_error;
mod derived;
mod descent;
mod entered;
mod export_list;
mod export_proof;
mod first;
mod found;
mod given;
mod handing;
mod laws;
mod list_derivation;
mod listed;
mod made_places;
mod noted_candidate;
mod numbered_goal;
mod outcome;
mod passing;
mod premise_descent;
mod premise_loop;
mod problem;
mod reach;
mod run;
mod search;
mod search_error;
mod search_laws;
mod state;
mod step;
mod store;
mod stuck_goal;
mod subject_way;
mod tasks;
mod trace;
mod turns;
mod walk;

pub use blame::{Blame, Cause};
pub use derivation::derive;
pub use derive_error::DeriveError;
pub use derived::Derived;
pub use found::Found;
pub use laws::{
    answers_are_bounded, each_derivation_is_given, events_are_complete, events_are_in_order,
    events_are_sound, exhausted_has_no_stop, exhausted_means_none, found_has_few_nodes,
    found_is_first, machine_makes_events, sample_is_found, stuck_goal_exists, stuck_goal_has_texts,
    stuck_goal_is_shallow, stuck_goal_is_unique, walk_decides,
};
pub use list_derivation::derive_list;
pub use listed::Listed;
pub use search::Search;
pub use search_error::SearchError;
pub use search_laws::searches_stay_stopped;
