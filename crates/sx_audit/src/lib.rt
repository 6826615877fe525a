//! Auditors: they are shown each node of a derivation, and may object.
#![tactic(auto)]

mod auditor;
mod denying;
mod depths;
mod laws;
mod listed;
pub mod makers;
mod node_count;
mod row;
mod set_error;
mod settings;
mod show_error;
mod showing;
mod tallying;
mod texts;

pub use auditor::Auditor;
pub use denying::Deny;
pub use depths::Depth;
pub use laws::{denied_are_absent, derivations_are_by_rules, lines_name_nodes};
pub use listed::show_list;
pub use node_count::Nodes;
pub use set_error::SetError;
pub use show_error::ShowError;
pub use showing::show;
pub use tallying::Tally;
