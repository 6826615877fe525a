//! The walk through files that stand on one another: extensions along their `use` lines, modules
//! along their `import` lines.
//!
//! - `WalkedKind`: a kind of files, by what a walk takes from it.
//! - `read_reached`: the files that are reached from some names, each once and after those that it
//!   stands on; or the first refusal that the walk comes to.
//! - `walks_agree`: where reading a file has one result, the walk has one. `those_come_first`,
//!   `root_is_last`, `few_are_reached`: in which order the files come, and how many.
#![tactic(auto)]

mod file_table;
mod laws;
mod reading;
mod turn;
mod visiting;
mod walked_kind;
mod walking;

pub use laws::{few_are_reached, root_is_last, those_come_first, walks_agree};
pub use reading::read_reached;
pub use walked_kind::WalkedKind;
