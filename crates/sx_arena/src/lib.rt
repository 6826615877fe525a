//! Terms that share what they have in common: each is named by a number, and equal terms have one
//! number.
//!
//! - `Arena` holds the terms, `Binds` holds bindings of variables to them.
//! - `made` and `fit` are instances and matching, `make_places` and `fit_places` the same for a
//!   `Side` of a judgement, its inputs or its outputs.
//! - `apart` tells whether two terms are apart by the pairs of the hypotheses.
//! - `enter` puts terms in, `export` takes them out.
#![tactic(auto)]

mod arena;
mod arena_cut;
mod binds;
mod cells;
mod chain;
mod fact;
mod input;
mod laws;
mod output;
mod pairs;
mod pattern;
mod places;
mod set;
mod shape;
mod side;

pub use arena::{Arena, Cell};
pub use arena_cut::keep;
pub use binds::{Bind, Binds};
pub use cells::Cells;
pub use chain::Chain;
pub use fact::{Fact, copied, same_numbers};
pub use input::{enter, enter_facts, enter_pairs, enter_places};
pub use laws::match_is_exact;
pub use output::{export, export_all, export_binds};
pub use pairs::{Pair, apart, instances_apart};
pub use pattern::{fit, made};
pub use places::{Limit, fit_places, make_places, may_fit, passed};
pub use set::{roles, rule_at};
pub use shape::{Kids, Shape};
pub use side::Side;
