//! Derivations that are rewritten as lists of entries, without a derivation in boxes.
//!
//! - `expand` expands the list of a goal's derivation to the list of what it is lowered to, and
//!   tells the judgement of that. The nodes are counted first, and then the terms are measured,
//!   node by node. `expand_open` is the same of a derivation by plain rules, from hypotheses.
//! - `check_node` measures the terms of a lowered node by how deep and how big the terms are that
//!   are put for the variables of its rule. No term is made.
//! - A node is lowered by the numbers of its terms and of its kids' subjects (`lower_node`): its
//!   variables get plain images and subjects by number, its limits are told by measures, and of
//!   its terms the subject alone is made.
//! - `derivation_of` makes the derivation of a judgement in boxes from its list, once. It is read
//!   as below, and the terms that are bound at each node are taken out by their numbers.
//! - A derivation is read from its list by the numbers of its inputs (`read_node`): what these
//!   bind, its kids one after another, and then the node. What is not needed is not lowered. A
//!   hypothesis is read by its own terms, which are base (`read_given`).
//! - Laws: what a derivation is lowered to has the order that its own order determines; a node over
//!   kids that are read is read, with its subject at the number, or refused as it is due; the boxed
//!   `rewrite` has the same answer as `expand`, and `rewrite_open` the same as `expand_open`.
#![tactic(auto)]

mod binding;
mod box_binding;
mod boxing;
mod cursor;
mod emission;
mod ends;
mod expanded;
mod expanding;
mod finishing;
mod given_reading;
mod image_numbers;
mod kid;
mod kid_places;
mod kid_subjects;
mod laws;
mod list_lowering;
mod listing;
mod lower_node;
mod lowered_list;
mod made;
mod node;
mod node_binding;
mod node_boxing;
mod node_ends;
mod node_limits;
mod node_reading;
mod origin;
mod put_node;
mod put_number;
mod put_numbers;
mod read;
mod reader;
mod reading;
mod root_places;
mod subject_number;
mod tallying;
mod work;

pub use boxing::derivation_of;
pub use expanded::Expanded;
pub use expanding::{expand, expand_open};
pub use laws::{
    expanding_is_rewriting, kids_are_lowered, nodes_are_measured, nodes_have_subjects,
    orders_are_lowered,
};
pub use node_limits::check_node;
