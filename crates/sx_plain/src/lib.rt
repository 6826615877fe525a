//! Plain desugarings: a plain constructor that an extension adds gives way to its body.
//!
//! - `PlainTable` has for each such constructor its flat body, in which base labels and the parts
//!   stand alone, each part at least once.
//! - `lower` makes the plain image of a term: each constructor with an entry gives way to its flat
//!   body with the images of its parts.
//! - Laws: the image commutes with substitution, keeps each variable, is base and has the sort of
//!   the term.
//!
//! Contracts see a table as a function from labels to bodies (`specs/Plain.antt`). An image is
//! measured before it is made, in time that grows with the term alone: an entry keeps beside its
//! body how often and how deep each part stands there. Then each node of the image is made where it
//! stands, and nothing is copied. A node whose flat body is a part alone is no node of the image:
//! where a term has such nodes they are taken out of it first, once, since else a part that is used
//! often would be looked for under them each time.
#![tactic(auto)]

mod adding;
mod bare;
mod dropped;
mod entry;
mod laws;
mod look_up;
mod lowering;
mod make_entry;
mod measure;
mod node_measure;
mod part_use;
mod plain_error;
mod table;

pub use adding::first_later;
pub use laws::{
    base_terms_stay, bodies_stay_sorted, images_are_base, images_are_sorted, images_keep_variables,
    images_of_instances, images_stay, lexical_terms_stay, plain_terms_are_covered,
    sorted_terms_are_below, sorted_terms_fit_tables,
};
pub use lowering::lower;
pub use measure::{Measure, image_measure};
pub use plain_error::PlainError;
pub use table::PlainTable;
