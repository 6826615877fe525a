//! The only reading of tokens by a grammar.
//!
//! - `read_one`: the only reading of tokens as a sort, or why there is none: too hard, no reading,
//!   too deep, or two of more. `read_one_by`: the same by a grammar that is ready for charts and a
//!   table of stems, which serve for many texts.
//! - `Reading`: a node, a bracket pair, a lexeme or a metavariable; contracts see it as the plain
//!   reading of sx_grammar.
//! - `write_tree`: its tree text. `strip`: its term, without brackets. `place_of`: where a part of
//!   the term begins.
//! - `readings_fit`: what reads tokens by a grammar meets the conditions of these calls.
//!   `paths_leave_together`: `place_of` has no place exactly where the path leaves the term.
//! - Within: `ways` counts readings, none, one or more, with their greatest depth.
#![tactic(auto)]

mod all_tokens;
mod answer;
mod basis;
mod building;
mod choice;
mod choosing;
mod completing;
mod ends;
mod entries;
mod entry;
mod first_entries;
mod forest;
mod fork;
mod forking;
mod found;
mod full;
mod in_order;
mod judge;
mod judged;
mod kept;
mod laws;
mod levels;
mod narrowing;
mod opened;
mod ordered;
mod part_ways;
mod place;
mod ranked;
mod reach;
mod reaches;
mod read_error;
mod read_shown;
mod reading;
mod row;
mod span_rows;
mod span_ways;
mod spreading;
mod standing;
mod step;
mod stepping;
mod stretch;
mod stripping;
mod symbol_ways;
mod text_order;
mod useful;
mod wanted;
mod ways;
mod ways_list;
mod widening;
mod writing;

pub use answer::{read_one, read_one_by};
pub use laws::{paths_leave_together, readings_fit};
pub use place::place_of;
pub use read_error::ReadError;
pub use reading::Reading;
pub use stripping::strip;
pub use writing::write_tree;
