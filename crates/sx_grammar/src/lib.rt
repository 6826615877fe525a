//! Grammars: what they are made of, what it is to read tokens by them, and what stands in print.
#![tactic(auto)]

mod additions;
mod checks;
mod cycle;
mod cyclic;
mod distinct;
mod empty_sorts;
mod extend;
mod firsts;
mod follow;
mod grammar;
mod grammar_error;
mod grammar_parts;
mod groups;
mod growing;
mod head;
mod item;
mod labels_below;
mod laws;
mod levels;
mod limits;
mod make;
mod mixing;
mod more_sorts;
mod moving;
mod numbered;
mod numbered_behind;
mod numbered_parts;
mod numbering;
mod production;
mod progress;
mod rising;
mod rule;
mod shaping;
mod sort_line;
mod sort_ranks;
mod standing;
mod stems;
mod steps;
mod symbol;
mod tables;
mod telling;
mod tokens;

pub use grammar::Grammar;
pub use grammar_error::GrammarError;
pub use grammar_parts::{GrammarParts, copy_productions, copy_sorts};
pub use head::Head;
pub use item::Item;
pub use laws::{
    answers_are_one, depth_is_bounded, grammars_have_brackets, inner_spans_are_found,
    items_are_read, kids_come_before, prints_are_read, ranked_is_not_cyclic, spans_are_found,
    spans_are_read, tallies_are_counted,
};
pub use numbered::{NumberedProduction, NumberedSymbol};
pub use production::Production;
pub use sort_line::SortLine;
pub use stems::without_digits;
pub use symbol::Symbol;
