//! The chart of Earley items: which parts of a token list a grammar reads.
#![tactic(auto)]

mod all_items;
mod ask;
mod ask_set;
mod chart_error;
mod charting;
mod completed;
mod dotted;
mod filed;
mod given;
mod growing;
mod hints;
mod item_set;
mod metas;
mod neighbours;
mod notes;
mod opening;
mod openings;
mod packed_item;
mod prediction;
mod ready_grammar;
mod shown;
mod slot;
mod span;
mod spanned;
mod stem_table;
mod stems;
mod symbols;
mod table;

pub use chart_error::ChartError;
pub use charting::{chart, chart_of, number_of};
pub use completed::Chart;
pub use metas::Metas;
pub use ready_grammar::ReadyGrammar;
pub use shown::{Shown, reads};
pub use span::{Span, SpanOf};
pub use stems::{Stems, first_unknown, show_all};
pub use symbols::{makes, production_at, sort_of, symbol_of};
