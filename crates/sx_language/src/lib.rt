//! Languages, as language files state them, and the lines of their rules.
//!
//! - `read_language`: the language that a text states, or why it states none. `specs/States.antt`
//!   says what a text states: its outline gives the grammars, the stems of metavariables and the
//!   forms; each line of a rule has one reading by the grammar of rules, which is a judgement or
//!   says that two lexemes are to be apart; and the rules are a rule set.
//! - `read_rules`: the rules that lines state, with their bodies, by a `RuleReader`, or the first
//!   bad line. `read_language` reads rules without bodies by it.
//! - `one_language`: a text states one language, or has one refusal, but for the two readings that
//!   a refusal may show of a line with more than two.
#![tactic(auto)]

mod language_reading;
mod laws;
mod plain_body;
mod premise;
mod preparing;
mod rule_body;
mod rule_line;
mod rule_naming;
mod rule_reader;
mod rule_reading;
mod rules_reading;
mod stem_sorts;
mod stems;

pub use language_reading::read_language;
pub use laws::{
    bodies_are_sorted, one_language, one_rules, read_rules_are_usable, unbound_is_later,
};
pub use plain_body::read_plain_body;
pub use rule_naming::rule_error;
pub use rule_reader::RuleReader;
pub use rules_reading::{ReadRules, read_rules};
pub use stems::{metas_of, var_lines};
