//! What stuck goals are told by.

use sx_grammar::Grammar;
use sx_notation::Language;
use sx_rules::RuleSet;
use sx_term::Vars;

/// What a stuck goal is told by: the language that its form is of, a grammar by which rules are
/// read, the names of its variables, and the rules that are told by their numbers.
#[derive(Clone, Copy)]
pub struct Telling<'a> {
    pub language: &'a Language,
    pub grammar: &'a Grammar,
    pub vars: &'a Vars,
    pub rules: &'a RuleSet,
}
