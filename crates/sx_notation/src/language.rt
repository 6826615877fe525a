//! Languages.

use sx_earley::Metas;
use sx_grammar::Grammar;
use sx_outline::MainForm;
use sx_rules::RuleSet;
use sx_term::{Text, Vars};

/// A language: its grammar, the grammar by which its rules are read, the stems of metavariables,
/// the rules, the names of each rule's metavariables, and the main form.
#[derive(Drop)]
pub struct Language {
    pub name: Text,
    pub grammar: Grammar,
    pub rule_grammar: Grammar,
    pub metas: Metas,
    pub rules: RuleSet,
    pub names: Vec<Vars>,
    pub main: MainForm,
}
