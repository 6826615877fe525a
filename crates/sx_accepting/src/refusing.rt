//! What refused rules of extensions are told by.

use sx_grammar::Grammar;
use sx_notation::Language;
use sx_rules::RuleSet;
use sx_term::{Text, Vars};

/// What a refused rule of an extension is told by: the language, the grammar by which the
/// extension's rules are read, the rules before the extension, the names of its rules, and the
/// names of the metavariables of each.
#[derive(Clone, Copy)]
pub struct Refusing<'a> {
    pub language: &'a Language,
    pub grammar: &'a Grammar,
    pub rules: &'a RuleSet,
    pub names: &'a [Text],
    pub vars: &'a [Vars],
}
