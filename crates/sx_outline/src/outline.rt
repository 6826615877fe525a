//! What the lines of a language file state.

use crate::main_form::MainForm;
use crate::rule_lines::RuleLines;
use sx_directives::{FormLine, VarLine};
use sx_grammar::GrammarParts;

/// A language file before its rules are read by its grammar: the parts of the grammar, the stems of
/// metavariables, the forms, the main form, and the lines of the rules.
#[derive(Drop)]
pub struct Outline {
    pub parts: GrammarParts,
    pub vars: Vec<VarLine>,
    pub forms: Vec<FormLine>,
    pub main: MainForm,
    pub rules: Vec<RuleLines>,
}
