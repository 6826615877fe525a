//! What the lines of rules are read by.

use sx_earley::Metas;
use sx_grammar::Grammar;
use sx_rules::Form;

/// The grammar of rules, the stems of metavariables, and the forms.
#[derive(Clone, Copy)]
pub struct RuleReader<'a> {
    pub grammar: &'a Grammar,
    pub metas: &'a Metas,
    pub forms: &'a [Form],
}
