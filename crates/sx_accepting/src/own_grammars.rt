//! The grammars of extensions.

use sx_grammar::Grammar;

/// The grammar with the productions of extensions, and that by which rules are read.
#[derive(Drop)]
pub(crate) struct OwnGrammars {
    pub(crate) grammar: Grammar,
    pub(crate) rule_grammar: Grammar,
}
