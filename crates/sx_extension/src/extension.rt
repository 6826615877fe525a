//! Extensions that are read.

use sx_grammar::Grammar;
use sx_rewrite::ExtensionData;
use sx_term::Vars;

/// What an extension file states: the grammar and the grammar by which rules are read, each with
/// the productions of the extension after those before it; the extension, whose plain table has
/// the entries before it too; and the names of the metavariables of each of its rules.
#[derive(Drop)]
pub struct ReadExtension {
    pub grammar: Grammar,
    pub rule_grammar: Grammar,
    pub extension: ExtensionData,
    pub names: Vec<Vars>,
}
