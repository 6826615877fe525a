//! What an extension file is read after.

use sx_grammar::Grammar;
use sx_notation::Language;
use sx_plain::PlainTable;
use sx_rules::RuleSet;

/// What an extension file is read after: its language, and what the language and the extensions
/// before it have together, which is the grammar, the grammar by which rules are read, the rules,
/// and the plain table.
#[derive(Clone, Copy)]
pub struct Before<'a> {
    pub language: &'a Language,
    pub grammar: &'a Grammar,
    pub rule_grammar: &'a Grammar,
    pub rules: &'a RuleSet,
    pub plain: &'a PlainTable,
}
