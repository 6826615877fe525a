//! Dialects.

ghost use Rattle.std.specs.Prelude.{◌≡◌};

use sx_grammar::Grammar;
use sx_notation::Language;
use sx_rewrite::Accepted;
use sx_rules::RuleSet;

/// A language with extensions in use: its grammar and the grammar by which rules are read, both
/// with what the extensions add, and its rules with those of the extensions.
#[derive(Clone, Copy)]
pub struct Dialect<'a> {
    pub language: &'a Language,
    pub grammar: &'a Grammar,
    pub rule_grammar: &'a Grammar,
    pub accepted: &'a Accepted,
}

impl Dialect<'_> {
    /// The rules of the language, and then those of the extensions.
    pub fn rules(&self) -> &RuleSet
        ensures { result.now ≡ self.now.accepted.now.rules }
    {
        self.accepted.rules()
    }
}
