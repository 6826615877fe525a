//! Languages with extensions.

ghost use Rattle.std.specs.Prelude.{◌≡◌, IfOk};
ghost use Rattle.sx_notation.specs.Language.{IsLanguage, language_data};
ghost use Rattle.sx_extension.specs.Grounds.{ground};
ghost use Rattle.sx_accepting.specs.ExtendedLanguages.{grammar_with, rule_grammar_with};
ghost use Rattle.sx_accepting.specs.ExtendedLanguages.{extended_data, unextended, ground_after};

use crate::own_grammars::OwnGrammars;
use std::alloc::Global;
use sx_extension::Before;
use sx_grammar::Grammar;
use sx_notation::Language;
use sx_rewrite::Accepted;
use sx_term::NoMemory;

/// A language with the extensions that were accepted after it: their grammars, or none while there
/// is no extension and the grammars are those of the language; the accepted set; and how many of
/// its rules are of the last extension.
#[derive(Drop)]
pub struct Extended {
    pub(crate) grammars: Option<OwnGrammars>,
    pub(crate) accepted: Accepted,
    pub(crate) last: usize,
}

impl Extended {
    /// The language without extensions. The one refusal is out of memory.
    pub fn begin(alloc: Global, language: &Language) -> Result<Extended, NoMemory>
        requires { IsLanguage language.now }
        ensures { IfOk result (λ x.
            extended_data language.now x ≡ unextended (language_data language.now)) }
    {
        language.grammar.facts();
        let accepted = Accepted::none(alloc, &language.rules)?;
        Ok(Extended {
            grammars: None,
            accepted,
            last: 0,
        })
    }

    /// The grammar with what the extensions add.
    pub fn grammar<'a>(&'a self, language: &'a Language) -> &'a Grammar
        ensures { result.now ≡ grammar_with language.entry.now self.entry.now.grammars }
    {
        match &self.grammars {
            Some(own) => &own.grammar,
            None => &language.grammar,
        }
    }

    /// The grammar by which rules are read, with what the extensions add.
    pub fn rule_grammar<'a>(&'a self, language: &'a Language) -> &'a Grammar
        ensures { result.now ≡ rule_grammar_with language.entry.now self.entry.now.grammars }
    {
        match &self.grammars {
            Some(own) => &own.rule_grammar,
            None => &language.rule_grammar,
        }
    }

    /// The rules that are accepted.
    pub fn accepted(&self) -> &Accepted
        ensures { result.now ≡ self.now.accepted }
    {
        &self.accepted
    }

    /// How many of the rules are of the last extension; none where there is no extension.
    pub fn last(&self) -> usize
        ensures { result ≡ self.now.last }
    {
        self.last
    }

    /// What the next extension is read after.
    pub(crate) fn before<'a>(&'a self, language: &'a Language) -> Before<'a>
        ensures { ground result ≡ ground_after language.entry.now self.entry.now }
    {
        self.accepted.facts();
        Before {
            language,
            grammar: self.grammar(language),
            rule_grammar: self.rule_grammar(language),
            rules: self.accepted.rules(),
            plain: self.accepted.plain(),
        }
    }
}
