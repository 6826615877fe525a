//! The grammars of an extension.

ghost use Rattle.std.specs.Prelude.{map, IfOk, IfErr};
ghost use Rattle.sx_grammar.specs.Parts.{line};
ghost use Rattle.sx_extension.specs.Grounds.{ground, IsGroundBefore};
ghost use Rattle.sx_extension.specs.Readings.{AreGrammars};
ghost use Rattle.sx_extension.specs.Stages.{HasRoom, IsUngrammatical};

use crate::before::Before;
use std::alloc::Global;
use sx_grammar::{Grammar, Production};
use sx_notation::{NotationError, extended_rule_grammar, grammar_error};

/// The grammar with the productions of an extension, and that by which its rules are read.
#[derive(Drop)]
pub(crate) struct Grammars {
    pub(crate) grammar: Grammar,
    pub(crate) rule_grammar: Grammar,
}

/// The grammar with these productions after those before the extension, and then the grammar by
/// which its rules are read; or the refusal of the first of the two that is none.
pub(crate) fn make_grammars(
    alloc: Global,
    before: &Before,
    own: Vec<Production>,
) -> Result<Grammars, NotationError>
    requires before { IsGroundBefore (ground before.now) }
    requires room { HasRoom (ground before.now) (map line own.items) }
    ensures made { IfOk result (λ x.
        AreGrammars (ground before.now) (map line own.items) x.grammar x.rule_grammar) }
    ensures refused { IfErr result (IsUngrammatical (ground before.now) (map line own.items)) }
{
    let grammar = match Grammar::extend(alloc, before.grammar, own) {
        Ok(grammar) => grammar,
        Err(error) => return Err(grammar_error(error)),
    };
    let forms = before.language.rules.forms().len();
    match extended_rule_grammar(alloc, &grammar, before.rule_grammar, forms) {
        Ok(rule_grammar) => Ok(Grammars {
            grammar,
            rule_grammar,
        }),
        Err(error) => {
            drop(grammar);
            Err(grammar_error(error))
        }
    }
}
