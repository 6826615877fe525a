//! What the texts of an extension are read by.

ghost use Rattle.std.specs.Prelude.{map, IfOk, IfErr};
ghost use Rattle.std.specs.List.{AllByRecursion};
ghost use Rattle.sx_grammar.specs.Parts.{line};
ghost use Rattle.sx_language.specs.States.{IsNameOfSort, AreStems};
ghost use Rattle.sx_extension.specs.Grounds.{ground, IsGroundBefore};
ghost use Rattle.sx_extension.specs.Readings.{AreGrammars};
ghost use Rattle.sx_extension.specs.Stages.{HasRoom, IsUngrammatical};

use crate::before::Before;
use crate::grammars::{Grammars, make_grammars};
use std::alloc::Global;
use sx_directives::VarLine;
use sx_earley::Metas;
use sx_grammar::Production;
use sx_language::metas_of;
use sx_notation::NotationError;

/// The grammars with the productions of an extension, and the stems of metavariables.
#[derive(Drop)]
pub(crate) struct OwnTables {
    pub(crate) grammars: Grammars,
    pub(crate) metas: Metas,
}

/// The grammars with these productions after those before the extension, and the stems that the
/// lines state; or the refusal of the first of the grammars that is none.
pub(crate) fn make_tables(
    alloc: Global,
    before: &Before,
    own: Vec<Production>,
    vars: &[VarLine],
) -> Result<OwnTables, NotationError>
    requires before { IsGroundBefore (ground before.now) }
    requires room { HasRoom (ground before.now) (map line own.items) }
    requires sorts { AllByRecursion (λ v. IsNameOfSort (ground before.now).language v.sort)
        vars.now }
    ensures made { IfOk result (λ x. AreGrammars (ground before.now) (map line own.items)
        x.grammars.grammar x.grammars.rule_grammar) }
    ensures stems { IfOk result (λ x.
        AreStems x.grammars.grammar.parts vars.now x.metas.stems.items) }
    ensures refused { IfErr result (IsUngrammatical (ground before.now) (map line own.items)) }
{
    let grammars = match make_grammars(alloc, before, own) {
        Ok(grammars) => grammars,
        Err(error) => return Err(error),
    };
    match metas_of(alloc, &grammars.grammar, vars) {
        Ok(metas) => Ok(OwnTables { grammars, metas }),
        Err(_) => {
            drop(grammars);
            Err(NotationError::Memory)
        }
    }
}
