//! Lowering the derivation of a typed body.

ghost use Rattle.std.specs.Prelude.{ℕ};
ghost use Rattle.sx_term.specs.declared.role.Role.TheVariants.{Sub};
ghost use Rattle.sx_term.specs.Tree.{Tree};
ghost use Rattle.sx_typing.specs.Goals.{IsTypedBy};
ghost use Rattle.sx_typing.specs.BodySource.{CanType, IsTermFor};
ghost use Rattle.sx_unit.specs.Lowered.{IsLoweringOf};
ghost use Rattle.sx_unit.specs.Modules.{module_data};

use crate::lowering::Lowering;
use crate::module_source::ModuleSource;
use std::alloc::Global;
use sx_expand::{Expanded, expand};
use sx_rewrite::RewriteError;
use sx_typing::Typed;

/// What the derivation of the typed body is lowered to, with at most so many nodes.
pub(crate) fn lower_typed(
    alloc: Global,
    given: &ModuleSource,
    typed: &Typed,
    nodes: u64,
) -> Result<Lowering, RewriteError>
    requires can { CanType given.now.source }
    requires typed { (tries : ℕ) × (subject : Tree) ×
        IsTermFor (module_data given.now).source.dialect Sub subject ×
        IsTypedBy (module_data given.now).source tries subject typed.now }
    ensures { (tries : ℕ) (subject : Tree) →
        (t : IsTypedBy (module_data given.now).source tries subject typed.now) →
        IsLoweringOf (module_data given.now).source.dialect t.answer.0 nodes result }
{
    let accepted = given.source.dialect.accepted;
    accepted.facts();
    match expand(alloc, accepted, &typed.goal, &typed.list, nodes) {
        Ok(expanded) => {
            let Expanded {
                entries,
                judgement,
                copied: _,
            } = expanded;
            Ok(Lowering {
                list: entries,
                judgement,
            })
        }
        Err(error) => Err(error),
    }
}
