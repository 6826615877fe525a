//! Writing a module whose derivation is lowered.

ghost use Rattle.std.specs.Prelude.{ℕ};
ghost use Rattle.sx_extcheck.specs.declared.budgets.Budgets as budget;
ghost use Rattle.sx_term.specs.Term.{tree};
ghost use Rattle.sx_term.specs.declared.role.Role.TheVariants.{Sub};
ghost use Rattle.sx_forest.specs.Readings.{plain_reading};
ghost use Rattle.sx_typing.specs.Goals.{IsBody, IsTypedBy};
ghost use Rattle.sx_typing.specs.BodySource.{CanType, IsTermFor};
ghost use Rattle.sx_unit.specs.Lowered.{IsLowering};
ghost use Rattle.sx_unit.specs.Modules.{module_data};
ghost use Rattle.sx_unit.specs.Refused.{IsCompiled};

use crate::compiled::Compiled;
use crate::judgement_terms::printed_terms;
use crate::lowering::Lowering;
use crate::module_source::ModuleSource;
use crate::module_writing::write_module;
use std::alloc::Global;
use sx_typing::{Body, ModuleError, Typed};

/// Writes the texts of a typed body that is lowered so.
pub(crate) fn write_lowered(
    alloc: Global,
    given: &ModuleSource,
    body: &Body,
    typed: &Typed,
    lowering: Lowering,
) -> Result<Compiled, ModuleError>
    requires can { CanType given.now.source }
    requires body { IsBody (module_data given.now).source body.now.tokens.items
        (plain_reading body.now.reading) (tree body.now.term) }
    requires good { IsTermFor (module_data given.now).source.dialect Sub (tree body.now.term) }
    requires lowered { (tries : ℕ) × (nodes : ℕ) ×
        (t : IsTypedBy (module_data given.now).source tries (tree body.now.term) typed.now) ×
        IsLowering (module_data given.now).source.dialect t.answer.0 nodes lowering }
    ensures { (b : budget.Budgets) →
        (t : IsTypedBy (module_data given.now).source b.tries (tree body.now.term) typed.now) →
        IsLowering (module_data given.now).source.dialect t.answer.0 b.nodes lowering →
        IsCompiled (module_data given.now) b result }
{
    let Lowering { list, judgement } = lowering;
    let rules = &given.source.dialect.language.rules;
    let terms = printed_terms(rules, &judgement, &typed.output);
    write_module(alloc, given, body, &terms, list)
}
