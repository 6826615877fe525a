//! Writing a module whose derivation is by the language's rules alone.
//!
//! Without extensions a derivation is lowered to itself. So its list is that of the base
//! derivation, and its subject and its output are what is printed.

ghost use Rattle.std.specs.Prelude.{◌≡◌, ℕ, IsTrue, map};
ghost use Rattle.sx_extcheck.specs.declared.budgets.Budgets as budget;
ghost use Rattle.sx_term.specs.declared.role.Role.TheVariants.{Sub};
ghost use Rattle.sx_term.specs.Term.{tree};
ghost use Rattle.sx_forest.specs.Readings.{plain_reading};
ghost use Rattle.sx_rules.specs.Deep.{AreShallow};
ghost use Rattle.sx_rules.specs.Views.{goal as goal_of};
ghost use Rattle.sx_expand.specs.Readings.{AllSmall};
ghost use Rattle.sx_typing.specs.BodySource.{CanType, IsTermFor};
ghost use Rattle.sx_typing.specs.Dialects.{dialect_of, IsDialectOf};
ghost use Rattle.sx_typing.specs.Goals.{IsBody, IsTypedBy};
ghost use Rattle.sx_unit.specs.BaseAlone.{IsBaseAlone};
ghost use Rattle.sx_unit.specs.Modules.{module_data};
ghost use Rattle.sx_unit.specs.Refused.{IsCompiled};

use crate::compiled::Compiled;
use crate::known_reading::adds_nothing;
use crate::module_source::ModuleSource;
use crate::module_writing::write_module;
use crate::printed_terms::PrintedTerms;
use std::alloc::Global;
use sx_term::{MOST_SIZE, Term};
use sx_typing::{Body, Dialect, ModuleError, Typed};

/// Whether the extensions in use add neither a rule nor a production.
fn adds_no_rule(dialect: &Dialect) -> bool
    requires { IsDialectOf dialect.now }
    ensures { IsTrue result → IsBaseAlone (dialect_of dialect.now).set }
{
    dialect.accepted.facts();
    dialect.accepted.is_base_alone() && adds_nothing(dialect)
}

/// Whether none of the terms has more than 1,000,000 nodes, lexemes and variables.
fn are_small(terms: &[Term]) -> bool
    requires { AreShallow (map tree terms.now) }
    ensures { IsTrue result → AllSmall (map tree terms.now) }
{
    for term in terms {
        if term.size() > MOST_SIZE {
            return false;
        }
    }
    true
}

/// Whether the typed body's derivation is lowered to itself: no extension is in use, and no term of
/// its goal passes a limit.
pub(crate) fn is_lowered(dialect: &Dialect, typed: &Typed) -> bool
    requires dialect { IsDialectOf dialect.now }
    requires shallow { AreShallow (goal_of typed.now.goal).terms }
    ensures alone { IsTrue result → IsBaseAlone (dialect_of dialect.now).set }
    ensures small { IsTrue result → AllSmall (goal_of typed.now.goal).terms }
{
    adds_no_rule(dialect) && are_small(&typed.goal.inputs)
}

/// Writes the texts of a typed body whose derivation is lowered to itself, where it has at most so
/// many nodes.
pub(crate) fn write_typed(
    alloc: Global,
    given: &ModuleSource,
    body: &Body,
    typed: Typed,
    nodes: u64,
) -> Result<Compiled, ModuleError>
    requires can { CanType given.now.source }
    requires body { IsBody (module_data given.now).source body.now.tokens.items
        (plain_reading body.now.reading) (tree body.now.term) }
    requires good { IsTermFor (module_data given.now).source.dialect Sub (tree body.now.term) }
    requires typed { (tries : ℕ) ×
        IsTypedBy (module_data given.now).source tries (tree body.now.term) typed }
    requires alone { IsBaseAlone (module_data given.now).source.dialect.set }
    requires small { AllSmall (goal_of typed.goal).terms }
    ensures { (b : budget.Budgets) → b.nodes ≡ nodes →
        IsTypedBy (module_data given.now).source b.tries (tree body.now.term) typed →
        IsCompiled (module_data given.now) b result }
{
    let Typed { goal, list, output } = typed;
    drop(goal);
    if list.len() as u64 > nodes {
        drop(list);
        drop(output);
        return Err(ModuleError::RewriteSpent(nodes));
    }
    let terms = PrintedTerms {
        subject: &body.term,
        signature: &output,
        stated: &output,
    };
    let compiled = write_module(alloc, given, body, &terms, list);
    drop(output);
    compiled
}
