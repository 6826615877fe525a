//! Compiling a module.

ghost use Rattle.std.specs.Prelude.{◌≡◌, ◌≤◌, ◌+◌, ℕ, IfOk, IfErr};
ghost use Rattle.sx_extcheck.specs.declared.budgets.Budgets as budget;
ghost use Rattle.sx_term.specs.Term.{tree};
ghost use Rattle.sx_term.specs.declared.role.Role.TheVariants.{Sub};
ghost use Rattle.sx_forest.specs.Readings.{plain_reading};
ghost use Rattle.sx_typing.specs.Goals.{IsBody, IsTypedBy};
ghost use Rattle.sx_typing.specs.BodySource.{CanType, IsTermFor};
ghost use Rattle.sx_unit.specs.Modules.{module_data};
ghost use Rattle.sx_unit.specs.Refused.{IsCompiled, IsCounted, IsFinal};
ghost use Rattle.sx_unit.specs.Unit.{IsUnit};
ghost use Rattle.sx_unit.specs.Written.{unit_of};

use crate::base_writing::{is_lowered, write_typed};
use crate::compiled::Compiled;
use crate::errors::rewrite_error;
use crate::lowered_writing::write_lowered;
use crate::module_source::ModuleSource;
use crate::typed_lowering::lower_typed;
use std::alloc::Global;
use std::sync::ledger::Ledger;
use sx_extcheck::Budgets;
use sx_term::Steps;
use sx_typing::{Body, ModuleError, Typed, read_source, type_source};

/// Lowers the derivation of a typed body, and writes the module's texts.
fn compile_lowered(
    alloc: Global,
    given: &ModuleSource,
    body: &Body,
    typed: &Typed,
    nodes: u64,
) -> Result<Compiled, ModuleError>
    requires can { CanType given.now.source }
    requires body { IsBody (module_data given.now).source body.now.tokens.items
        (plain_reading body.now.reading) (tree body.now.term) }
    requires good { IsTermFor (module_data given.now).source.dialect Sub (tree body.now.term) }
    requires typed { (tries : ℕ) ×
        IsTypedBy (module_data given.now).source tries (tree body.now.term) typed.now }
    ensures { (b : budget.Budgets) → b.nodes ≡ nodes →
        IsTypedBy (module_data given.now).source b.tries (tree body.now.term) typed.now →
        IsCompiled (module_data given.now) b result }
{
    match lower_typed(alloc, given, typed, nodes) {
        Ok(lowering) => write_lowered(alloc, given, body, typed, lowering),
        Err(error) => Err(rewrite_error(error)),
    }
}

/// Writes the module's texts of a typed body: at once where its derivation is lowered to itself, or
/// else of what it is lowered to.
fn compile_typed(
    alloc: Global,
    given: &ModuleSource,
    body: &Body,
    typed: Typed,
    nodes: u64,
) -> Result<Compiled, ModuleError>
    requires can { CanType given.now.source }
    requires body { IsBody (module_data given.now).source body.now.tokens.items
        (plain_reading body.now.reading) (tree body.now.term) }
    requires good { IsTermFor (module_data given.now).source.dialect Sub (tree body.now.term) }
    requires typed { (tries : ℕ) ×
        IsTypedBy (module_data given.now).source tries (tree body.now.term) typed }
    ensures { (b : budget.Budgets) → b.nodes ≡ nodes →
        IsTypedBy (module_data given.now).source b.tries (tree body.now.term) typed →
        IsCompiled (module_data given.now) b result }
{
    if is_lowered(&given.source.dialect, &typed) {
        return write_typed(alloc, given, body, typed, nodes);
    }
    let compiled = compile_lowered(alloc, given, body, &typed, nodes);
    drop(typed);
    compiled
}

/// Types the body, and compiles what is typed.
fn compile_body<L: Ledger>(
    alloc: Global,
    given: &ModuleSource,
    body: &Body,
    budgets: Budgets,
    steps: &mut Steps<L>,
) -> Result<Compiled, ModuleError>
    requires can { CanType given.now.source }
    requires body { IsBody (module_data given.now).source body.now.tokens.items
        (plain_reading body.now.reading) (tree body.now.term) }
    requires good { IsTermFor (module_data given.now).source.dialect Sub (tree body.now.term) }
    ensures answer { IsCompiled (module_data given.now) budgets result }
    ensures tries { IsCounted (module_data given.now) budgets result steps.old steps.new }
    ensures most { steps.new ≤ steps.old + budgets.tries }
{
    let typed = type_source(alloc, &given.source, body, budgets.tries, steps)?;
    compile_typed(alloc, given, body, typed, budgets.nodes)
}

/// Compiles a module in a dialect: its body is read by the dialect's grammar; the first derivation
/// of the main form's goal, with the environment and the body's term, is found with at most so many
/// tries; it is lowered to a derivation by the language's rules with at most so many nodes; and
/// what comes of it are the base program, the interface and the derivation as texts. The refusals
/// come in the order of `ModuleError`, where a printed body comes before a printed signature, and
/// the names of the stated signature before its print.
///
/// The header is that of the bytes, the imports are the header's in order, the extensions are those
/// of the dialect in order, and the environment is a term of the dialect.
pub fn compile<L: Ledger>(
    alloc: Global,
    given: &ModuleSource,
    budgets: Budgets,
    steps: &mut Steps<L>,
) -> Result<Compiled, ModuleError>
    requires { CanType given.now.source }

    // The module is made as its definition says, or the refusal is the one that is due.
    ensures answer { IsCompiled (module_data given.now) budgets result }
    // What is made are the texts of the first derivation among all.
    ensures unit { IfOk result (λ c. IsUnit (module_data given.now) (unit_of c)) }
    // A type error comes only where the main goal has no derivation at all.
    ensures untyped { IfErr result (IsFinal (module_data given.now)) }
    // The steps rise by the tries of the goal's walk.
    ensures tries { IsCounted (module_data given.now) budgets result steps.old steps.new }
    ensures most { steps.new ≤ steps.old + budgets.tries }
{
    let body = read_source(alloc, &given.source)?;
    compile_body(alloc, given, &body, budgets, steps)
}
