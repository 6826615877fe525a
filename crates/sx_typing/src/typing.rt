//! Typing a source's body.

ghost use Rattle.std.specs.Prelude.{◌≡◌, ◌≤◌, ◌+◌, ℕ, [], ◌∷◌, length, None, Err, IfOk, IfErr};
ghost use Rattle.sx_term.specs.Term.{tree};
ghost use Rattle.sx_term.specs.declared.role.Role.TheVariants.{Sub};
ghost use Rattle.sx_rules.specs.Deep.{AreShallow};
ghost use Rattle.sx_rules.specs.Views.{goal as goal_of};
ghost use Rattle.sx_derive.specs.declared.derive_error.DeriveError.TheVariants.{Underivable};
ghost use Rattle.sx_derive.specs.declared.derive_error.DeriveError.TheVariants.{Memory as NoRoom};
ghost use Rattle.sx_derive.specs.Deriving.{AreCounted};
ghost use Rattle.sx_derive.specs.Search.{tries_of};
ghost use Rattle.sx_forest.specs.Readings.{plain_reading};
ghost use Rattle.sx_typing.specs.declared.module_error.ModuleError.TheVariants.{Memory};
ghost use Rattle.sx_typing.specs.Goals as known;
ghost use Rattle.sx_typing.specs.Goals.{source_events, IsBody, IsFoundBy, AreTriesCounted};
ghost use Rattle.sx_typing.specs.Goals.{IsTypedBy};
ghost use Rattle.sx_typing.specs.Refused.{IsBadSource, IsTypingFinal};
ghost use Rattle.sx_typing.specs.BodySource.{source_of, CanType, IsTermFor};

use crate::body::Body;
use crate::body_source::BodySource;
use crate::module_error::ModuleError;
use crate::places::body_of;
use crate::searching::{find_derivation, main_goal};
use crate::type_error::type_error;
use crate::typed::Typed;
use std::alloc::Global;
use std::sync::ledger::Ledger;
use sx_derive::{Blame, DeriveError, Listed};
use sx_rules::Goal;
use sx_term::{NoMemory, Steps};

/// The type error of the stuck goal.
fn stuck(
    alloc: Global,
    source: &BodySource,
    body: &Body,
    blame: &Blame,
) -> Result<ModuleError, NoMemory>
    requires can { CanType source.now }
    requires body { IsBody (source_of source.now) body.now.tokens.items
        (plain_reading body.now.reading) (tree body.now.term) }
    requires good { IsTermFor (source_of source.now).dialect Sub (tree body.now.term) }
    requires blame { (tries : ℕ) × IsFoundBy (source_of source.now) tries (tree body.now.term)
        (Err (Underivable blame.now)) }
    ensures { IfOk result (λ e. (tries : ℕ) →
        IsFoundBy (source_of source.now) tries (tree body.now.term) (Err (Underivable blame.now)) →
        IsBadSource (source_of source.now) tries e) }
{
    let before = source.bytes.len() - body_of(source.bytes, source.header).len();
    type_error(alloc, &source.dialect, source.bytes, before, body, blame)
}

/// Why the body's goal has no derivation.
fn no_derivation(alloc: Global, source: &BodySource, body: &Body, error: DeriveError) -> ModuleError
    requires can { CanType source.now }
    requires body { IsBody (source_of source.now) body.now.tokens.items
        (plain_reading body.now.reading) (tree body.now.term) }
    requires good { IsTermFor (source_of source.now).dialect Sub (tree body.now.term) }
    requires error { (tries : ℕ) ×
        IsFoundBy (source_of source.now) tries (tree body.now.term) (Err error) }
    ensures bad { (tries : ℕ) →
        IsFoundBy (source_of source.now) tries (tree body.now.term) (Err error) →
        IsBadSource (source_of source.now) tries result }
    ensures memory { error ≡ NoRoom → result ≡ Memory }
{
    match error {
        DeriveError::Memory => ModuleError::Memory,
        DeriveError::Underivable(blame) => match stuck(alloc, source, body, &blame) {
            Ok(error) => error,
            Err(_) => ModuleError::Memory,
        },
        DeriveError::BudgetSpent(tries) => ModuleError::BudgetSpent(tries),
        DeriveError::DepthSpent(_) => ModuleError::DepthSpent,
        DeriveError::TooDeep(depth) => ModuleError::TooDeep(depth),
        DeriveError::TooBig(size) => ModuleError::TooBig(size),
    }
}

/// The list of what was found for the goal, with its one output.
fn typed(goal: Goal, listed: Listed) -> Typed
    requires { length listed.outputs.items ≡ 1 }
    ensures { (result.goal ≡ goal) × (result.list ≡ listed.entries) ×
        (listed.outputs.items ≡ result.output ∷ []) }
{
    let Listed {
        entries,
        mut outputs,
    } = listed;
    match outputs.pop() {
        Some(output) => Typed {
            goal,
            list: entries,
            output,
        },
        None => unreachable!(),
    }
}

/// The first derivation of the goal of the body by the rules of the dialect.
fn search<L: Ledger>(
    alloc: Global,
    source: &BodySource,
    body: &Body,
    goal: &Goal,
    tries: u64,
    steps: &mut Steps<L>,
) -> Result<Listed, DeriveError>
    requires can { CanType source.now }
    requires goal { goal_of goal.now ≡ known.goal_with (source_of source.now) (tree body.now.term) }
    requires shallow { AreShallow (goal_of goal.now).terms }
    ensures answer { IsFoundBy (source_of source.now) tries (tree body.now.term) result }
    ensures steps { AreCounted
        (tries_of None tries (source_events (source_of source.now) (tree body.now.term)))
        steps.old steps.new result }
{
    let rules = source.dialect.rules();
    find_derivation(alloc, rules, goal, tries, steps)
}

/// Types the body of the source: finds the first derivation of the main form's goal with the
/// environment and the body's term, by the rules of the dialect, with at most `tries` tries.
///
/// The body is the one that is read, and its term is one of the dialect.
pub fn type_source<L: Ledger>(
    alloc: Global,
    source: &BodySource,
    body: &Body,
    tries: u64,
    steps: &mut Steps<L>,
) -> Result<Typed, ModuleError>
    requires can { CanType source.now }
    requires body { IsBody (source_of source.now) body.now.tokens.items
        (plain_reading body.now.reading) (tree body.now.term) }
    requires good { IsTermFor (source_of source.now).dialect Sub (tree body.now.term) }

    // The list is that of the first derivation, which can be rewritten, and the output is its own.
    ensures typed { IfOk result (IsTypedBy (source_of source.now) tries (tree body.now.term)) }
    // The refusal is the one that is due.
    ensures refused { IfErr result (IsBadSource (source_of source.now) tries) }
    // A type error comes only where the goal has no derivation at all.
    ensures untyped { IfErr result (IsTypingFinal (source_of source.now)) }
    // The steps rise by the tries of the goal's walk.
    ensures tries { AreTriesCounted (tries_of None tries
        (source_events (source_of source.now) (tree body.now.term))) steps.old steps.new result }
    ensures most { steps.new ≤ steps.old + tries }
{
    let language = source.dialect.language;
    let goal = main_goal(alloc, language, source.environment, &body.term)?;
    match search(alloc, source, body, &goal, tries, steps) {
        Ok(listed) => Ok(typed(goal, listed)),
        Err(error) => {
            drop(goal);
            Err(no_derivation(alloc, source, body, error))
        }
    }
}
