//! The refusals of extensions that are not accepted.

ghost use Rattle.std.specs.Prelude.{◌≡◌, [], IfOk, MatchOption, Some};
ghost use Rattle.sx_derive.specs.Blames.{blame_of};
ghost use Rattle.sx_stuck.specs.StuckText.{CanTell};
ghost use Rattle.sx_accepting.specs.AcceptanceStops as stops;
ghost use Rattle.sx_accepting.specs.AcceptanceStops.{refusing_of, vars_named};

use crate::refusing::Refusing;
use std::alloc::Global;
use sx_derive::Blame;
use sx_extcheck::{AcceptError, RuleRefusal};
use sx_steps::{Stop, refused_at};
use sx_stuck::{Telling, stuck_text};
use sx_term::{NoMemory, Text, Vars};
use sx_words::{BudgetDefect, Defect, Position, TextDefect};

/// The names of the metavariables of the first rule with this name, or None where there are none.
fn vars_of<'a>(names: &[Text], vars: &'a [Vars], name: &Text) -> Option<&'a Vars>
    ensures { MatchOption result
        (vars_named names.entry.now vars.entry.now name.entry.now ≡ [])
        (λ own. vars_named names.entry.now vars.entry.now name.entry.now ≡ own.now) }
{
    for i in 0..names.len() {
        if i >= vars.len() {
            return None;
        }
        let own = &names[i];
        if own.same(name) {
            return Some(&vars[i]);
        }
    }
    None
}

/// Why a rule is not sound, by its stuck goal, whose variables have these names.
fn unsound(
    alloc: Global,
    refusing: &Refusing,
    vars: &Vars,
    blame: &Blame,
) -> Result<Defect, NoMemory>
    requires { CanTell (stops.telling_with (refusing_of refusing.now) vars.now)
        (blame_of blame.now) }
    ensures { IfOk result (λ what. what
        ≡ stops.unsound (stops.telling_with (refusing_of refusing.now) vars.now) blame.now) }
{
    let telling = Telling {
        language: refusing.language,
        grammar: refusing.grammar,
        vars,
        rules: refusing.rules,
    };
    let goal = stuck_text(alloc, &telling, blame)?;
    Ok(Defect::Goal(goal))
}

/// Why the rule with this name is not sound.
fn rejected(
    alloc: Global,
    refusing: &Refusing,
    name: &Text,
    blame: &Blame,
) -> Result<Defect, NoMemory>
    requires { CanTell (stops.telling_for (refusing_of refusing.now) name.now)
        (blame_of blame.now) }
    ensures { IfOk result (λ what. what
        ≡ stops.unsound (stops.telling_for (refusing_of refusing.now) name.now) blame.now) }
{
    match vars_of(refusing.names, refusing.vars, name) {
        Some(vars) => unsound(alloc, refusing, vars, blame),
        None => {
            let vars = Vars::new(alloc);
            unsound(alloc, refusing, &vars, blame)
        }
    }
}

/// Why the rule with this name is refused.
fn rule_defect(
    alloc: Global,
    refusing: &Refusing,
    name: &Text,
    what: RuleRefusal,
) -> Result<Defect, NoMemory>
    requires { stops.CanTellDefect (refusing_of refusing.now) name.now what }
    ensures { IfOk result (λ defect. defect
        ≡ stops.defect_of (refusing_of refusing.now) name.now what) }
{
    match what {
        RuleRefusal::Rejected(blame) => rejected(alloc, refusing, name, &blame),
        RuleRefusal::BudgetSpent(tries) => Ok(Defect::Budget(BudgetDefect::Tries(tries))),
        RuleRefusal::DepthSpent(_) => Ok(Defect::Budget(BudgetDefect::Depth)),
        RuleRefusal::TooDeep(depth) => Ok(Defect::Text(TextDefect::TooDeep(depth))),
        RuleRefusal::TooBig(size) => Ok(Defect::Text(TextDefect::TooBig(size))),
        RuleRefusal::RewriteSpent(nodes) => Ok(Defect::Budget(BudgetDefect::Nodes(nodes))),
        RuleRefusal::RewriteDeep => Ok(Defect::Budget(BudgetDefect::RewriteDepth)),
    }
}

/// The refusal of an extension that is not accepted.
pub fn bad_acceptance(
    alloc: Global,
    file: &Text,
    refusing: &Refusing,
    error: AcceptError,
) -> Result<Stop, NoMemory>
    requires { stops.CanTellError (refusing_of refusing.now) error }
    ensures { IfOk result (λ stop.
        stops.acceptance_stop file.now (refusing_of refusing.now) error ≡ Some stop) }
{
    match error {
        AcceptError::Memory => Err(NoMemory::Memory),
        AcceptError::Rule(name, what) => match rule_defect(alloc, refusing, &name, what) {
            Ok(defect) => refused_at(alloc, file, Position::Rule(name), defect),
            Err(e) => {
                drop(name);
                Err(e)
            }
        },
    }
}
