//! The refusal of rules that are no rule set.

ghost use Rattle.std.specs.Prelude.{◌≡◌, [], map, IfOk, MatchOption};
ghost use Rattle.sx_language.specs.States.{variable_names, name_unbound};
ghost use Rattle.sx_language.specs.Prepared.{IsRuleRefusal};

use std::alloc::Global;
use sx_notation::NotationError;
use sx_outline::RuleLines;
use sx_rules::RuleError;
use sx_term::{NoMemory, Text, Vars};

/// The names of the variables of the first rule with this name.
fn names_in<'a>(rules: &[RuleLines], names: &'a [Vars], name: &Text) -> Option<&'a Vars>
    ensures { MatchOption result
        (variable_names (map (λ l. l.name) rules.entry.now) names.entry.now name.entry.now ≡ [])
        (λ v. v.now ≡
        variable_names (map (λ l. l.name) rules.entry.now) names.entry.now name.entry.now) }
{
    for i in 0..rules.len() {
        let rule = &rules[i];
        if rule.name == *name {
            return names.get(i);
        }
    }
    None
}

/// The name of the variable that is not bound, where that is the error.
fn name_unbound(
    alloc: Global,
    rules: &[RuleLines],
    names: &[Vars],
    error: &RuleError,
) -> Result<Option<Text>, NoMemory>
    ensures { IfOk result (λ x.
        x ≡ name_unbound (map (λ l. l.name) rules.now) names.now error.now) }
{
    match error {
        RuleError::NotModed(name, variable) => match names_in(rules, names, name) {
            Some(vars) => match vars.name(*variable) {
                Some(text) => Ok(Some(text.copy(alloc)?)),
                None => Ok(None),
            },
            None => Ok(None),
        },
        _ => Ok(None),
    }
}

/// The refusal of rules that are no rule set. Where a variable is not bound, it has the variable's
/// name: that among the names of the first rule with the name that the error tells.
pub fn rule_error(
    alloc: Global,
    rules: &[RuleLines],
    names: &[Vars],
    error: RuleError,
) -> NotationError
    ensures { IsRuleRefusal (map (λ l. l.name) rules.now) names.now error result }
{
    match error {
        RuleError::Memory => NotationError::Memory,
        error => match name_unbound(alloc, rules, names, &error) {
            Ok(variable) => NotationError::Rules { error, variable },
            Err(NoMemory::Memory) => NotationError::Memory,
        },
    }
}
