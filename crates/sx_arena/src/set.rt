//! What a search reads of a rule set.

ghost use Rattle.std.specs.Prelude.{◌≡◌, ◌<◌, Some, length, slice_get};
ghost use Rattle.sx_rules.specs.SubjectTerms.{output_mask};
ghost use Rattle.sx_arena.specs.Views.{set_modes, rules_of, rule_of};

use sx_rules::{Place, Rule, RuleSet};

/// The places of the form, none where there is no such form.
pub fn roles(set: &RuleSet, form: u32) -> &[Place]
    ensures { output_mask result.now ≡ set_modes set.now form }
{
    set.places_of(form)
}

/// The rule with this number.
pub fn rule_at(set: &RuleSet, number: u32) -> &Rule
    requires { number < length (rules_of set.now) }
    ensures { slice_get (rules_of set.now) number ≡ Some (rule_of result.now) }
{
    match set.rule(number) {
        Some(rule) => rule,
        None => unreachable!(),
    }
}
