//! Rule sets.

ghost use Rattle.std.specs.Prelude.{◌≡◌, map};
ghost use Rattle.sx_rules.specs.Good.{IsRuleSet, names_of};
ghost use Rattle.sx_rules.specs.Deep.{RulesAreShallow};
ghost use Rattle.sx_term.specs.Shapes as known;
ghost use Rattle.sx_rules.specs.Views as view;

use crate::rule::{Form, Rule};
use sx_term::{Names, Shapes};

/// Rules, each of them well sorted, disciplined and moded, with the shapes and the forms that they
/// are of. No two have one name, and no term of them is deeper than 1,000. A rule is found by its
/// number, or by the hash of its name.
#[derive(Drop)]
pub struct RuleSet {
    pub(crate) shapes: Shapes,
    pub(crate) forms: Vec<Form>,
    pub(crate) rules: Vec<Rule>,
    pub(crate) names: Names,
    ghost good: { ∥ IsRuleSet (known.shapes shapes) (view.forms forms.items)
        (map view.named rules.items) ∥₁ },
    ghost shallow: { ∥ RulesAreShallow (map view.rule rules.items) ∥₁ },
    ghost named: { names ≡ names_of rules.items },
}
