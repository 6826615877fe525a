//! The way from the subject of a rule's conclusion to that of a premise.

ghost use Rattle.std.specs.Prelude.{◌≡◌, ◌≤◌, IfOk, map};
ghost use Rattle.sx_term.specs.Tree.{depth_of};
ghost use Rattle.sx_term.specs.Term.{tree};
ghost use Rattle.sx_rules.specs.Deep.{AreShallow};
ghost use Rattle.sx_arena.specs.Views.{judgement_of, rule_of};
ghost use Rattle.sx_derive.specs.Stuck.{stuck_place_in, path_of};
ghost use Rattle.sx_derive.specs.Ways.{subject_modes, IsWay};
ghost use Rattle.sx_term.specs.Limits.{most_depth};

use sx_rules::{Judgement, Rule, RuleSet};
use sx_term::{NoMemory, Term};

/// Appends the way to the variable, where the variable stands in the term, and says whether it
/// does.
fn put_way(term: &Term, variable: u32, path: &mut Vec<usize>) -> Result<bool, NoMemory>
    requires depth { depth_of (tree term.now) ≤ most_depth }
    ensures { IfOk result
        (λ found. IsWay path.old.items path.new.items (stuck_place_in variable (tree term.now))
        found) }
{
    match term {
        Term::Node { label: _, kids } => {
            for i in 0..kids.len() {
                path.push(i)?;
                if put_way(&kids[i], variable, path)? {
                    return Ok(true);
                }
                path.pop();
            }
            Ok(false)
        }
        Term::Lex { kind: _, text: _ } => Ok(false),
        Term::Var(it) => Ok(*it == variable),
    }
}

/// Appends to the path of a goal the way from its subject to the subject of a premise, where both
/// have one.
pub(crate) fn put_premise_way(
    rules: &RuleSet,
    rule: &Rule,
    premise: &Judgement,
    path: &mut Vec<usize>,
) -> Result<(), NoMemory>
    requires shallow { AreShallow (map tree rule.now.conclusion.places.items) }
    ensures { IfOk result
        (λ _. path.new.items
        ≡ path_of (subject_modes rules.now) path.old.items (rule_of rule.now)
        (judgement_of premise.now)) }
{
    match rules.subject_of(premise) {
        Some(Term::Var(variable)) => match rules.subject_of(&rule.conclusion) {
            Some(whole) => {
                put_way(whole, *variable, path)?;
                Ok(())
            }
            None => Ok(()),
        },
        _ => Ok(()),
    }
}
