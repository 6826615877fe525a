//! The variable that is the subject of a premise.

ghost use Rattle.std.specs.Prelude.{◌≡◌, ℕ, List, ◌∷◌, MatchOption};
ghost use Rattle.sx_term.specs.Term.{tree};
ghost use Rattle.sx_term.specs.Tree.{Tree, hole};
ghost use Rattle.sx_rules.specs.Discipline.{subjects_of};
ghost use Rattle.sx_rules.specs.Sets.{forms_in};
ghost use Rattle.sx_rules.specs.Views.{judgement, subjects_in};

use sx_rules::{Judgement, RuleSet};
use sx_term::Term;

/// The variable that is the subject of the premise, or None where the subject is no variable, or
/// there is none.
pub fn premise_variable(set: &RuleSet, premise: &Judgement) -> Option<u32>
    ensures { MatchOption result
        ((v : ℕ) (rest : List Tree) →
        subjects_of (subjects_in (forms_in set.now)) (judgement premise.now)
        ≡ hole v ∷ rest → ⊥)
        (λ v. (rest : List Tree)
        × (subjects_of (subjects_in (forms_in set.now)) (judgement premise.now)
        ≡ hole v ∷ rest)) }
{
    match set.subject_of(premise) {
        Some(term) => variable_of(term),
        None => None,
    }
}

/// The number of the variable that the term is.
fn variable_of(term: &Term) -> Option<u32>
    ensures { MatchOption result ((v : ℕ) → tree term.now ≡ hole v → ⊥)
        (λ v. tree term.now ≡ hole v) }
{
    match term {
        Term::Node { label: _, kids: _ } => None,
        Term::Lex { kind: _, text: _ } => None,
        Term::Var(variable) => Some(*variable),
    }
}
