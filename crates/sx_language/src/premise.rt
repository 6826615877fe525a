//! What the term of a line says.

ghost use Rattle.std.specs.Prelude.{◌≡◌, ◌+◌, ◌≤◌, ◌∷◌, [], length, map};
ghost use Rattle.sx_term.specs.Tree.{Tree};
ghost use Rattle.sx_term.specs.Term.{tree};
ghost use Rattle.sx_rules.specs.Rules.{Premise as Said, apart};
ghost use Rattle.sx_rules.specs.Views as view;
ghost use Rattle.sx_language.specs.RuleLine.{Says};
ghost use Rattle.sx_language.specs.Readers.{reader};

use crate::rule_reader::RuleReader;
use sx_rules::{Judgement, Premise};
use sx_term::Term;

/// The two terms are to be apart.
fn apart(kids: Vec<Term>) -> Premise
    requires { length kids.items ≡ 2 }
    ensures { (t : Tree) × (u : Tree) × (map tree kids.items ≡ t ∷ u ∷ []) ×
        (view.premise result ≡ apart t u) }
{
    let mut kids = kids;
    match kids.pop() {
        Some(right) => match kids.pop() {
            Some(left) => Premise::Apart(left, right),
            None => unreachable!(),
        },
        None => unreachable!(),
    }
}

/// The premise that the term of a line says.
pub(crate) fn premise_of(by: &RuleReader, term: Term) -> Premise
    requires room { length (reader by.now).forms + 3
        ≤ length (reader by.now).parts.productions }
    requires says { (q : Said) × Says (reader by.now) (tree term) q }
    ensures { Says (reader by.now) (tree term) (view.premise result) }
{
    match term {
        Term::Node { label, kids } => {
            let forms = by.forms.len();
            let first = by.grammar.productions().len() - (forms + 3);
            let number = label as usize - first;
            if number < forms {
                return Premise::Holds(Judgement {
                    form: number as u32,
                    places: kids,
                });
            }
            apart(kids)
        }
        _ => unreachable!(),
    }
}
