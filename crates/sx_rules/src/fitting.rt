//! Well sorted terms, judgements and rules.

ghost use Rattle.std.specs.Prelude.{◌≡◌, ◌≤◌, ◌↔◌, IsTrue, map, slice_get, MatchOption};
ghost use Rattle.std.specs.Prelude.{Some, None};
ghost use Rattle.sx_term.specs.Tree.{depth_of};
ghost use Rattle.sx_term.specs.Term.{tree};
ghost use Rattle.sx_term.specs.Sorts.{HasSort, HaveSorts};
ghost use Rattle.sx_rules.specs.Deep.{AreShallow, PremiseIsShallow, PremisesAreShallow};
ghost use Rattle.sx_rules.specs.Deep.{RuleIsShallow};
ghost use Rattle.sx_rules.specs.Fits.{JudgementFits, AreOfOneKind, PremiseFits, PremisesFit};
ghost use Rattle.sx_rules.specs.Fits.{RuleFits};
ghost use Rattle.sx_term.specs.Shapes.{shapes};
ghost use Rattle.sx_rules.specs.Views.{form, forms, judgement, premise, rule};
ghost use Rattle.sx_term.specs.Limits.{most_depth};

use crate::rule::{Form, Judgement, Place, Premise, Rule};
use sx_term::{LexKind, Shapes, Sort, Term};

/// Whether the terms have the sorts of the places, each its own.
fn row_fits(all: &Shapes, terms: &[Term], vars: &[Sort], places: &[Place]) -> bool
    requires { AreShallow (map tree terms.now) }
    ensures { IsTrue result ↔ HaveSorts (shapes all.now) vars.now (map tree terms.now)
        (map (λ p. p.sort) places.now) }
{
    if terms.len() != places.len() {
        return false;
    }
    for i in 0..terms.len() {
        if !all.fits(&terms[i], vars, places[i].sort) {
            return false;
        }
    }
    true
}

/// The form with this number.
fn form_at(all: &[Form], number: u32) -> Option<&Form>
    ensures { MatchOption result (slice_get (forms all.now) number ≡ None)
        (λ f. slice_get (forms all.now) number ≡ Some (form f.now)) }
{
    let i = number as usize;
    if i < all.len() {
        return Some(&all[i]);
    }
    None
}

/// Whether the judgement has a form, and for each place a term of its sort.
pub fn judgement_fits(all: &Shapes, known: &[Form], vars: &[Sort], it: &Judgement) -> bool
    requires { AreShallow (map tree it.now.places.items) }
    ensures { IsTrue result ↔ JudgementFits (shapes all.now) (forms known.now) vars.now
        (judgement it.now) }
{
    match form_at(known, it.form) {
        Some(form) => row_fits(all, &it.places, vars, &form.places),
        None => false,
    }
}

/// Whether both terms have the lexical sort.
fn both_fit(all: &Shapes, vars: &[Sort], left: &Term, right: &Term, kind: LexKind) -> bool
    requires left { depth_of (tree left.now) ≤ most_depth }
    requires right { depth_of (tree right.now) ≤ most_depth }
    ensures { IsTrue result ↔ (HasSort (shapes all.now) vars.now (tree left.now) (Sort.Lex kind) ×
        HasSort (shapes all.now) vars.now (tree right.now) (Sort.Lex kind)) }
{
    if !all.fits(left, vars, Sort::Lex(kind)) {
        return false;
    }
    all.fits(right, vars, Sort::Lex(kind))
}

/// Whether the terms are of one lexical sort.
fn are_of_one_kind(all: &Shapes, vars: &[Sort], left: &Term, right: &Term) -> bool
    requires left { depth_of (tree left.now) ≤ most_depth }
    requires right { depth_of (tree right.now) ≤ most_depth }
    ensures { IsTrue result ↔ AreOfOneKind (shapes all.now) vars.now (tree left.now)
        (tree right.now) }
{
    if both_fit(all, vars, left, right, LexKind::Id) {
        return true;
    }
    if both_fit(all, vars, left, right, LexKind::Num) {
        return true;
    }
    both_fit(all, vars, left, right, LexKind::Str)
}

/// Whether the premise is well sorted.
fn premise_fits(all: &Shapes, known: &[Form], vars: &[Sort], it: &Premise) -> bool
    requires { PremiseIsShallow (premise it.now) }
    ensures { IsTrue result ↔ PremiseFits (shapes all.now) (forms known.now) vars.now
        (premise it.now) }
{
    match it {
        Premise::Holds(judgement) => judgement_fits(all, known, vars, judgement),
        Premise::Apart(left, right) => are_of_one_kind(all, vars, left, right),
    }
}

/// Whether each premise is well sorted.
fn premises_fit(all: &Shapes, known: &[Form], vars: &[Sort], premises: &[Premise]) -> bool
    requires { PremisesAreShallow (map premise premises.now) }
    ensures { IsTrue result ↔ PremisesFit (shapes all.now) (forms known.now) vars.now
        (map premise premises.now) }
{
    for i in 0..premises.len() {
        if !premise_fits(all, known, vars, &premises[i]) {
            return false;
        }
    }
    true
}

/// Whether the rule is well sorted.
pub fn rule_fits(all: &Shapes, known: &[Form], it: &Rule) -> bool
    requires { RuleIsShallow (rule it.now) }
    ensures { IsTrue result ↔ RuleFits (shapes all.now) (forms known.now) (rule it.now) }
{
    if !judgement_fits(all, known, &it.vars, &it.conclusion) {
        return false;
    }
    premises_fit(all, known, &it.vars, &it.premises)
}
