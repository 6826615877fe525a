//! Copies of forms and rules.

ghost use Rattle.std.specs.Prelude.{◌≡◌, IfOk, map};
ghost use Rattle.sx_term.specs.Term.{tree};
ghost use Rattle.sx_rules.specs.Deep.{AreShallow, PremiseIsShallow, PremisesAreShallow};
ghost use Rattle.sx_rules.specs.Deep.{RuleIsShallow, RulesAreShallow};
ghost use Rattle.sx_rules.specs.Views.{form, forms, judgement, premise, rule, named};

use crate::rule::{Form, Judgement, Premise, Rule};
use std::alloc::Global;
use sx_term::{NoMemory, Term};

impl Form {
    /// An equal form.
    pub fn copy(&self, alloc: Global) -> Result<Form, NoMemory>
        ensures { IfOk result (λ x. form x ≡ form self.now) }
    {
        Ok(Form {
            name: self.name.copy(alloc)?,
            places: Vec::from_slice(alloc, &self.places)?,
        })
    }
}

impl Judgement {
    /// An equal judgement.
    pub fn copy(&self, alloc: Global) -> Result<Judgement, NoMemory>
        requires { AreShallow (map tree self.now.places.items) }
        ensures { IfOk result (λ x. judgement x ≡ judgement self.now) }
    {
        Ok(Judgement {
            form: self.form,
            places: copy_terms(alloc, &self.places)?,
        })
    }
}

impl Premise {
    /// An equal premise.
    pub fn copy(&self, alloc: Global) -> Result<Premise, NoMemory>
        requires { PremiseIsShallow (premise self.now) }
        ensures { IfOk result (λ x. premise x ≡ premise self.now) }
    {
        match self {
            Premise::Holds(it) => Ok(Premise::Holds(it.copy(alloc)?)),
            Premise::Apart(left, right) => {
                Ok(Premise::Apart(left.copy(alloc)?, right.copy(alloc)?))
            }
        }
    }
}

impl Rule {
    /// An equal rule.
    pub fn copy(&self, alloc: Global) -> Result<Rule, NoMemory>
        requires { RuleIsShallow (rule self.now) }
        ensures { IfOk result (λ x. named x ≡ named self.now) }
    {
        Ok(Rule {
            name: self.name.copy(alloc)?,
            vars: Vec::from_slice(alloc, &self.vars)?,
            premises: copy_premises(alloc, &self.premises)?,
            conclusion: self.conclusion.copy(alloc)?,
        })
    }
}

/// Equal terms.
pub(crate) fn copy_terms(alloc: Global, terms: &[Term]) -> Result<Vec<Term>, NoMemory>
    requires { AreShallow (map tree terms.now) }
    ensures { IfOk result (λ x. map tree x.items ≡ map tree terms.now) }
{
    let mut copies = Vec::with_capacity(alloc, terms.len())?;
    for i in 0..terms.len() {
        copies.push(terms[i].copy(alloc)?)?;
    }
    Ok(copies)
}

/// Equal premises.
fn copy_premises(alloc: Global, premises: &[Premise]) -> Result<Vec<Premise>, NoMemory>
    requires { PremisesAreShallow (map premise premises.now) }
    ensures { IfOk result (λ x. map premise x.items ≡ map premise premises.now) }
{
    let mut copies = Vec::with_capacity(alloc, premises.len())?;
    for i in 0..premises.len() {
        copies.push(premises[i].copy(alloc)?)?;
    }
    Ok(copies)
}

/// Equal forms.
pub(crate) fn copy_forms(alloc: Global, all: &[Form]) -> Result<Vec<Form>, NoMemory>
    ensures { IfOk result (λ x. forms x.items ≡ forms all.now) }
{
    let mut copies = Vec::with_capacity(alloc, all.len())?;
    for i in 0..all.len() {
        copies.push(all[i].copy(alloc)?)?;
    }
    Ok(copies)
}

/// Equal rules.
pub(crate) fn copy_rules(alloc: Global, rules: &[Rule]) -> Result<Vec<Rule>, NoMemory>
    requires { RulesAreShallow (map rule rules.now) }
    ensures { IfOk result (λ x. map named x.items ≡ map named rules.now) }
{
    let mut copies = Vec::with_capacity(alloc, rules.len())?;
    for i in 0..rules.len() {
        copies.push(rules[i].copy(alloc)?)?;
    }
    Ok(copies)
}
