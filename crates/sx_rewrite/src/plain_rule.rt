//! Plain rules: rules with plain images in all their places.

ghost use Rattle.std.specs.Prelude.{◌≡◌, IfOk, map};
ghost use Rattle.std.specs.List.{AllByRecursion};
ghost use Rattle.sx_term.specs.Term.{tree};
ghost use Rattle.sx_rules.specs.Views.{judgement, premise, rule, named};
ghost use Rattle.sx_plain.specs.Plain.{image};
ghost use Rattle.sx_plain.specs.Views.{table_of};
ghost use Rattle.sx_rewrite.specs.PlainRules.{image_judgement, image_premise, plain_named};
ghost use Rattle.sx_rewrite.specs.PlainRules.{HasImage, PremiseHasImage, RuleHasImage};

use crate::ext_rule::ExtRule;
use std::alloc::Global;
use sx_plain::{PlainTable, lower};
use sx_rules::{Judgement, Premise, Rule};
use sx_term::{NoMemory, Term, TermError};

/// The plain rules of extension rules, in order. The one refusal is out of memory.
pub(crate) fn plain_rules(
    alloc: Global,
    table: &PlainTable,
    rules: &[ExtRule],
) -> Result<Vec<Rule>, NoMemory>
    requires { AllByRecursion (λ e. RuleHasImage (table_of table.now) (rule e.rule)) rules.now }
    ensures { IfOk result (λ x. map named x.items
        ≡ map (λ e. plain_named (table_of table.now) (named e.rule)) rules.now) }
{
    let mut plain = Vec::with_capacity(alloc, rules.len())?;
    for ext in rules {
        plain.push(plain_rule(alloc, table, &ext.rule)?)?;
    }
    Ok(plain)
}

/// The plain rule.
fn plain_rule(alloc: Global, table: &PlainTable, from: &Rule) -> Result<Rule, NoMemory>
    requires { RuleHasImage (table_of table.now) (rule from.now) }
    ensures { IfOk result (λ x. named x ≡ plain_named (table_of table.now) (named from.now)) }
{
    Ok(Rule {
        name: from.name.copy(alloc)?,
        vars: Vec::from_slice(alloc, &from.vars)?,
        premises: plain_premises(alloc, table, &from.premises)?,
        conclusion: plain_judgement(alloc, table, &from.conclusion)?,
    })
}

/// The premises with plain images.
fn plain_premises(
    alloc: Global,
    table: &PlainTable,
    premises: &[Premise],
) -> Result<Vec<Premise>, NoMemory>
    requires { AllByRecursion (PremiseHasImage (table_of table.now)) (map premise premises.now) }
    ensures { IfOk result (λ x. map premise x.items
        ≡ map (image_premise (table_of table.now)) (map premise premises.now)) }
{
    let mut plain = Vec::with_capacity(alloc, premises.len())?;
    for premise in premises {
        plain.push(plain_premise(alloc, table, premise)?)?;
    }
    Ok(plain)
}

/// The premise with plain images.
fn plain_premise(alloc: Global, table: &PlainTable, from: &Premise) -> Result<Premise, NoMemory>
    requires { PremiseHasImage (table_of table.now) (premise from.now) }
    ensures { IfOk result (λ x. premise x
        ≡ image_premise (table_of table.now) (premise from.now)) }
{
    match from {
        Premise::Holds(it) => Ok(Premise::Holds(plain_judgement(alloc, table, it)?)),
        Premise::Apart(left, right) => Ok(Premise::Apart(
            plain_term(alloc, table, left)?,
            plain_term(alloc, table, right)?,
        )),
    }
}

/// The judgement with plain images.
pub fn plain_judgement(
    alloc: Global,
    table: &PlainTable,
    from: &Judgement,
) -> Result<Judgement, NoMemory>
    requires { AllByRecursion (HasImage (table_of table.now)) (map tree from.now.places.items) }
    ensures { IfOk result (λ x. judgement x
        ≡ image_judgement (table_of table.now) (judgement from.now)) }
{
    Ok(Judgement {
        form: from.form,
        places: plain_terms(alloc, table, &from.places)?,
    })
}

/// The plain images of the terms.
fn plain_terms(alloc: Global, table: &PlainTable, terms: &[Term]) -> Result<Vec<Term>, NoMemory>
    requires { AllByRecursion (HasImage (table_of table.now)) (map tree terms.now) }
    ensures { IfOk result (λ x. map tree x.items
        ≡ map (image (table_of table.now)) (map tree terms.now)) }
{
    let mut plain = Vec::with_capacity(alloc, terms.len())?;
    for term in terms {
        plain.push(plain_term(alloc, table, term)?)?;
    }
    Ok(plain)
}

/// The plain image of the term, which is within the limits.
pub fn plain_term(alloc: Global, table: &PlainTable, term: &Term) -> Result<Term, NoMemory>
    requires { HasImage (table_of table.now) (tree term.now) }
    ensures { IfOk result (λ t. tree t ≡ image (table_of table.now) (tree term.now)) }
{
    match lower(alloc, table, term) {
        Ok(made) => Ok(made),
        Err(TermError::Memory) => Err(NoMemory::Memory),
        Err(TermError::TooDeep(_)) => unreachable!(),
        Err(TermError::TooBig(_)) => unreachable!(),
    }
}
