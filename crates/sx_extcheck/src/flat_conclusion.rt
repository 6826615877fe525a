//! The flat conclusion of a rule, as a goal.

ghost use Rattle.std.specs.Prelude.{◌≡◌, IfOk, map, option_map, unwrap_or, if◌then◌else◌};
ghost use Rattle.std.specs.List.{AllByRecursion};
ghost use Rattle.sx_term.specs.Term.{tree};
ghost use Rattle.sx_rules.specs.Modes as known;
ghost use Rattle.sx_rules.specs.Sets.{forms_in};
ghost use Rattle.sx_rules.specs.Views.{goal, judgement, modes_of, subjects_in};
ghost use Rattle.sx_plain.specs.Plain.{image};
ghost use Rattle.sx_plain.specs.Views.{table_of};
ghost use Rattle.sx_rewrite.specs.ExtensionView.{ext_rule};
ghost use Rattle.sx_rewrite.specs.PlainRules.{HasImage};
ghost use Rattle.sx_rewrite.specs.Sound as flat;
ghost use Rattle.sx_extcheck.specs.FlatTerms.{listed_term};

use crate::flat_goal::FlatGoal;
use std::alloc::Global;
use sx_plain::PlainTable;
use sx_rewrite::{ExtRule, plain_term};
use sx_rules::{Goal, RuleSet, is_output, is_subject};
use sx_term::{NoMemory, Term};

/// The goal and the outputs of the flat conclusion: its places have plain images, and the subject
/// gives way to the plain image of the body. The one refusal is out of memory.
pub(crate) fn flat_goal(
    alloc: Global,
    set: &RuleSet,
    plain: &PlainTable,
    ext: &ExtRule,
) -> Result<FlatGoal, NoMemory>
    requires places { AllByRecursion (HasImage (table_of plain.now))
        (judgement ext.now.rule.conclusion).places }
    requires body { AllByRecursion (HasImage (table_of plain.now))
        (listed_term (option_map tree ext.now.body)) }
    ensures goal { IfOk result (λ g. goal g.goal ≡ known.goal_of (modes_of (forms_in set.now))
        (flat.flat_goal (table_of plain.now) (subjects_in (forms_in set.now)) (ext_rule ext.now))) }
    ensures wanted { IfOk result
        (λ g. map tree g.wanted.items ≡ known.outputs_of (modes_of (forms_in set.now))
        (flat.flat_goal (table_of plain.now) (subjects_in (forms_in set.now)) (ext_rule ext.now))) }
{
    let conclusion = &ext.rule.conclusion;
    let places = set.places_of(conclusion.form);
    let mut inputs = Vec::new(alloc);
    let mut wanted = Vec::new(alloc);
    for i in 0..conclusion.places.len() {
        let term = flat_term(
            alloc,
            plain,
            is_subject(places, i),
            &conclusion.places[i],
            &ext.body,
        )?;
        if is_output(places, i) {
            wanted.push(term)?;
        } else {
            inputs.push(term)?;
        }
    }
    Ok(FlatGoal {
        goal: Goal {
            form: conclusion.form,
            inputs,
        },
        wanted,
    })
}

/// The plain image of the term; a subject gives way to the plain image of the body, where there
/// is one, or stays as it is. The one refusal is out of memory.
fn flat_term(
    alloc: Global,
    plain: &PlainTable,
    subject: bool,
    term: &Term,
    body: &Option<Term>,
) -> Result<Term, NoMemory>
    requires term { HasImage (table_of plain.now) (tree term.now) }
    requires body { AllByRecursion (HasImage (table_of plain.now))
        (listed_term (option_map tree body.now)) }
    ensures { IfOk result (λ t. tree t ≡ (if subject then
        unwrap_or (option_map (image (table_of plain.now)) (option_map tree body.now))
        (tree term.now)
        else image (table_of plain.now) (tree term.now))) }
{
    if !subject {
        return plain_term(alloc, plain, term);
    }
    match body {
        Some(body) => plain_term(alloc, plain, body),
        None => term.copy(alloc),
    }
}
