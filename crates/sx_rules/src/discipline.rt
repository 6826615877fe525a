//! The subject discipline.

ghost use Rattle.std.specs.Prelude.{◌≡◌, ◌+◌, IfOk, map, Option, Some};
ghost use Rattle.std.specs.Prelude.{None, []};
ghost use Rattle.std.specs.List.{list_all};
ghost use Rattle.sx_term.specs.Term.{tree};
ghost use Rattle.sx_rules.specs.Deep.{RuleIsShallow};
ghost use Rattle.sx_rules.specs.Views.{form, forms, judgement, premise, rule};
ghost use Rattle.sx_rules.specs.Chosen.{chosen};
ghost use Rattle.sx_rules.specs.Subjects as spec;

use crate::chosen::{Part, is_part, place_at, places_of};
use crate::modes::part_variables;
use crate::rule::{Form, Place, Premise, Rule};
use crate::subject::Subject;
use std::alloc::Global;
use sx_term::{NoMemory, Sort, Term, sort_at};

fn bare_or_other(term: &Term) -> Subject
    ensures { result ≡ spec.bare_or_other (tree term.now) }
{
    match term {
        Term::Node { label: _, kids: _ } => Subject::Other,
        Term::Lex { kind: _, text: _ } => Subject::Other,
        Term::Var(variable) => Subject::Bare(*variable),
    }
}

/// What is found with this term, where it stands at a subject place.
fn with_one(found: Subject, stands: bool, term: &Term) -> Subject
    ensures { result ≡ spec.with_one found stands (tree term.now) }
{
    if !stands {
        return found;
    }
    match found {
        Subject::Absent => bare_or_other(term),
        Subject::Bare(_) => Subject::Other,
        Subject::Other => Subject::Other,
    }
}

/// What stands at the subject places.
fn subject(places: &[Place], terms: &[Term]) -> Subject
    ensures { result ≡ spec.subject_kind (chosen Part.Subjects places.now (map tree terms.now)) }
{
    let mut found = Subject::Absent;
    for i in 0..terms.len() {
        found = with_one(
            found,
            is_part(Part::Subjects, place_at(places, i)),
            &terms[i],
        );
    }
    found
}

/// The subject of a premise.
fn premise_subject(known: &[Form], it: &Premise) -> Subject
    ensures { result ≡ spec.premise_subject (forms known.now) (premise it.now) }
{
    match it {
        Premise::Holds(judgement) => subject(places_of(known, judgement.form), &judgement.places),
        Premise::Apart(_, _) => Subject::Absent,
    }
}

fn is_other(it: Subject) -> bool
    ensures { result ≡ spec.is_other it }
{
    match it {
        Subject::Absent => false,
        Subject::Bare(_) => false,
        Subject::Other => true,
    }
}

/// How often the number stands in the list.
fn count_in(number: u32, all: &[u32]) -> usize
    ensures { result ≡ spec.count_in number all.now }
{
    let mut count = 0;
    for i in 0..all.len() {
        let one = if number == all[i] { 1 } else { 0 };
        count += one;
    }
    count
}

/// How often each of the first `many` variables stands in the list.
fn tally(alloc: Global, many: usize, all: &[u32]) -> Result<Vec<usize>, NoMemory>
    ensures { IfOk result (λ x. spec.AreCounts x.items all.now) }
{
    let mut counts = Vec::new(alloc);
    counts.resize(many, 0usize)?;
    for i in 0..all.len() {
        let variable = all[i] as usize;
        if variable >= counts.len() {
            continue;
        }
        counts[variable] += 1;
    }
    Ok(counts)
}

/// How often the variable stands among the uses, of which the first variables are counted.
fn count_of(counts: &[usize], uses: &[u32], variable: u32) -> usize
    requires { spec.AreCounts counts.now uses.now }
    ensures { result ≡ spec.count_in variable uses.now }
{
    let i = variable as usize;
    if i < counts.len() {
        return counts[i];
    }
    count_in(variable, uses)
}

fn is_not_once(counts: &[usize], uses: &[u32], it: Subject) -> bool
    requires { spec.AreCounts counts.now uses.now }
    ensures { result ≡ spec.is_not_once uses.now it }
{
    match it {
        Subject::Absent => false,
        Subject::Bare(variable) => count_of(counts, uses, variable) != 1,
        Subject::Other => false,
    }
}

fn is_bare(variable: u32, it: Subject) -> bool
    ensures { result ≡ spec.is_bare variable it }
{
    match it {
        Subject::Absent => false,
        Subject::Bare(other) => variable == other,
        Subject::Other => false,
    }
}

/// Whether the variable is one of the subjects.
fn has_bare(variable: u32, subjects: &[Subject]) -> bool
    ensures { result ≡ spec.has_bare variable subjects.now }
{
    for i in 0..subjects.len() {
        if is_bare(variable, subjects[i]) {
            return true;
        }
    }
    false
}

fn is_again(before: &[Subject], it: Subject) -> bool
    ensures { result ≡ spec.is_again before.now it }
{
    match it {
        Subject::Absent => false,
        Subject::Bare(variable) => has_bare(variable, before),
        Subject::Other => false,
    }
}

/// The number of the first subject that is no bare variable.
fn first_other(subjects: &[Subject]) -> Option<usize>
    ensures { result ≡ spec.first_at spec.is_other 1 subjects.now }
{
    for i in 0..subjects.len() {
        if is_other(subjects[i]) {
            return Some(i + 1);
        }
    }
    None
}

/// The number of the first subject that does not stand once among the uses.
fn first_not_once(counts: &[usize], uses: &[u32], subjects: &[Subject]) -> Option<usize>
    requires { spec.AreCounts counts.now uses.now }
    ensures { result ≡ spec.first_at (spec.is_not_once uses.now) 1 subjects.now }
{
    for i in 0..subjects.len() {
        if is_not_once(counts, uses, subjects[i]) {
            return Some(i + 1);
        }
    }
    None
}

/// The number of the first subject that is one before.
fn first_again(subjects: &[Subject]) -> Option<usize>
    ensures { result ≡ spec.first_again 1 [] subjects.now }
{
    for i in 0..subjects.len() {
        if is_again(&subjects[..i], subjects[i]) {
            return Some(i + 1);
        }
    }
    None
}

fn is_typed(sort: Option<Sort>) -> bool
    ensures { result ≡ spec.is_typed_sort sort }
{
    match sort {
        None => false,
        Some(sort) => match sort {
            Sort::Lex(_) => false,
            Sort::Plain(_) => false,
            Sort::Typed(_) => true,
        },
    }
}

/// Whether the variable has no typed sort, or is a subject.
fn is_settled(sorts: &[Sort], subjects: &[Subject], variable: u32) -> bool
    ensures { result ≡ spec.is_settled sorts.now subjects.now variable }
{
    if is_typed(sort_at(sorts, variable)) {
        return has_bare(variable, subjects);
    }
    true
}

fn are_settled(sorts: &[Sort], subjects: &[Subject], uses: &[u32]) -> bool
    ensures { result ≡ list_all (spec.is_settled sorts.now subjects.now) uses.now }
{
    for i in 0..uses.len() {
        if !is_settled(sorts, subjects, uses[i]) {
            return false;
        }
    }
    true
}

/// The first part that is broken, and the number of the first premise that breaks it, or 0.
fn broken(
    counts: &[usize],
    sorts: &[Sort],
    subjects: &[Subject],
    uses: &[u32],
) -> Option<(u8, usize)>
    requires { spec.AreCounts counts.now uses.now }
    ensures { result ≡ spec.broken sorts.now subjects.now uses.now }
{
    if let Some(number) = first_other(subjects) {
        return Some((1, number));
    }
    if let Some(number) = first_not_once(counts, uses, subjects) {
        return Some((2, number));
    }
    if let Some(number) = first_again(subjects) {
        return Some((3, number));
    }
    if are_settled(sorts, subjects, uses) {
        return None;
    }
    Some((4, 0))
}

/// The subjects of the premises.
fn premise_subjects(
    alloc: Global,
    known: &[Form],
    premises: &[Premise],
) -> Result<Vec<Subject>, NoMemory>
    ensures { IfOk result (λ x. x.items
        ≡ map (spec.premise_subject (forms known.now)) (map premise premises.now)) }
{
    let mut subjects = Vec::new(alloc);
    for i in 0..premises.len() {
        subjects.push(premise_subject(known, &premises[i]))?;
    }
    Ok(subjects)
}

/// The first part of the discipline that the rule breaks.
pub fn broken_part(
    alloc: Global,
    known: &[Form],
    it: &Rule,
) -> Result<Option<(u8, usize)>, NoMemory>
    requires { RuleIsShallow (rule it.now) }
    ensures { IfOk result (λ x. x ≡ spec.broken_part (forms known.now) (rule it.now)) }
{
    let uses = part_variables(alloc, Part::Subjects, known, &it.conclusion)?;
    let counts = tally(alloc, it.vars.len(), &uses)?;
    let subjects = premise_subjects(alloc, known, &it.premises)?;
    Ok(broken(&counts, &it.vars, &subjects, &uses))
}
