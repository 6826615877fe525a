//! Derivations that are expanded as lists and rewritten in boxes, by a language with an extension.

ghost use Rattle.std.specs.Prelude.{◌≡◌, ◌≤◌, ◌<◌, ℕ, List, [], IfOk, IfSome, length, map};
ghost use Rattle.std.specs.List.{AllByRecursion};
ghost use Rattle.sx_term.specs.Term.{tree};
ghost use Rattle.sx_term.specs.Tree.{Tree, depth_of};
ghost use Rattle.sx_rules.specs.Deep.{AreShallow};
ghost use Rattle.sx_rules.specs.Derivations.{height_of, ShallowJudgements};
ghost use Rattle.sx_rules.specs.EntryView.{entries};
ghost use Rattle.sx_rules.specs.ProofView as view;
ghost use Rattle.sx_rules.specs.Sets.{forms_in, shapes_in};
ghost use Rattle.sx_rules.specs.Sorts.{GoalIsSorted};
ghost use Rattle.sx_rules.specs.Views.{goal as goal_of, hypotheses};
ghost use Rattle.sx_notation.specs.Language.{IsLanguage};
ghost use Rattle.sx_rewrite.specs.AcceptedView.{accepted, signature};
ghost use Rattle.sx_expand.specs.Expansions.{HasOneSubject, IsListedAnswer};
ghost use Rattle.sx_uses.specs.ExtensionFile.{extension_of, IsHeaderStated};
ghost use Rattle.sx_accepting.specs.ReadLanguage.{HasText};

use crate::asserts::assert_same;
use crate::goals::{inputs_fit, one_goal, subject_count, term};
use crate::opened::tell_open;
use crate::samples::{SUMS, THRICE, TWICE};
use crate::uses_read::put;
use std::alloc::Global;
use std::marker::Brand;
use std::sync::ledger::{Blank, Ledger};
use sx_accepting::{LanguageFile, extend_language, read_language_file};
use sx_derive::{derive, derive_list};
use sx_expand::{Expanded, expand};
use sx_extcheck::Budgets;
use sx_notation::Language;
use sx_outside::MemShelf;
use sx_rewrite::{Accepted, Lowered, RewriteError, rewrite};
use sx_rules::{Entry, Goal, Hyps, Proof, preorder};
use sx_steps::StepError;
use sx_term::{Steps, Term, Text};
use sx_uses::{ExtensionFile, read_extension_file};

/// How many tries and nodes the search for each rule and for a goal may take.
pub(crate) const MOST: u64 = 1000;

/// What is asked: a goal, what it is derived from by the plain rules, where it is not derived by
/// the extended ones, the subject that is wanted of what its derivation is lowered to, and how many
/// nodes that may have.
#[derive(Clone, Copy)]
pub(crate) struct Asked<'a> {
    pub(crate) goal: &'a Goal,
    pub(crate) given: Option<&'a Hyps>,
    pub(crate) lowered: &'a Term,
    pub(crate) nodes: u64,
}

/// What the two answers tell.
#[derive(Clone, Copy, PartialEq)]
pub(crate) enum Told {
    /// The same derivation and the same judgement, with the wanted subject: the numbers of the
    /// rules of its entries as the digits of a number, and how many nodes are copied.
    Alike(u64, u64),
    /// More nodes than so many are needed.
    Spent(u64),
    /// The two answers differ, or tell something else.
    Other,
    /// There is no such goal, or no derivation of it is found.
    Unasked,
}

/// The numbers of the rules as the digits of a number.
fn digits(list: &[Entry]) -> u64 {
    let mut number: u64 = 0;
    for entry in list {
        let digit = match entry {
            Entry::Rule(rule) => u64::from(*rule),
            Entry::Given(_) => 9,
        };
        number = number.saturating_mul(10).saturating_add(digit);
    }
    number
}

/// Whether the terms are equal.
pub(crate) fn same_terms(some: &[Term], others: &[Term]) -> bool
    requires some { AreShallow (map tree some.now) }
    requires others { AreShallow (map tree others.now) }
{
    if some.len() != others.len() {
        return false;
    }
    for i in 0..some.len() {
        if !some[i].same(&others[i]) {
            return false;
        }
    }
    true
}

/// Whether the list is that of the derivation.
fn is_order(alloc: Global, list: &[Entry], proof: &Proof) -> bool
    requires { height_of (view.proof proof.now) ≤ 3000 }
{
    match preorder(alloc, proof) {
        Ok(order) => list == order.as_slice(),
        Err(_) => false,
    }
}

/// Whether the term stands at the place after the first.
fn is_second(terms: &[Term], term: &Term) -> bool
    requires terms { AreShallow (map tree terms.now) }
    requires term { depth_of (tree term.now) ≤ 1000 }
{
    match terms {
        [_, second, ..] => second.same(term),
        _ => false,
    }
}

/// What the list and the derivation in boxes tell.
pub(crate) fn both(alloc: Global, one: &Expanded, other: &Lowered, lowered: &Term) -> Told
    requires one { AreShallow (map tree one.now.judgement.places.items) }
    requires other { AreShallow (map tree other.now.judgement.places.items) }
    requires height { height_of (view.proof other.now.proof.value) ≤ 3000 }
    requires lowered { depth_of (tree lowered.now) ≤ 1000 }
{
    let same = one.copied == other.copied
        && one.judgement.form == other.judgement.form
        && same_terms(&one.judgement.places, &other.judgement.places)
        && is_order(alloc, &one.entries, &other.proof)
        && is_second(&one.judgement.places, lowered);
    if same {
        return Told::Alike(digits(&one.entries), one.copied);
    }
    Told::Other
}

/// What the two answers tell of the derivation with this list.
fn compare(alloc: Global, set: &Accepted, asked: Asked, list: &[Entry], proof: &Proof) -> Told
    requires shallow { AreShallow (goal_of asked.goal.now).terms }
    requires one { HasOneSubject (forms_in set.now.base) asked.goal.now.form }
    requires sorted { GoalIsSorted (shapes_in set.now.rules) (signature set.now).forms
        (signature set.now).modes [] (goal_of asked.goal.now) }
    requires lowered { depth_of (tree asked.lowered.now) ≤ 1000 }
    requires listed { (outs : List Tree) × IsListedAnswer (signature set.now).modes
        (accepted set.now) (goal_of asked.goal.now) (entries list.now)
        (view.proof proof.now, outs) }
{
    set.facts();
    let expanded = expand(alloc, set, asked.goal, list, asked.nodes);
    let rewritten = rewrite(alloc, set, proof, asked.nodes);
    let told = match &expanded {
        Ok(one) => match &rewritten {
            Ok(other) => both(alloc, one, other, asked.lowered),
            Err(_) => Told::Other,
        },
        Err(RewriteError::RewriteSpent(nodes)) => match &rewritten {
            Err(RewriteError::RewriteSpent(others)) if *nodes == *others => Told::Spent(*nodes),
            _ => Told::Other,
        },
        Err(_) => Told::Other,
    };
    drop(expanded);
    drop(rewritten);
    told
}

/// No hypotheses.
fn no_hypotheses(alloc: Global) -> Hyps
    ensures holds { result.holds.items ≡ [] }
    ensures apart { result.apart.items ≡ [] }
{
    Hyps {
        holds: Vec::new(alloc),
        apart: Vec::new(alloc),
    }
}

/// What the two answers tell of the derivation that is found.
fn tell<L: Ledger>(alloc: Global, set: &Accepted, asked: Asked, steps: &mut Steps<L>) -> Told
    requires shallow { AreShallow (goal_of asked.goal.now).terms }
    requires one { HasOneSubject (forms_in set.now.base) asked.goal.now.form }
    requires sorted { GoalIsSorted (shapes_in set.now.rules) (signature set.now).forms
        (signature set.now).modes [] (goal_of asked.goal.now) }
    requires lowered { depth_of (tree asked.lowered.now) ≤ 1000 }
{
    set.facts();
    let none = no_hypotheses(alloc);
    let rules = set.rules();
    let listed = derive_list(alloc, rules, &none, asked.goal, None, MOST, steps);
    let derived = derive(alloc, rules, &none, asked.goal, None, MOST, steps);
    drop(none);
    let told = match &listed {
        Ok(listed) => match &derived {
            Ok(derived) => compare(alloc, set, asked, &listed.entries, &derived.proof),
            Err(_) => Told::Unasked,
        },
        Err(_) => Told::Unasked,
    };
    drop(listed);
    drop(derived);
    told
}

/// What the two answers tell, where the goal is well sorted.
fn tell_sorted<L: Ledger>(alloc: Global, set: &Accepted, asked: Asked, steps: &mut Steps<L>) -> Told
    requires shallow { AreShallow (goal_of asked.goal.now).terms }
    requires given { IfSome asked.given (λ h. ShallowJudgements (hypotheses h.now).judgements) }
    requires lowered { depth_of (tree asked.lowered.now) ≤ 1000 }
{
    set.facts();
    let places = set.base_rules().places_of(asked.goal.form);
    if subject_count(places) > 1 {
        return Told::Unasked;
    }
    if !inputs_fit(set.rules().shapes(), places, &asked.goal.inputs) {
        return Told::Unasked;
    }
    match asked.given {
        Some(given) => tell_open(alloc, set, asked, given, steps),
        None => tell(alloc, set, asked, steps),
    }
}

/// What the two answers tell by the language with the extensions.
fn tell_extended<L: Ledger>(
    alloc: Global,
    language: &Language,
    files: &[ExtensionFile],
    asked: Asked,
    blank: Blank,
) -> Told
    requires name { blank.name ≡ L.name }
    requires parts { blank.parts ≡ L.parts }
    requires some { 0 < blank.parts }
    requires language { IsLanguage language.now }
    requires text { (name : List ℕ) × HasText name language.now }
    requires files { AllByRecursion IsHeaderStated (map extension_of files.now) }
    requires few { length files.now ≤ 256 }
    requires shallow { AreShallow (goal_of asked.goal.now).terms }
    requires given { IfSome asked.given (λ h. ShallowJudgements (hypotheses h.now).judgements) }
    requires lowered { depth_of (tree asked.lowered.now) ≤ 1000 }
{
    let mut steps = Steps::<L>::new(blank);
    let budgets = Budgets {
        tries: MOST,
        nodes: MOST,
    };
    match extend_language(alloc, language, files, budgets, &mut steps) {
        Ok(extended) => {
            let told = tell_sorted(alloc, extended.accepted(), asked, &mut steps);
            drop(extended);
            told
        }
        Err(_) => Told::Unasked,
    }
}

/// The language in its file.
fn sums(alloc: Global, shelf: &mut MemShelf) -> Result<LanguageFile, StepError>
    ensures fit { IfOk result (λ l. IsLanguage l.language) }
    ensures text { IfOk result (λ l. (name : List ℕ) × HasText name l.language) }
{
    let name = Text::of_str(alloc, "Sums")?;
    read_language_file(alloc, &name, shelf)
}

/// The extension in its file.
fn extension(alloc: Global, name: &str, shelf: &mut MemShelf) -> Option<ExtensionFile>
    ensures { IfSome result (λ x. IsHeaderStated (extension_of x)) }
{
    let name = Text::of_str(alloc, name).ok()?;
    match read_extension_file(alloc, &name, shelf) {
        Ok(file) => Some(file),
        Err(_) => None,
    }
}

/// What the two answers tell by the language with the extensions in their files.
fn tell_by(alloc: Global, language: &Language, asked: Asked, shelf: &mut MemShelf) -> Option<Told>
    requires language { IsLanguage language.now }
    requires text { (name : List ℕ) × HasText name language.now }
    requires shallow { AreShallow (goal_of asked.goal.now).terms }
    requires given { IfSome asked.given (λ h. ShallowJudgements (hypotheses h.now).judgements) }
    requires lowered { depth_of (tree asked.lowered.now) ≤ 1000 }
{
    let twice = extension(alloc, "Twice", shelf)?;
    match extension(alloc, "Thrice", shelf) {
        Some(thrice) => {
            let files = [twice, thrice];
            let told = tell_extended::<Brand>(alloc, language, &files, asked, Blank::new(1));
            drop(files);
            Some(told)
        }
        None => {
            drop(twice);
            None
        }
    }
}

/// What the two answers tell by the files on the shelf.
fn tell_on(alloc: Global, asked: Asked, shelf: &mut MemShelf) -> Option<Told>
    requires shallow { AreShallow (goal_of asked.goal.now).terms }
    requires given { IfSome asked.given (λ h. ShallowJudgements (hypotheses h.now).judgements) }
    requires lowered { depth_of (tree asked.lowered.now) ≤ 1000 }
{
    match sums(alloc, shelf) {
        Ok(file) => {
            let told = tell_by(alloc, &file.language, asked, shelf);
            drop(file);
            told
        }
        Err(_) => None,
    }
}

/// What the two answers tell by the language of sums with its extensions.
pub(crate) fn tell_asked(alloc: Global, asked: Asked) -> Option<Told>
    requires shallow { AreShallow (goal_of asked.goal.now).terms }
    requires given { IfSome asked.given (λ h. ShallowJudgements (hypotheses h.now).judgements) }
    requires lowered { depth_of (tree asked.lowered.now) ≤ 1000 }
{
    let mut shelf = MemShelf::new(alloc);
    let there = put(alloc, "Sums.lang", SUMS, &mut shelf)
        && put(alloc, "Twice.ext", TWICE, &mut shelf)
        && put(alloc, "Thrice.ext", THRICE, &mut shelf);
    let told = tell_on(alloc, asked, &mut shelf);
    drop(shelf);
    if there { told } else { None }
}

/// What the two answers tell of the subject's type, where the subject is lowered to this one.
fn told_of(alloc: Global, subject: &str, lowered: &str, nodes: u64) -> Option<Told> {
    let goal = one_goal(alloc, subject)?;
    let lowered = term(alloc, lowered)?;
    let asked = Asked {
        goal: &goal,
        given: None,
        lowered: &lowered,
        nodes,
    };
    tell_asked(alloc, asked)
}

/// The core text of a number under so many nodes of the extension, or of what these become.
fn nested(alloc: Global, times: u32, are_lowered: bool) -> Option<String> {
    let mut text = String::from_str(alloc, "(3 n1:7)").ok()?;
    for _ in 0..times {
        let next = if are_lowered {
            format!(in alloc; "(4 {text} {text})")
        } else {
            format!(in alloc; "(5 {text})")
        };
        drop(text);
        text = next.ok()?;
    }
    Some(text)
}

/// What the two answers tell of a number under so many nodes of the extension.
fn told_of_nested(alloc: Global, times: u32, nodes: u64) -> Option<Told> {
    let subject = nested(alloc, times, false)?;
    match nested(alloc, times, true) {
        Some(lowered) => {
            let told = told_of(alloc, subject.as_str(), lowered.as_str(), nodes);
            drop(lowered);
            drop(subject);
            told
        }
        None => {
            drop(subject);
            None
        }
    }
}

#[test]
fn a_list_is_expanded(rt: HostRuntime) {
    let alloc = rt.alloc();
    let subject = "(5 (5 (3 n1:7)))";
    let lowered = "(4 (4 (3 n1:7) (3 n1:7)) (4 (3 n1:7) (3 n1:7)))";
    let hold = [
        told_of_nested(alloc, 11, 4095) == Some(Told::Alike(u64::MAX, 4083)),
        told_of(alloc, subject, lowered, 7) == Some(Told::Alike(1_100_100, 4)),
        told_of(alloc, subject, lowered, 6) == Some(Told::Spent(6)),
        told_of(alloc, subject, subject, 7) == Some(Told::Other),
        told_of(alloc, "(3 n1:7)", "(3 n1:7)", 1) == Some(Told::Alike(0, 0)),
        told_of(alloc, "(5 (2))", "(2)", 9) == Some(Told::Unasked),
    ];
    assert_same(&rt, &hold, &[true; 6]);
}
