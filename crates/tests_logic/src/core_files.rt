//! Core files that are read, and what they state.

use crate::asserts::{assert_holds, assert_same};
use crate::samples::{LAMBDA, number_of, rules_of};
use std::alloc::Global;
use sx_core::{CoreFileError, CoreProblem, read_core_file};
use sx_rules::RuleError;

/// A look-up in an environment, with comments, an empty line and lines that end in two characters.
const LOOK_UP: &[u8] = b"// names and types\r
\r
sxcore 1\r
form typing in:Env sub:Exp out:Ty\r
form lookup in:Env in:id out:Ty\r
sort Exp typed\r
sort Ty plain\r
sort Env plain\r
con v Exp id\r
con a Ty\r
con nil Env\r
con bind Env Env id Ty\r
rule Var Env id Ty\r
if lookup ?0 ?1 ?2\r
// the name of the variable\r
then typing ?0 (0 ?1) ?2\r
end\r
rule Here Env id Ty\r
then lookup (3 ?0 ?1 ?2) ?1 ?2\r
end\r
rule There Env id id Ty Ty\r
not ?1 ?2\r
if lookup ?0 ?1 ?3\r
then lookup (3 ?0 ?2 ?4) ?1 ?3\r
end\r
goal typing (3 (2) i1:x (1)) (0 i1:x)";

/// Terms with two types, and pairs of them.
const PAIRS: &[u8] = b"sxcore 1
sort Exp typed
sort Ty plain
con z Exp
con p Exp Exp Exp
con a Ty
con b Ty
form f sub:Exp out:Ty
rule Z1
then f (0) (2)
end
rule Z2
then f (0) (3)
end
rule P Exp Exp Ty Ty
if f ?0 ?2
if f ?1 ?3
then f (1 ?0 ?1) (2)
end
goal f (1 (0) (0))
";

/// How many sorts, constructors and forms the problem has, the form of its goal, and how many
/// inputs that has.
fn counts(problem: &CoreProblem) -> (usize, usize, usize, u32, usize) {
    (
        problem.sorts.len(),
        problem.cons.len(),
        problem.rules.forms().len(),
        problem.goal.form,
        problem.goal.inputs.len(),
    )
}

/// Whether the problem has so many rules.
fn has_rules(problem: &CoreProblem, many: u32) -> bool {
    let next = problem.rules.rule(many).is_some();
    let last = match many.checked_sub(1) {
        Some(last) => problem.rules.rule(last).is_some(),
        None => true,
    };
    last && !next
}

/// The counts of the problem that the file states, where it has so many rules.
fn stated(alloc: Global, text: &[u8], rules: u32) -> Option<(usize, usize, usize, u32, usize)> {
    if text.len() > 2000 {
        return None;
    }
    let read = read_core_file(alloc, text);
    let told = match &read {
        Ok(problem) => {
            if has_rules(problem, rules) {
                Some(counts(problem))
            } else {
                None
            }
        }
        Err(_) => None,
    };
    drop(read);
    told
}

#[test]
fn look_up(rt: HostRuntime) {
    assert_holds(&rt, stated(rt.alloc(), LOOK_UP, 3) == Some((3, 4, 2, 0, 2)));
}

/// The number of the rule with this name among those that the file states.
fn number_in(alloc: Global, text: &[u8], name: &[u8]) -> Option<u32> {
    match rules_of(alloc, text) {
        Some(rules) => {
            let number = number_of(alloc, &rules, name);
            drop(rules);
            Some(number)
        }
        None => None,
    }
}

#[test]
fn pairs(rt: HostRuntime) {
    assert_same(&rt, &stated(rt.alloc(), PAIRS, 3), &Some((2, 4, 1, 0, 1)));
    assert_same(&rt, &number_in(rt.alloc(), PAIRS, b"P"), &Some(2));
}

#[test]
fn abstractions(rt: HostRuntime) {
    assert_holds(&rt, stated(rt.alloc(), LAMBDA, 4) == Some((3, 7, 2, 0, 2)));
}

/// The variable 1 is used, and there is none.
const ONE_SORT_TOO_FEW: &[u8] = b"sxcore 1
sort E typed
con a E
form f sub:E
rule R E
then f ?1
end
goal f (0)
";

/// Whether the sorts differ in the rule with this name, as the file is refused.
fn differs_in(alloc: Global, text: &[u8], rule: &[u8]) -> bool {
    if text.len() > 1000 {
        return false;
    }
    let read = read_core_file(alloc, text);
    let is = match &read {
        Err(CoreFileError::Rules(RuleError::SortDiffers(name))) => name.bytes() == rule,
        _ => false,
    };
    drop(read);
    is
}

#[test]
fn rules_that_are_no_rule_set(rt: HostRuntime) {
    assert_holds(&rt, differs_in(rt.alloc(), ONE_SORT_TOO_FEW, b"R"));
}
