//! Rules that are no rule set, and rules that are found by their names.

ghost use Rattle.std.specs.Prelude.{IfSome, map};
ghost use Rattle.sx_rules.specs.Deep.{RulesAreShallow};
ghost use Rattle.sx_rules.specs.Views.{rule};

use crate::asserts::{assert_holds, assert_same};
use crate::samples::{PAIR, joined, number_of, rules};
use crate::terms::judgement;
use std::alloc::Global;
use sx_core::{CoreFileError, read_core_file};
use sx_rules::{Rule, RuleError, RuleSet};
use sx_term::Text;

/// The typed terms 0 and the pair 2 of two terms, and the type 1.
const HEAD: &[u8] = b"sxcore 1
sort Exp typed
sort Ty plain
con leaf Exp
con type Ty
con pair Exp Exp Exp
form typing sub:Exp out:Ty
rule R ";

const GOAL: &[u8] = b" ?3\nend\ngoal typing (0)\n";

/// The refusal's place among the refusals, with its numbers.
fn numbers(error: &RuleError) -> (u32, u32, usize) {
    match error {
        RuleError::Memory => (0, 0, 0),
        RuleError::TooManyRules => (1, 0, 0),
        RuleError::TooManyVars(_) => (2, 0, 0),
        RuleError::SameRule(_) => (3, 0, 0),
        RuleError::SortDiffers(_) => (4, 0, 0),
        RuleError::Discipline(_, part, premise) => (5, u32::from(*part), *premise),
        RuleError::NotModed(_, variable) => (6, *variable, 0),
    }
}

/// Why the rules of the core file are refused; 7 where they are taken, and 8 where something else
/// is wrong.
fn refused(alloc: Global, text: &[u8]) -> (u32, u32, usize) {
    if text.len() > 2000 {
        return (8, 0, 0);
    }
    let read = read_core_file(alloc, text);
    let told = match &read {
        Ok(_) => (7, 0, 0),
        Err(CoreFileError::Rules(error)) => numbers(error),
        Err(_) => (8, 0, 0),
    };
    drop(read);
    told
}

/// Why the rule with premises on two subjects, with the outputs ?3 and ?4, is refused.
fn refusal(
    alloc: Global,
    sorts: &[u8],
    first: &[u8],
    second: &[u8],
    last: &[u8],
) -> (u32, u32, usize) {
    let parts = [
        HEAD,
        sorts,
        b"\nif typing ",
        first,
        b" ?3\nif typing ",
        second,
        b" ?4\nthen typing ",
        last,
        GOAL,
    ];
    let text = joined(alloc, &parts);
    let told = refused(alloc, &text);
    drop(text);
    told
}

const FIVE: &[u8] = b"Exp Exp Exp Ty Ty";

#[test]
fn refused_rules(rt: HostRuntime) {
    let alloc = rt.alloc();
    let found = [
        refusal(alloc, FIVE, b"?0", b"?1", b"(2 ?0 ?1)"),
        refusal(alloc, FIVE, b"?0", b"(1)", b"(2 ?0 ?1)"),
        refusal(alloc, FIVE, b"?0", b"(0)", b"(2 ?0 ?1)"),
        refusal(alloc, FIVE, b"?0", b"?1", b"(2 ?0 ?0)"),
        refusal(alloc, FIVE, b"?0", b"?0", b"?0"),
        refusal(alloc, FIVE, b"?0", b"?1", b"(2 ?0 (2 ?1 ?2))"),
    ];
    assert_same(
        &rt,
        &found,
        &[
            (6, 2, 0),
            (4, 0, 0),
            (5, 1, 2),
            (5, 2, 1),
            (5, 3, 2),
            (5, 4, 0),
        ],
    );
}

/// Why the rule with 65 variables is refused.
fn many_variables(alloc: Global) -> (u32, u32, usize) {
    let mut sorts = joined(alloc, &[b"Exp ".as_slice(); 64]);
    let told = match sorts.extend_from_slice(b"Exp") {
        Ok(()) => refusal(alloc, &sorts, b"?0", b"?1", b"(2 ?0 ?1)"),
        Err(_) => (0, 0, 0),
    };
    drop(sorts);
    told
}

#[test]
fn sixty_five_variables(rt: HostRuntime) {
    assert_holds(&rt, many_variables(rt.alloc()) == (2, 0, 0));
}

/// The one rule with this name: the term 1 has the type 4.
fn one_rule(alloc: Global, name: &[u8]) -> Option<Vec<Rule>>
    ensures { IfSome result (λ rs. RulesAreShallow (map rule rs.items)) }
{
    let name = Text::make(alloc, name).ok()?;
    let conclusion = judgement(alloc, "(1)", "(4)")?;
    let mut rules = Vec::new(alloc);
    rules
        .push(Rule {
            name,
            vars: Vec::new(alloc),
            premises: Vec::new(alloc),
            conclusion,
        })
        .ok()?;
    Some(rules)
}

/// The rule for pairs and one more.
fn extended(alloc: Global) -> Option<RuleSet> {
    let more = one_rule(alloc, b"T-More")?;
    let base = rules(alloc, PAIR, b"", b"")?;
    let all = RuleSet::extend(alloc, &base, base.shapes(), more).ok();
    drop(base);
    all
}

/// The numbers of the first rule, of the one that was added, and of a name that no rule has.
fn found(alloc: Global) -> Option<(u32, u32, u32)> {
    match extended(alloc) {
        Some(all) => {
            let numbers = (
                number_of(alloc, &all, b"T-Pair"),
                number_of(alloc, &all, b"T-More"),
                number_of(alloc, &all, b"T-Pai"),
            );
            drop(all);
            Some(numbers)
        }
        None => None,
    }
}

#[test]
fn rules_are_found(rt: HostRuntime) {
    assert_holds(&rt, found(rt.alloc()) == Some((0, 1, 9)));
}
