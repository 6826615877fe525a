//! Core files that more than one test reads, and the rules that they state.

use std::alloc::Global;
use sx_core::{CoreProblem, read_core_file};
use sx_rules::RuleSet;
use sx_term::{NoMemory, Text};

/// The terms 0 to 2, the pair 3 of two terms, and the types 4 and 5.
const PAIRS: &[u8] = b"sxcore 1
sort Exp typed
sort Ty plain
con z Exp
con w Exp
con y Exp
con pair Exp Exp Exp
con a Ty
con b Ty
form typing sub:Exp out:Ty
";

/// A pair has the type of its second part, and its first part has the type 4.
pub(crate) const PAIR: &[u8] = b"rule T-Pair Exp Exp Ty
if typing ?0 (4)
if typing ?1 ?2
then typing (3 ?0 ?1) ?2
end
";

/// The term 0 has the type 4.
pub(crate) const Z: &[u8] = b"rule Z
then typing (0) (4)
end
";

/// The term 0 has the type 5.
pub(crate) const OTHER_Z: &[u8] = b"rule Other
then typing (0) (5)
end
";

/// The term 1 has the type 5.
pub(crate) const W: &[u8] = b"rule W
then typing (1) (5)
end
";

/// Variables and abstractions: the constructors 0 to 6 are the empty and the longer environment,
/// two types and their function type, a variable and an abstraction.
pub(crate) const LAMBDA: &[u8] = b"sxcore 1
sort Env plain
sort Ty plain
sort Exp typed
con nilenv Env
con bind Env Env id Ty
con int Ty
con strty Ty
con arrow Ty Ty Ty
con var Exp id
con lam Exp id Ty Exp
form typing in:Env sub:Exp out:Ty
form lookup in:Env in:id out:Ty
rule L-Here Env id Ty
then lookup (1 ?0 ?1 ?2) ?1 ?2
end
rule L-There Env id Ty id Ty
not ?1 ?3
if lookup ?0 ?1 ?2
then lookup (1 ?0 ?3 ?4) ?1 ?2
end
rule T-Var Env id Ty
if lookup ?0 ?1 ?2
then typing ?0 (5 ?1) ?2
end
rule T-Lam Env id Ty Exp Ty
if typing (1 ?0 ?1 ?2) ?3 ?4
then typing ?0 (6 ?1 ?2 ?3) (4 ?2 ?4)
end
goal typing (0) (6 i1:x (2) (6 i1:x (3) (5 i1:x)))
";

fn put_joined(parts: &[&[u8]], text: &mut Vec<u8>) -> Result<(), NoMemory> {
    for part in parts {
        text.extend_from_slice(part)?;
    }
    Ok(())
}

/// The texts one after the other; less where memory is lacking.
pub(crate) fn joined(alloc: Global, parts: &[&[u8]]) -> Vec<u8> {
    let mut text = Vec::new(alloc);
    let _memory = put_joined(parts, &mut text).is_ok();
    text
}

/// The rules of the core file.
pub(crate) fn rules_of(alloc: Global, text: &[u8]) -> Option<RuleSet> {
    if text.len() > 2000 {
        return None;
    }
    match read_core_file(alloc, text) {
        Ok(problem) => {
            let CoreProblem {
                sorts,
                cons,
                rules,
                goal,
            } = problem;
            drop(goal);
            drop(cons);
            drop(sorts);
            Some(rules)
        }
        Err(_) => None,
    }
}

/// The rules with these texts, over terms, pairs and types.
pub(crate) fn rules(alloc: Global, first: &[u8], second: &[u8], third: &[u8]) -> Option<RuleSet> {
    let text = joined(alloc, &[PAIRS, first, second, third, b"goal typing (0)\n"]);
    let rules = rules_of(alloc, &text);
    drop(text);
    rules
}

/// The number of the rule with this name; 9 where there is none, and 8 where memory is lacking.
pub(crate) fn number_of(alloc: Global, rules: &RuleSet, name: &[u8]) -> u32 {
    match Text::make(alloc, name) {
        Ok(name) => {
            let number = rules.find(&name).unwrap_or(9);
            drop(name);
            number
        }
        Err(_) => 8,
    }
}
