//! Derivation lists: as they are read, written and made of derivations.

ghost use Rattle.std.specs.Prelude.{◌≤◌, IfOk};
ghost use Rattle.sx_rules.specs.Derivations.{height_of};
ghost use Rattle.sx_rules.specs.ProofView.{proof};

use crate::asserts::{assert_holds, assert_same};
use crate::samples::{LAMBDA, PAIR, W, Z, rules, rules_of};
use std::alloc::Global;
use sx_rules::{Entry, ListError, Proof, RuleSet, preorder, read_list, write_list};
use sx_term::NoMemory;

/// The line at which the text is refused; 0 where it is not, and the greatest number where memory
/// is lacking.
fn line_of(alloc: Global, rules: &RuleSet, text: &[u8]) -> u32 {
    if text.len() > 100 {
        return u32::MAX;
    }
    let read = read_list(alloc, rules, text);
    let line = match &read {
        Err(ListError::BadList(line)) => *line,
        Err(ListError::Memory) => u32::MAX,
        Ok(_) => 0,
    };
    drop(read);
    line
}

/// The line at which the text is refused, by the rules for pairs.
fn bad_line(alloc: Global, text: &[u8]) -> Option<u32> {
    match rules(alloc, Z, W, PAIR) {
        Some(rules) => {
            let line = line_of(alloc, &rules, text);
            drop(rules);
            Some(line)
        }
        None => None,
    }
}

#[test]
fn bad_lists(rt: HostRuntime) {
    let alloc = rt.alloc();
    let found = [
        bad_line(alloc, b""),
        bad_line(alloc, b"sxder 1\n\n"),
        bad_line(alloc, b"sxder 1\nT-Pair\ngiven 0\n"),
        bad_line(alloc, b"sxder 1\nT-Pair\xff\n"),
    ];
    assert_same(&rt, &found, &[Some(1), Some(2), Some(3), Some(2)]);
}

/// The line at which the text is refused, by the rules for abstractions.
fn bad_entry(alloc: Global, text: &[u8]) -> Option<u32> {
    match rules_of(alloc, LAMBDA) {
        Some(rules) => {
            let line = line_of(alloc, &rules, text);
            drop(rules);
            Some(line)
        }
        None => None,
    }
}

#[test]
fn bad_entries(rt: HostRuntime) {
    let alloc = rt.alloc();
    let blank = b"sxder 1\nT-Lam\nT-Lam\nT-Var\nL-There\nL-Here \n";
    let found = [
        bad_entry(alloc, b"sxder 1\nT-Lam\nT-Lam\nT-Var\nT-Nosuch\n"),
        bad_entry(alloc, blank),
        bad_entry(alloc, b"sxder 1\nT-Lam\ngiven 0\n"),
        bad_entry(alloc, b"sxder 1\nT-Lam\ngiven 4294967297\n"),
        bad_entry(alloc, b"sxder 2\nT-Lam\n"),
    ];
    assert_same(&rt, &found, &[Some(5), Some(6), Some(3), Some(3), Some(1)]);
}

/// Whether the list that the text states is this one, by the rules for abstractions.
fn states(alloc: Global, text: &[u8], wanted: &[Entry]) -> bool {
    if text.len() > 100 {
        return false;
    }
    match rules_of(alloc, LAMBDA) {
        Some(rules) => {
            let read = read_list(alloc, &rules, text);
            drop(rules);
            let is = match &read {
                Ok(list) => list.as_slice() == wanted,
                Err(_) => false,
            };
            drop(read);
            is
        }
        None => false,
    }
}

#[test]
fn lists_are_read(rt: HostRuntime) {
    let text = b"sxder 1\nT-Lam\nT-Lam\nT-Var\nL-There\nL-Here\n";
    let wanted = [
        Entry::Rule(3),
        Entry::Rule(3),
        Entry::Rule(2),
        Entry::Rule(1),
        Entry::Rule(0),
    ];
    assert_holds(&rt, states(rt.alloc(), text, &wanted));
}

/// The text of the list that the text states.
fn written_again(alloc: Global, rules: &RuleSet, text: &[u8]) -> Vec<u8> {
    let mut written = Vec::new(alloc);
    if text.len() < 100 {
        match read_list(alloc, rules, text) {
            Ok(list) => {
                let _memory = write_list(alloc, rules, &list, &mut written).is_ok();
                drop(list);
            }
            Err(_) => {}
        }
    }
    written
}

/// Whether the list that the text states is written like that.
fn is_written(alloc: Global, text: &[u8], wanted: &[u8]) -> bool {
    match rules(alloc, Z, W, PAIR) {
        Some(rules) => {
            let written = written_again(alloc, &rules, text);
            drop(rules);
            written.as_slice() == wanted
        }
        None => false,
    }
}

#[test]
fn lists_are_written(rt: HostRuntime) {
    assert_holds(
        &rt,
        is_written(
            rt.alloc(),
            b"sxder 1\r\nT-Pair\r\ngiven 1\ngiven 4294967296",
            b"sxder 1\nT-Pair\ngiven 1\ngiven 4294967296\n",
        ),
    );
}

/// A node by the rule 3 over two hypotheses.
fn node(alloc: Global) -> Result<Proof, NoMemory>
    ensures { IfOk result (λ p. height_of (proof p) ≤ 3000) }
{
    let mut kids = Vec::new(alloc);
    kids.push(Box::new(alloc, Proof::Given(7))?)?;
    kids.push(Box::new(alloc, Proof::Given(5))?)?;
    Ok(Proof::By {
        rule: 3,
        binds: Vec::new(alloc),
        kids,
    })
}

/// Whether the entries of the node are these.
fn has_entries(alloc: Global, wanted: &[Entry]) -> bool {
    match node(alloc) {
        Ok(proof) => {
            let list = preorder(alloc, &proof);
            drop(proof);
            match &list {
                Ok(list) => list.as_slice() == wanted,
                Err(_) => false,
            }
        }
        Err(_) => false,
    }
}

#[test]
fn kids_follow_their_node(rt: HostRuntime) {
    let wanted = [Entry::Rule(3), Entry::Given(7), Entry::Given(5)];
    assert_holds(&rt, has_entries(rt.alloc(), &wanted));
}
