//! Writing derivation lists.

ghost use Rattle.std.specs.Prelude.{◌≡◌, ◌++◌, [], ◌∷◌, OnOk, OnErr, All};
ghost use Rattle.std.specs.List.{AllByRecursion};
ghost use Rattle.sx_lines.specs.Reading.{BeginsWith, written};
ghost use Rattle.sx_rules.specs.Sets.{names_in};
ghost use Rattle.sx_rules.specs.ListText.{IsEntry, entry_line, list_lines};

use crate::entry::Entry;
use crate::rule_set::RuleSet;
use std::alloc::Global;
use sx_term::NoMemory;

/// Appends the text of an entry, or a front of it where memory is lacking.
fn put_entry(
    alloc: Global,
    rules: &RuleSet,
    entry: Entry,
    into: &mut Vec<u8>,
) -> Result<(), NoMemory>
    requires { IsEntry (names_in rules.now) entry }
    ensures ok { OnOk result (into.new.items ≡ into.old.items
        ++ entry_line (names_in rules.now) entry) }
    ensures err { OnErr result (BeginsWith into.new.items into.old.items) }
{
    match entry {
        Entry::Rule(number) => {
            into.extend_from_slice(rules.rules[number as usize].name.bytes())?;
        }
        Entry::Given(number) => {
            let digits = (u64::from(number) + 1).to_string(alloc)?;
            into.extend_from_slice(b"given ")?;
            into.extend_from_slice(digits.as_bytes())?;
        }
    }
    Ok(())
}

/// Appends the line of an entry, or a front of it where memory is lacking.
fn put_line(
    alloc: Global,
    rules: &RuleSet,
    entry: Entry,
    into: &mut Vec<u8>,
) -> Result<(), NoMemory>
    requires { IsEntry (names_in rules.now) entry }
    ensures ok { OnOk result (into.new.items ≡ into.old.items
        ++ (entry_line (names_in rules.now) entry ++ 10 ∷ [])) }
    ensures err { OnErr result (BeginsWith into.new.items into.old.items) }
{
    put_entry(alloc, rules, entry, into)?;
    into.push(b'\n')?;
    Ok(())
}

/// Appends the lines of a list, or a front of them where memory is lacking.
fn put_lines(
    alloc: Global,
    rules: &RuleSet,
    list: &[Entry],
    into: &mut Vec<u8>,
) -> Result<(), NoMemory>
    requires { All (IsEntry (names_in rules.now)) list.now }
    ensures ok { OnOk result (into.new.items ≡ into.old.items
        ++ written (list_lines (names_in rules.now) list.now)) }
    ensures err { OnErr result (BeginsWith into.new.items into.old.items) }
{
    into.extend_from_slice(b"sxder 1\n")?;
    for entry in list {
        put_line(alloc, rules, *entry, into)?;
    }
    Ok(())
}

/// Appends the text of a list: the line `sxder 1`, and then for each entry a line with the rule's
/// name or with `given N`, where N counts from 1. Where memory is lacking, the bytes are as before.
pub fn write_list(
    alloc: Global,
    rules: &RuleSet,
    list: &[Entry],
    into: &mut Vec<u8>,
) -> Result<(), NoMemory>
    requires { AllByRecursion (IsEntry (names_in rules.now)) list.now }
    ensures ok { OnOk result (into.new.items ≡ into.old.items
        ++ written (list_lines (names_in rules.now) list.now)) }
    ensures err { OnErr result (into.new.items ≡ into.old.items) }
{
    let before = into.len();
    match put_lines(alloc, rules, list, into) {
        Ok(()) => Ok(()),
        Err(e) => {
            into.truncate(before);
            Err(e)
        }
    }
}
