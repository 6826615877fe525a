//! Reading derivation lists.

ghost use Rattle.std.specs.Prelude.{◌≡◌, List, codes, Ok, IfOk, IfErr, IfSome};
ghost use Rattle.sx_lines.specs.Left.{left};
ghost use Rattle.sx_lines.specs.Lines.{lines_from, line_texts};
ghost use Rattle.sx_rules.specs.BadLine.{IsFirstMisread};
ghost use Rattle.sx_lines.specs.Reading.{GivesRead, the_line, each_line};
ghost use Rattle.sx_rules.specs.RuleNames.{AreNames, place_from};
ghost use Rattle.sx_rules.specs.Sets.{names_in};
ghost use Rattle.sx_rules.specs.declared.entry.Entry.{Entry as EntryOf};
ghost use Rattle.sx_rules.specs.ListText as spec;
ghost use Rattle.sx_rules.specs.ListText.{StatesList};
ghost use Rattle.sx_rules.specs.ListRead.{refusal, RefusesList};
ghost use Rattle.sx_rules.specs.ListLaws.{WrittenListIsRead};

use crate::entry::Entry;
use crate::list_error::ListError;
use crate::rule_set::RuleSet;
use std::alloc::Global;
use sx_lines::{Rest, after, number_within};

/// The number of the rule with that name.
fn place_of(rules: &RuleSet, name: &[u8]) -> Option<u32>
    ensures { result ≡ place_from 0 (names_in rules.now) name.now }
{
    rules.find_bytes(name)
}

/// The hypothesis that a line names.
#[tactic(auto, unfolding(crate::specs::ListText::given_number))]
fn given_of(text: &[u8]) -> Option<u32>
    ensures { result ≡ spec.given_number text.now }
{
    let digits = after(text, b"given ")?;
    let number = number_within(4_294_967_296, digits)?;
    if number == 0 {
        return None;
    }
    Some((number - 1) as u32)
}

/// The entry that a line names.
#[tactic(auto, unfolding(crate::specs::ListText::entry_of))]
fn entry_of(rules: &RuleSet, text: &[u8]) -> Option<Entry>
    ensures { result ≡ spec.entry_of (names_in rules.now) text.now }
{
    match given_of(text) {
        Some(number) => Some(Entry::Given(number)),
        None => match place_of(rules, text) {
            Some(number) => Some(Entry::Rule(number)),
            None => None,
        },
    }
}

/// What is left after the line `sxder 1`.
#[tactic(auto, unfolding(sx_lines::specs::Reading::the_line))]
fn first_line(rest: Rest<'_>) -> Result<Rest<'_>, ListError>
    ensures { GivesRead left RefusesList result (the_line (codes "sxder 1") (left rest.entry)) }
{
    let (line, after) = rest.next()?;
    if line.text != b"sxder 1".as_slice() {
        return Err(ListError::BadList(line.number));
    }
    Ok(after)
}

/// The entries that lines name.
fn entries(alloc: Global, rules: &RuleSet, rest: Rest<'_>) -> Result<Vec<Entry>, ListError>
    ensures { GivesRead (λ v. v.items) RefusesList result
        (each_line (spec.entry_of (names_in rules.now)) (left rest.entry)) }
{
    let mut list = Vec::new(alloc);
    let mut rest = rest;
    'lines: while let Ok((line, after)) = rest.next() {
        match entry_of(rules, line.text) {
            Some(entry) => list.push(entry)?,
            None => return Err(ListError::BadList(line.number)),
        }
        rest = after;
    }
    Ok(list)
}

/// The list that lines state, or the number of the first line that is not as defined.
#[tactic(auto, unfolding(crate::specs::ListText::list_of))]
fn list(alloc: Global, rules: &RuleSet, bytes: &[u8]) -> Result<Vec<Entry>, ListError>
    ensures { GivesRead (λ v. v.items) RefusesList result
        (spec.list_of (names_in rules.now) (lines_from 1 bytes.now)) }
{
    let rest = first_line(Rest::all(bytes))?;
    entries(alloc, rules, rest)
}

/// The derivation list that the bytes state: the line `sxder 1`, and then for each entry a line
/// with a rule's name or with `given N`, where N counts from 1. The refusal names the first line
/// that is not as defined. Lines past 4,294,967,294 have all the number 4,294,967,295.
pub fn read_list(alloc: Global, rules: &RuleSet, bytes: &[u8]) -> Result<Vec<Entry>, ListError>
    ensures exact { GivesRead (λ v. v.items) RefusesList result
        (spec.list_of (names_in rules.now) (lines_from 1 bytes.now)) }
    // What is read is stated.
    ensures found { IfOk result (λ v. StatesList (names_in rules.now)
        (line_texts (lines_from 1 bytes.now)) v.items) }
    // What is stated is read, unless memory runs out.
    ensures only { AreNames (names_in rules.now) → (list : List EntryOf) →
        StatesList (names_in rules.now) (line_texts (lines_from 1 bytes.now)) list
        → GivesRead (λ v. v.items) RefusesList result (Ok list) }
    // The line that is refused is the first that is not as defined.
    ensures refused { AreNames (names_in rules.now) → IfErr result (λ e. IfSome (refusal e)
        (IsFirstMisread (StatesList (names_in rules.now)) (line_texts (lines_from 1 bytes.now)))) }
{
    list(alloc, rules, bytes)
}

/// What was written is read again as the same list.
pub fn written_list_is_read()
    ensures { WrittenListIsRead }
{}
